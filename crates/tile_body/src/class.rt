//! POIs and ways of the map.

ghost use Rattle.std.specs.Prelude.{◌≡◌};
ghost use Rattle.map_model.specs.Members.{is_node_kind};

use mf_base::kind::EntityKind;
use mf_rows::head::Head;

/// Whether a record with this head is a POI; else it is a way of the map.
pub(crate) fn is_poi(head: &Head) -> bool
    ensures { result ≡ is_node_kind head.now.kind }
{
    match head.kind {
        EntityKind::Node => true,
        EntityKind::Way | EntityKind::Relation => false,
    }
}
