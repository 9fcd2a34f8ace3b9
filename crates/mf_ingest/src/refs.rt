//! The refs of a way as rows.

ghost use Rattle.std.specs.Prelude.{◌≡◌, ◌+◌, ◌^◌, ◌<◌, length};
ghost use Rattle.osm_entity.specs.Refs.{refs_left};
ghost use Rattle.osm_entity.specs.Ways.{way_shown};
ghost use Rattle.spill_parts.specs.Handed.{id_told, ref_rows};
ghost use Rattle.mf_ingest.specs.LeftRows.{refs_from};

use mf_rows::kinds::RefRow;
use osm_entity::refs::RefCursor;
use osm_entity::way::WayView;
use spill_parts::Rows;

/// Gives the refs of a way that may be ids of nodes, each with its place among all.
#[derive(Drop)]
pub(crate) struct RefRows<'a> {
    way: u64,
    // The place of the next ref.
    place: u32,
    refs: RefCursor<'a>,
    ghost few: { place + length (refs_left refs) < 2 ^ 32 },
}

impl<'a> RefRows<'a> {
    ghost use Rattle.std.specs.Prelude.{◌≡◌, ◌^◌, ◌<◌, length};
    ghost use Rattle.osm_entity.specs.Refs.{refs_left};
    ghost use Rattle.osm_entity.specs.Ways.{way_shown};
    ghost use Rattle.spill_parts.specs.Handed.{ref_rows};
    ghost use Rattle.mf_ingest.specs.LeftRows.{refs_from};

    /// All refs of a way.
    pub(crate) fn of(way: WayView<'a>) -> RefRows<'a>
        requires { length (way_shown way).refs < 2 ^ 32 }
        ensures { refs_from result.way result.place (refs_left result.refs) ≡ ref_rows (way_shown way.entry) }
    {
        RefRows {
            way: way.id(),
            place: 0,
            refs: way.refs(),
        }
    }
}

impl<'a> Rows<RefRow> for RefRows<'a> {
    ghost use Rattle.osm_entity.specs.Refs.{refs_left};
    ghost use Rattle.mf_ingest.specs.LeftRows.{refs_from};

    ghost left = { λ r. refs_from r.way r.place (refs_left r.refs) };

    fn next(&mut self) -> Option<RefRow> {
        while let Some(id) = self.refs.next() {
            let place = self.place;
            self.place += 1;
            if let Some(node) = id_named(id) {
                return Some(RefRow {
                    node,
                    way: self.way,
                    place,
                });
            }
        }
        None
    }
}

/// The id that a ref, or the id of a member, names: what is below 1 is the id of nothing.
pub(crate) fn id_named(id: i64) -> Option<u64>
    ensures { result ≡ id_told id }
{
    if id >= 1 {
        Some(id.unsigned_abs())
    } else {
        None
    }
}
