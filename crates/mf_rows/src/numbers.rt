//! The numbers of kinds and of roles, in rows and in units.

ghost use Rattle.std.specs.Prelude.{◌≡◌};
ghost use Rattle.mf_rows.specs.Heads.{kind_number, kind_told};
ghost use Rattle.mf_rows.specs.Units.{role_number};

use mf_base::kind::{EntityKind, Role};

/// The number of a kind.
pub fn number_of_kind(kind: EntityKind) -> u8
    ensures { result ≡ kind_number kind }
{
    match kind {
        EntityKind::Node => 0,
        EntityKind::Way => 1,
        EntityKind::Relation => 2,
    }
}

/// The kind with a number: that of a relation for each number beyond it.
pub fn kind_of_number(number: u8) -> EntityKind
    ensures { result ≡ kind_told number }
{
    match number {
        0 => EntityKind::Node,
        1 => EntityKind::Way,
        _ => EntityKind::Relation,
    }
}

/// The number of a role.
pub fn number_of_role(role: Role) -> u8
    ensures { result ≡ role_number role }
{
    match role {
        Role::Outer => 0,
        Role::Inner => 1,
    }
}
