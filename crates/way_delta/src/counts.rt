//! The numbers that stand in data blocks.

ghost use Rattle.std.specs.Prelude.{◌≡◌, ◌+◌, ◌*◌, ◌≤◌, ◌<◌, ◌^◌, ℕ, Bool, length, if◌then◌else◌};
ghost use Rattle.feature_model.specs.Blocks.{is_outer, inner_before};
ghost use Rattle.mf_base.specs.declared.place.Place.{Place};
ghost use Rattle.map_model.specs.TileBytes.{coordinate_size};
ghost use Rattle.mf_rows.specs.RecordUnits.{parts_count};
ghost use Rattle.mf_rows.specs.Shapes.{IsFeature, feature_told};
ghost use Rattle.way_delta.specs.Rings.{behind_outer, passed, head_bytes, block_count, counts_size, blocks_told};
ghost use Rattle.way_delta.specs.Rings.{blocks_bytes};

use mf_base::kind::{EntityKind, Role};
use mf_base::vbe::size_vbe_u;
use mf_rows::cursors::RingCursor;
use mf_rows::view::View;

/// How many data blocks a feature has, and how many bytes the numbers of their rings and of the places of these take.
#[derive(Clone, Copy, Debug, PartialEq, Eq)]
pub struct Counts {
    pub blocks: u64,
    pub size: u64,
}

/// The numbers of a feature's data blocks. No coordinate is read. A node has no block.
pub fn count_blocks(view: &View) -> Counts
    requires feature { IsFeature view.now }
    requires few { parts_count view.now.parts < 2 ^ 32 }
    ensures blocks { result.blocks ≡ length (blocks_told view.now) }
    ensures size { (corner : Place) (double : Bool) → result.size + coordinate_size corner double (feature_told view.now)
        ≡ length (blocks_bytes corner double (blocks_told view.now)) }
    ensures most { result.size ≤ 20 * parts_count view.now.parts }
{
    match view.head().kind {
        EntityKind::Node => Counts { blocks: 0, size: 0 },
        EntityKind::Way | EntityKind::Relation => {
            let mut ahead = view.rings();
            let _ = ahead.next();
            count_rings(view.rings(), ahead)
        }
    }
}

// The same of rings. `ahead` has those behind the next outer one.
fn count_rings(mut rings: RingCursor<'_>, mut ahead: RingCursor<'_>) -> Counts
    requires few { parts_count rings < 2 ^ 32 }
    requires ahead { ahead ≡ behind_outer rings }
    ensures blocks { result.blocks ≡ block_count rings.entry }
    ensures size { result.size ≡ counts_size rings.entry }
    ensures most { result.size ≤ 20 * parts_count rings.entry }
{
    let mut counts = Counts { blocks: 0, size: 0 };
    while let Some((role, points)) = rings.next() {
        let head = count_head(role, &mut ahead);
        counts.blocks += head.blocks;
        counts.size += head.size + u64::from(size_vbe_u(points.len() as u64));
    }
    counts
}

// The block that a ring of this role begins, and the bytes of its number of rings. `ahead` has the rings behind it where
// it is outer; an inner ring begins no block.
fn count_head(role: Role, ahead: &mut RingCursor<'_>) -> Counts
    requires few { parts_count ahead.old < 2 ^ 32 }
    ensures blocks { result.blocks ≡ (if is_outer role then 1 else 0) }
    ensures size { result.size ≡ length (head_bytes role ahead.old) }
    ensures most { result.size ≤ 10 }
    ensures ahead { ahead.new ≡ passed role ahead.old }
{
    match role {
        Role::Outer => Counts {
            blocks: 1,
            size: u64::from(size_vbe_u(pass_inner(ahead) + 1)),
        },
        Role::Inner => Counts { blocks: 0, size: 0 },
    }
}

// Passes over the inner rings up to the next outer one, and over that, and tells how many the inner ones are.
pub(crate) fn pass_inner(rings: &mut RingCursor<'_>) -> u64
    requires few { parts_count rings.old < 2 ^ 32 }
    ensures inner { result ≡ length (inner_before rings.old) }
    ensures behind { rings.new ≡ behind_outer rings.old }
    ensures most { result ≤ parts_count rings.old }
{
    let mut inner = 0;
    while let Some((Role::Inner, _)) = rings.next() {
        inner += 1;
    }
    inner
}
