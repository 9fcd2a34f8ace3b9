//! Laws of what a desk holds.

ghost use Rattle.std.specs.Prelude.{◌≡◌, ◌≤◌, [], Some};
ghost use Rattle.mf_base.specs.declared.tile.TilePlace.{TilePlace};
ghost use Rattle.map_model.specs.Room.{rows_limit};
ghost use Rattle.mf_rows.specs.Desks.{Desktop, closed_as};
ghost use Rattle.mf_rows.specs.Records.{Record};
ghost use Rattle.tile_body.specs.Members.{HoldsMembers, IsNext};

/// A desk without records holds the members of a tile. Once a record is closed behind others, the desk holds members just
/// where it held some before and the record may be the next.
pub fn members_are_added()
    ensures none { (tile : TilePlace) (d : Desktop) → d.capacity ≤ rows_limit → d.records ≡ [] → HoldsMembers tile d }
    ensures one { (tile : TilePlace) (d : Desktop) (r : Record) → HoldsMembers tile d
        → IsNext tile.interval d.records r → HoldsMembers tile (closed_as (Some r) d) }
    ensures only { (tile : TilePlace) (d : Desktop) (r : Record) → HoldsMembers tile (closed_as (Some r) d)
        → HoldsMembers tile d × IsNext tile.interval d.records r }
{}
