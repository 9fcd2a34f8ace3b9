//! How many rows a job can hold at one time.

ghost use Rattle.std.specs.Prelude.{◌≡◌, ℕ, ◌+◌, ◌*◌, ◌≤◌, length, sum};
ghost use Rattle.mf_compile.specs.Jobs as rooms;
ghost use Rattle.mf_compile.specs.Jobs.{HaveRooms};

use mf_rows::desk::Desk;
use spill_parts::Page;

/// Desks and a page with room for so many rows each never hold more rows than that, whatever stands in them. It does
/// nothing.
pub fn resident_rows(desks: &[Desk], page: &Page)
    requires { length desks.now ≤ 64 }
    ensures { (workers rows : ℕ) → HaveRooms workers rows desks.now page.now
        → rooms.resident_rows desks.now page.now ≤ (workers + 1) * rows }
{
    let _spare = spare_rows(desks);
}

/// For how many more rows desks have room together.
pub fn spare_rows(desks: &[Desk]) -> u64
    requires { length desks.now ≤ 64 }
    ensures { result + rooms.rows_in_use desks.now ≡ sum (rooms.desk_rooms desks.now) }
{
    let mut spare = 0;
    for desk in desks {
        spare += u64::from(desk.records.spare());
    }
    spare
}
