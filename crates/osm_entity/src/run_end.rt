//! The end of the tags of a dense node: the OpenStreetMap wiki, "PBF Format", on keys_vals.

ghost use Rattle.std.specs.Prelude.{◌≡◌, true};
ghost use Rattle.mf_base.specs.Packed.{are_varints};
ghost use Rattle.osm_entity.specs.TagRun.{EndsRun, GivesFront};

use mf_base::varint_front::front_varint;
use osm_model::faults::EntityFault;

// What stands in front of keys and values, and how many bytes it takes: a key and its value, or a 0 in the place of a
// key.
#[derive(Clone, Copy, Debug, PartialEq, Eq)]
enum Front {
    Pair(usize),
    Zero(usize),
}

// Where the first run of keys and values ends, and where the next begins behind its 0, or the first fault of the run.
pub(crate) fn run_end(list: &[u8], count: u64) -> Result<(usize, usize), EntityFault>
    requires { are_varints list.now ≡ true }
    ensures { EndsRun count list.now result }
{
    let mut at = 0;
    loop {
        match front_of(&list[at..], count) {
            Ok(Front::Pair(size)) => at += size,
            Ok(Front::Zero(size)) => return Ok((at, at + size)),
            Err(fault) => return Err(fault),
        }
    }
}

// What stands in front of keys and values, or the fault of the pair there.
fn front_of(list: &[u8], count: u64) -> Result<Front, EntityFault>
    requires { are_varints list.now ≡ true }
    ensures { GivesFront count list.now result }
{
    let Ok((key, at)) = front_varint(list) else {
        return Err(EntityFault::Columns);
    };
    if key == 0 {
        return Ok(Front::Zero(at));
    }
    if key >= count {
        return Err(EntityFault::StringIndex);
    }
    match front_varint(&list[at..]) {
        Err(_) => Err(EntityFault::KeyWithoutValue),
        Ok((value, size)) => {
            if value >= count {
                Err(EntityFault::StringIndex)
            } else {
                Ok(Front::Pair(at + size))
            }
        }
    }
}
