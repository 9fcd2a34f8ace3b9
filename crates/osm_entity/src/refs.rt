//! The refs of a way.

ghost use Rattle.std.specs.Prelude.{◌≡◌, true, pos};
ghost use Rattle.mf_base.specs.Packed.{are_varints};
ghost use Rattle.osm_entity.specs.Sums.{are_signed};

use crate::sums::checked_sum;
use mf_base::packed::first_packed;
use mf_base::zigzag::unzigzag;
use osm_model::faults::EntityFault;

/// Goes over the refs of a way, the ids of nodes as they are written. It is plain data.
#[derive(Clone, Copy, Debug, PartialEq, Eq)]
pub struct RefCursor<'a> {
    // The differences that are left, and the sum of those before.
    rest: &'a [u8],
    sum: i64,
    ghost whole: { are_varints rest.now ≡ true },
    ghost signed: { are_signed sum rest.now ≡ true },
}

impl<'a> RefCursor<'a> {
    ghost use Rattle.std.specs.Prelude.{◌≡◌, true, drop, slice_get, map};
    ghost use Rattle.mf_base.specs.Spelling.{unzigzag_of};
    ghost use Rattle.mf_base.specs.Packed.{are_varints, packed_numbers};
    ghost use Rattle.osm_model.specs.Objects.{running_sums};
    ghost use Rattle.osm_entity.specs.Answers.{answer_as};
    ghost use Rattle.osm_entity.specs.Refs.{refs_left, checked_refs};

    // The refs of a list of differences, each of which is a number of signed 64 bits.
    pub(crate) fn read(differences: &'a [u8]) -> Result<RefCursor<'a>, EntityFault>
        requires { are_varints differences.now ≡ true }
        ensures { answer_as refs_left result
            ≡ checked_refs (running_sums (map unzigzag_of (packed_numbers differences.now))) }
    {
        if !are_in_range(differences) {
            return Err(EntityFault::Range);
        }
        Ok(RefCursor {
            rest: differences,
            sum: 0,
        })
    }

    /// The next ref, or None after the last.
    pub fn next(&mut self) -> Option<i64>
        ensures first { result ≡ slice_get (refs_left self.old) 0 }
        ensures rest { refs_left self.new ≡ drop 1 (refs_left self.old) }
    {
        let Some((difference, rest)) = first_packed(self.rest) else {
            return None;
        };
        let sum = self.sum + unzigzag(difference);
        self.rest = rest;
        self.sum = sum;
        Some(sum)
    }
}

// Whether each sum of differences is a number of signed 64 bits.
fn are_in_range(differences: &[u8]) -> bool
    requires { are_varints differences.now ≡ true }
    ensures { result ≡ are_signed (pos 0) differences.now }
{
    let mut rest = differences;
    let mut sum = 0i64;
    while let Some((difference, behind)) = first_packed(rest) {
        match checked_sum(sum, unzigzag(difference)) {
            Some(next) => sum = next,
            None => return false,
        }
        rest = behind;
    }
    true
}
