//! Sub-files that are too long.

ghost use Rattle.std.specs.Prelude.{◌≡◌, ◌+◌, ◌≤◌, ◌^◌, nat_le, map, find, length, option_map};
ghost use Rattle.std.specs.List.{enumerate_from};
ghost use Rattle.feature_model.specs.declared.fault.LimitFault.{LimitFault as Fault};
ghost use Rattle.map_model.specs.MapFile.{sub_file_limit_fault};
ghost use Rattle.mf_layout.specs.declared.sub_files.SubFileSize.{SubFileSize as Size};

use crate::laid::SUB_FILE_LIMIT;
use crate::sub_files::SubFileSize;
use mf_rows::LimitFault;

/// The first sub-file that has so many bytes or more, as a fault.
#[tactic(auto, unfolding(map_model::specs::MapFile::sub_file_limit_fault))]
pub(crate) fn first_too_long(sizes: &[SubFileSize]) -> Option<LimitFault>
    requires few { length sizes.now ≤ 8 }
    ensures { result ≡ sub_file_limit_fault (map (λ (s : Size). s.bytes) sizes.now) }
{
    first_from(0, sizes)
}

// The same of the sub-files from a place on.
fn first_from(index: u8, sizes: &[SubFileSize]) -> Option<LimitFault>
    requires few { index + length sizes.now ≤ 8 }
    ensures { result ≡ option_map (λ at. Fault.SubFile at.0 at.1)
        (find (λ at. nat_le (2 ^ 39) at.1) (enumerate_from index (map (λ (s : Size). s.bytes) sizes.now))) }
{
    let Some((first, others)) = sizes.split_first() else {
        return None;
    };
    if first.bytes >= SUB_FILE_LIMIT {
        return Some(LimitFault::SubFile {
            index,
            size: first.bytes,
        });
    }
    first_from(index + 1, others)
}
