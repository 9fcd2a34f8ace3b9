//! The tags of a header that are the entries of a mapping.

use crate::tag_source::TagSource;
use mf_base::kind::List;
use mf_base::out_buf::OutBuf;
use tag_mapping::mapping::Mapping;

/// The tags are the texts `KEY=VALUE` of the entries.
impl TagSource for Mapping {
    ghost use Rattle.map_model.specs.TagLists.{tag_lists};

    ghost names = { λ mapping. tag_lists mapping };

    fn tag_count(&self, list: List) -> u32 {
        self.entries(list).count() as u32
    }

    fn tag_size(&self, list: List, index: u32) -> u32 {
        self.entries(list).tag_size(index as usize)
    }

    fn put_tag(&self, list: List, index: u32, out: &mut OutBuf) {
        self.entries(list).put_tag(index as usize, out);
    }
}
