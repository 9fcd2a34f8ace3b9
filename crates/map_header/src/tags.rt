//! The tags of a header, put and counted.

ghost use Rattle.std.specs.Prelude.{◌≡◌, ◌+◌, ◌*◌, ◌≤◌, length};
ghost use Rattle.mf_base.specs.Buffer.{HasRoom, AppendsTo};
ghost use Rattle.map_model.specs.Header.{tag_list_bytes};
ghost use Rattle.map_header.specs.Shown.{tags_in};

use crate::tag_source::TagSource;
use mf_base::fixed::put_be;
use mf_base::kind::List;
use mf_base::out_buf::OutBuf;

/// Puts a list of tags: the count in two bytes, then a string for each.
pub fn put_tags<T: TagSource>(out: &mut OutBuf, tags: &T, list: List)
    requires room { HasRoom out.old (length (tag_list_bytes (tags_in list (T.names tags.now))) + 10) }
    ensures appends { AppendsTo out.old out.new (tag_list_bytes (tags_in list (T.names tags.now))) }
    ensures most { length out.new.bytes
        ≤ length out.old.bytes + length (tag_list_bytes (tags_in list (T.names tags.now))) }
{
    let count = tags.tag_count(list);
    put_be(out, u64::from(count), 2);
    for index in 0..count {
        tags.put_tag(list, index, out);
    }
}

/// How many bytes a list of tags takes.
pub fn tags_size<T: TagSource>(tags: &T, list: List) -> u64
    ensures size { result ≡ length (tag_list_bytes (tags_in list (T.names tags.now))) }
    ensures most { result ≤ 2 + 513 * 4096 }
{
    let count = tags.tag_count(list);
    let mut size = 2;
    for index in 0..count {
        size += u64::from(tags.tag_size(list, index));
    }
    size
}
