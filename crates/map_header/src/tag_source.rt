//! Where the tags of a header come from.

ghost use Rattle.std.specs.Prelude.{◌≡◌, ◌+◌, ◌≤◌, ◌<◌, length};
ghost use Rattle.mf_base.specs.Buffer.{HasRoom, AppendsTo};
ghost use Rattle.mf_base.specs.Spelling.{string};
ghost use Rattle.map_model.specs.TagLists.{TagLists, tag_at};
ghost use Rattle.map_header.specs.Shown.{tags_in};

use mf_base::kind::List;
use mf_base::out_buf::OutBuf;

/// The tags of a header, a list for POIs and a list for ways.
pub trait TagSource {
    ghost names: { Self → TagLists };

    /// How many tags a list has.
    fn tag_count(&self, list: List) -> u32
        ensures count { result ≡ length (tags_in list (names self.now)) }
        ensures few { result ≤ 4096 };

    /// How many bytes the string of a tag has.
    fn tag_size(&self, list: List, index: u32) -> u32
        requires { index < length (tags_in list (names self.now)) }
        ensures size { result ≡ length (string (tag_at (tags_in list (names self.now)) index)) }
        ensures most { result ≤ 513 };

    /// Puts the string of a tag: `key=value` behind its length.
    fn put_tag(&self, list: List, index: u32, out: &mut OutBuf)
        requires index { index < length (tags_in list (names self.now)) }
        requires room { HasRoom out.old (length (string (tag_at (tags_in list (names self.now)) index)) + 10) }
        ensures { AppendsTo out.old out.new (string (tag_at (tags_in list (names self.now)) index)) };
}
