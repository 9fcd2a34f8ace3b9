//! What is said of the fault of an input.

ghost use Rattle.std.specs.Prelude.{◌≡◌, ◌+◌, ◌≤◌, ◌++◌, codes, length};
ghost use Rattle.map_model.specs.MapFile.{worded};
ghost use Rattle.run_texts.specs.Texts as spec;

use crate::line::Line;
use crate::worded::put_worded;
use osm_model::faults::{BlockFault, EntityFault, FrameFault, InputCode, InputFault};

/// Puts the text of the fault of an input, without the program's name and the line feed: `input CODE at OFFSET`, and
/// the numbers that are told with the code. It has at most 92 bytes, as no number has more than 20.
#[tactic(auto, unfolding(crate::specs::Texts::input_text))]
pub fn put_input(line: &mut Line, fault: &InputFault)
    requires room { length line.old + 92 ≤ 320 }
    ensures appends { line.new ≡ line.old ++ spec.input_text fault.now }
    ensures most { length line.new ≤ length line.old + 92 }
{
    line.put(b"input ");
    put_words(line, fault.at, fault.code);
}

// Puts a code, the offset of its blob, and the numbers that are told with it.
fn put_words(line: &mut Line, at: u64, code: InputCode)
    requires room { length line.old + 86 ≤ 320 }
    ensures appends { line.new ≡ line.old ++ spec.words_at at (spec.code_words code) }
    ensures most { length line.new ≤ length line.old + 86 }
{
    match code {
        InputCode::Frame(fault) => put_frame(line, at, fault),
        InputCode::Block(fault) => put_block(line, at, fault),
        InputCode::Entity(fault) => put_entity(line, at, fault),
    }
}

// The same of a blob.
fn put_frame(line: &mut Line, at: u64, fault: FrameFault)
    requires room { length line.old + 85 ≤ 320 }
    ensures appends { line.new ≡ line.old ++ spec.words_at at (spec.frame_words fault) }
    ensures most { length line.new ≤ length line.old + 85 }
{
    match fault {
        FrameFault::TooLong => put_code(line, "too-long", at),
        FrameFault::Truncated { have } => {
            put_code(line, "truncated", at);
            put_worded(line, " have", have);
        }
        FrameFault::HeaderLength => put_code(line, "header-length", at),
        FrameFault::HeaderWire(_) => put_code(line, "header-wire", at),
        FrameFault::NoKind => put_code(line, "no-type", at),
        FrameFault::NoSize => put_code(line, "no-size", at),
        FrameFault::BlobSize => put_code(line, "blob-size", at),
        FrameFault::BlobWire(_) => put_code(line, "blob-wire", at),
        FrameFault::Compressed { field } => {
            put_code(line, "compressed", at);
            put_worded(line, " field", field);
        }
        FrameFault::NoBytes => put_code(line, "no-data", at),
        FrameFault::RawSize { told, found } => {
            put_code(line, "raw-size", at);
            put_worded(line, " told", told);
            put_worded(line, " found", found);
        }
    }
}

// The same of a block, before its groups.
fn put_block(line: &mut Line, at: u64, fault: BlockFault)
    requires room { length line.old + 59 ≤ 320 }
    ensures appends { line.new ≡ line.old ++ spec.words_at at (spec.block_words fault) }
    ensures most { length line.new ≤ length line.old + 59 }
{
    match fault {
        BlockFault::Wire(_) => put_code(line, "wire", at),
        BlockFault::BadBox => put_code(line, "bad-box", at),
        BlockFault::RequiredFeature => put_code(line, "required-feature", at),
        BlockFault::NoStrings => put_code(line, "no-strings", at),
        BlockFault::TooManyStrings => put_code(line, "too-many-strings", at),
        BlockFault::NotText { index } => {
            put_code(line, "not-text", at);
            put_worded(line, " index", index);
        }
    }
}

// The same of an entity.
fn put_entity(line: &mut Line, at: u64, fault: EntityFault)
    requires room { length line.old + 86 ≤ 320 }
    ensures appends { line.new ≡ line.old ++ spec.words_at at (spec.entity_words fault) }
    ensures most { length line.new ≤ length line.old + 86 }
{
    match fault {
        EntityFault::Wire(_) => put_code(line, "wire", at),
        EntityFault::MixedGroup => put_code(line, "mixed-group", at),
        EntityFault::Columns => put_code(line, "columns", at),
        EntityFault::Missing => put_code(line, "missing", at),
        EntityFault::Range => put_code(line, "range", at),
        EntityFault::KindOrder => put_code(line, "kind-order", at),
        EntityFault::OutOfOrder { last, id } => {
            put_code(line, "out-of-order", at);
            put_worded(line, " last", last);
            put_worded(line, " id", id);
        }
        EntityFault::Coordinate => put_code(line, "coordinate", at),
        EntityFault::KeyWithoutValue => put_code(line, "key-without-value", at),
        EntityFault::StringIndex => put_code(line, "string-index", at),
        EntityFault::MemberKind => put_code(line, "member-kind", at),
    }
}

// Puts `CODE at OFFSET`.
fn put_code(line: &mut Line, code: &str, at: u64)
    requires room { length line.old + length code.now + 24 ≤ 320 }
    ensures appends { line.new ≡ line.old ++ (code.now ++ worded (codes " at") at) }
    ensures most { length line.new ≤ length line.old + length code.now + 24 }
{
    line.put(code.as_bytes());
    put_worded(line, " at", at);
}
