//! What is said of what passes its limit.

ghost use Rattle.std.specs.Prelude.{◌≡◌, ◌+◌, ◌≤◌, ◌++◌, length};
ghost use Rattle.run_texts.specs.Texts as spec;

use crate::line::Line;
use crate::worded::put_worded;
use feature_model::fault::LimitFault;
use mf_base::kind::EntityKind;

/// Puts the text of what passes its limit, without the program's name and the line feed: `limit KIND ID weight N`,
/// `limit tile I x X y Y weight N` or `limit interval I size N`. It has at most 68 bytes: a place of an interval has at
/// most 3 digits, a column or row 10, and an id, a weight or a size 20.
#[tactic(auto, unfolding(crate::specs::Texts::limit_text))]
pub fn put_limit(line: &mut Line, fault: &LimitFault)
    requires room { length line.old + 68 ≤ 320 }
    ensures appends { line.new ≡ line.old ++ spec.limit_text fault.now }
    ensures most { length line.new ≤ length line.old + 68 }
{
    match *fault {
        LimitFault::Feature { kind, id, weight } => {
            line.put(b"limit ");
            put_worded(line, kind_name(kind), id);
            put_worded(line, " weight", weight);
        }
        LimitFault::Tile {
            index,
            x,
            y,
            weight,
        } => {
            put_worded(line, "limit tile", index);
            put_worded(line, " x", x);
            put_worded(line, " y", y);
            put_worded(line, " weight", weight);
        }
        LimitFault::SubFile { index, size } => {
            put_worded(line, "limit interval", index);
            put_worded(line, " size", size);
        }
    }
}

// The name of a kind.
fn kind_name(kind: EntityKind) -> &'static str
    ensures name { result.now ≡ spec.kind_name kind }
    ensures short { length result.now ≤ 8 }
{
    match kind {
        EntityKind::Node => "node",
        EntityKind::Way => "way",
        EntityKind::Relation => "relation",
    }
}
