//! The line of a finished run.

ghost use Rattle.std.specs.Prelude.{◌≡◌, ◌+◌, ◌≤◌, ◌++◌, length};
ghost use Rattle.map_model.specs.MapFile.{report_line};

use crate::line::Line;
use crate::worded::put_worded;
use map_model::report::Report;

/// Puts the line, with its line feed. It has at most 253 bytes, as no number has more than 20 digits.
pub fn put_report(line: &mut Line, report: &Report)
    requires room { length line.old + 253 ≤ 320 }
    ensures appends { line.new ≡ line.old ++ report_line report.now }
    ensures most { length line.new ≤ length line.old + 253 }
{
    put_worded(line, "nodes", report.nodes);
    put_worded(line, " ways", report.ways);
    put_worded(line, " relations", report.relations);
    put_worded(line, " features", report.features);
    put_worded(line, " skipped", report.skipped);
    put_worded(line, " tiles", report.tiles);
    put_worded(line, " water", report.water);
    put_worded(line, " bytes", report.bytes);
    put_worded(line, " largest", report.largest);
    line.put(b"\n");
}
