//! The whole lines of the program.

ghost use Rattle.std.specs.Prelude.{◌≡◌, ◌+◌, ◌≤◌, ◌++◌, codes, length};
ghost use Rattle.map_model.specs.MapFile.{report_line};
ghost use Rattle.run_texts.specs.Refusals.{refusal_text};
ghost use Rattle.run_texts.specs.Texts.{input_text, limit_text, line_of};

use crate::input::put_input;
use crate::limit::put_limit;
use crate::line::Line;
use crate::refusal::put_refusal;
use crate::report::put_report;
use feature_model::fault::LimitFault;
use job_words::refusal::Refusal;
use map_model::report::Report;
use osm_model::faults::InputFault;

/// The line about the fault of an input.
pub fn input_line(fault: &InputFault) -> Line
    ensures { result ≡ line_of (input_text fault.now) }
{
    let mut line = begun();
    put_input(&mut line, fault);
    line.put(b"\n");
    line
}

/// The line about what passes its limit.
pub fn limit_line(fault: &LimitFault) -> Line
    ensures { result ≡ line_of (limit_text fault.now) }
{
    let mut line = begun();
    put_limit(&mut line, fault);
    line.put(b"\n");
    line
}

/// The line about a refusal of the words or of their mapping.
pub fn refusal_line(refusal: Refusal) -> Line
    ensures { result ≡ line_of (refusal_text refusal) }
{
    let mut line = begun();
    put_refusal(&mut line, refusal);
    line.put(b"\n");
    line
}

/// The line about a fault that is told by a text alone, as `read`.
pub fn plain_line(text: &str) -> Line
    requires short { length text.now ≤ 310 }
    ensures { result ≡ line_of text.now }
{
    let mut line = begun();
    line.put(text.as_bytes());
    line.put(b"\n");
    line
}

/// The line of a finished run.
pub fn finished_line(report: &Report) -> Line
    ensures { result ≡ report_line report.now }
{
    let mut line = Line::new();
    put_report(&mut line, report);
    line
}

// The front of a line about a fault: the program's name.
fn begun() -> Line
    ensures { result ≡ codes "mfwrite: " }
{
    let mut line = Line::new();
    line.put(b"mfwrite: ");
    line
}
