//! What is said.

ghost use Rattle.std.specs.Prelude.{◌≡◌};
ghost use Rattle.run_texts.specs.Texts.{line_of};
ghost use Rattle.mf_run.specs.Run.{Says};
ghost use Rattle.mf_run.specs.Statuses as spec;

use map_model::report::Report;
use mf_compile::fault::Fault;
use mf_edge::{Sink, put_all};
use run_texts::line::Line;
use run_texts::lines::{finished_line, input_line, limit_line, plain_line};

/// The line that is said of what a compilation answered.
pub fn line_for(answer: &Result<Report, Fault>) -> Line
    ensures { result ≡ spec.line_for answer.now }
{
    match answer {
        Ok(report) => finished_line(report),
        Err(fault) => fault_line(*fault),
    }
}

// The line that is said of a fault.
fn fault_line(fault: Fault) -> Line
    ensures { result ≡ line_of (spec.fault_text fault) }
{
    match fault {
        Fault::Input(why) => input_line(&why),
        Fault::Limit(why) => limit_line(&why),
        Fault::NoBox => plain_line("no box"),
        Fault::Read => plain_line("read"),
        Fault::Write => plain_line("write"),
        Fault::Spill => plain_line("spill"),
    }
}

/// Says a line. A failure changes nothing else.
pub(crate) fn say_line<E: Sink>(say: &mut E, line: &Line)
    ensures { Says (E.state say.old) line.now (E.state say.new) }
{
    let _ = put_all(say, line.bytes());
}
