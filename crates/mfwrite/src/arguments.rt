//! The words that the program is called with.

ghost use Rattle.std.specs.Prelude.{◌≡◌, drop};

use job_words::refusal::Refusal;
use job_words::usage_word::UsageWord;
use std::io::ErrorKind;
use std::rt::HostRuntime;
use std::{env, io};

/// The words of the command line, with the program's name. A word that is no UTF-8 breaks the rules of words.
pub(crate) fn all_words(rt: &HostRuntime) -> Result<Vec<String>, Refusal> {
    let all = env::args(rt).map_err(refusal_of)?;
    all.collect(rt.alloc()).map_err(|_| Refusal::Memory)
}

// Why the words can't be had.
fn refusal_of(fault: io::Error) -> Refusal {
    match fault.kind() {
        ErrorKind::OutOfMemory => Refusal::Memory,
        _ => Refusal::Usage(UsageWord::Words),
    }
}

/// The words behind the first one, which is the program's name.
pub(crate) fn behind_the_name(all: &[String]) -> &[String]
    ensures { result.now ≡ drop 1 all.now }
{
    if all.is_empty() { all } else { &all[1..] }
}
