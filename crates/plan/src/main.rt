// The program `plan`: one sheet from standard input, its plan or one refusal line to standard output (SPEC 9).
// `run` promises all that it does, from the calls of `read` to those of `write`; what the system hands in and takes is assumed.
#![tactic(auto)]

ghost use Rattle.plan.specs.Program.{Ran};

use std::env::{Env, FillError};
use std::error::Error;
use std::fmt;
use std::fmt::{Display, Formatter};
use std::rt::HostRuntime;
use stdio::{Errno, reading, writing};

// Why the program did not print what belongs to a sheet.
#[derive(Clone, Copy, Debug)]
enum RunError {
    Arguments,
    ReadFailed(Errno),
    WriteFailed(Errno),
}

impl Error for RunError {}

// The line on standard error.
impl Display for RunError {
    fn fmt<W: fmt::Write>(&self, f: &mut Formatter<W>) -> fmt::Result {
        match self {
            RunError::Arguments => write!(
                f,
                "usage: plan < SHEET > PLAN (reads a sheet from standard input, and takes no arguments)"
            ),
            RunError::ReadFailed(error) => write!(f, "plan: standard input: {error}"),
            RunError::WriteFailed(error) => write!(f, "plan: standard output: {error}"),
        }
    }
}

// Reads a sheet, and writes what belongs to it. One byte more than a sheet may have is read, so that a longer one is seen to be longer. `words` is how many
// words the program was started with, its own name among them: it takes no arguments, and reads nothing where it is given one.
fn run(rt: &HostRuntime, words: usize) -> Result<(), RunError>
    ensures { Ran words result }
{
    if words > 1 {
        return Err(RunError::Arguments);
    }
    let mut input = [0u8; model::SHEET_MAX + 1];
    let sheet = reading::read_input(rt, &mut input).map_err(RunError::ReadFailed)?;
    let mut out = [0u8; model::PLAN_MAX];
    let printed = report::answer(sheet, &mut out);
    writing::write_text(rt, printed).map_err(RunError::WriteFailed)
}

// How many words the program was started with: the first that is not there ends them.
fn word_count(rt: &HostRuntime) -> usize {
    let mut word = [0u8; 1];
    for i in 0..usize::MAX {
        if let Err(FillError::NotPresent) = rt.arg(i, &mut word) {
            return i;
        }
    }
    usize::MAX
}

fn main(rt: HostRuntime) {
    if let Err(error) = run(&rt, word_count(&rt)) {
        let _told = eprintln!(rt; "{error}");
    }
}
