// The calls of the system that the program reads and writes by, each with its mark (specs/System.antt).
// That these lines make the calls that the marks speak of, no proof says, and a reader sees; all else is held to the marks.
ghost use Rattle.std.specs.Prelude.{◌<◌, ◌^◌, pos, IfSome};
ghost use Rattle.stdio.specs.System.{ErrnoWas};
ghost use Rattle.stdio.specs.Answers.{ReadAnswered, WriteAnswered};

use std::fmt;
use std::fmt::{Display, Formatter, InlineText};
use std::io::{Error, Read, Write};
use std::os::fd::AsRawFd;

// Why a call failed: the system's number. Those are above 0 and have 31 bits.
#[derive(Clone, Copy, Debug, PartialEq, Eq, Hash)]
pub struct Errno(pub u32);

impl Errno {
    // Where the system gives no number.
    // Kept: 0 and no Option, which `Display` alone would turn back into 0.
    pub const UNKNOWN: Errno = Errno(0);

    // A signal interrupted the call.
    pub const EINTR: Errno = Errno(4);
}

impl From<Error> for Errno {
    ghost from_gives = { λ _ e. e.0 < 2 ^ 31 };

    // An error without a number, or with a negative one, which no call gives, is told as 0.
    fn from(error: Error) -> Errno {
        let code = error.raw_os_error().unwrap_or(0);
        Errno(u32::try_from(code).unwrap_or(0))
    }
}

impl std::error::Error for Errno {}

// In the system's words alone, of which the library takes 256 bytes at most: it puts the number behind them, as ` (os error 28)`.
impl Display for Errno {
    fn fmt<W: fmt::Write>(&self, f: &mut Formatter<W>) -> fmt::Result {
        let why = InlineText::<300>::of(Error::from_raw_os_error(self.0.cast_signed()));
        match why.as_str().rsplit_once(" (") {
            Some((words, _)) => f.pad(words),
            None => f.pad(why.as_str()),
        }
    }
}

// Why the call failed that gave this error. Only the calls below ask, so that whoever has the mark has it from a call.
fn cause(error: Error) -> Errno
    ensures { ErrnoWas (pos result.0) }
{
    error.into()
}

// What a read of this stream answers: how many bytes it brought, 0 at the end.
// Kept: beside `write`, since each makes a call and its mark.
pub fn read<S: Read + AsRawFd>(from: &mut S, part: &mut [u8]) -> Result<usize, Errno>
    ensures { IfSome (S.raw_fd from.old) (λ fd. ReadAnswered fd part.new result) }
{
    match from.read(part) {
        Ok(count) => Ok(count),
        Err(error) => Err(cause(error)),
    }
}

// What a write to this stream answers: how many bytes it took.
// Kept: beside `read`, as said there.
pub fn write<S: Write + AsRawFd>(to: &mut S, part: &[u8]) -> Result<usize, Errno>
    ensures { IfSome (S.raw_fd to.old) (λ fd. WriteAnswered fd part.now result) }
{
    match to.write(part) {
        Ok(count) => Ok(count),
        Err(error) => Err(cause(error)),
    }
}
