// Standard input, read by read, to the front of a buffer.
ghost use Rattle.std.specs.Prelude.{◌<◌, length};
ghost use Rattle.stdio.specs.Input.{Extends, InFront, HasInput};

use crate::system;
use crate::system::Errno;
use std::rt::HostRuntime;

// The most bytes that are read: one more than a sheet may have, so that a longer one is seen to be longer.
pub const INPUT_MAX: usize = 65001;

// Reads what is there, at most to the end of the buffer, to the buffer from `at` on: how many bytes, 0 at the end.
fn read_some(rt: &HostRuntime, buffer: &mut [u8], at: usize) -> Result<usize, Errno>
    requires { at < length buffer.old }
    ensures { Extends at buffer.old buffer.new result }
{
    system::read(&mut rt.stdin(), &mut buffer[at..])
}

// Reads standard input, however slowly it comes, to the end or until the buffer is full: how many bytes are at the front of the buffer then, or why reading
// failed. A read that a signal interrupted has read nothing, and is tried again. A proved loop has to end, and nothing says that the reads that are
// interrupted do: so they are counted, to a number that no run reaches.
#[tactic(auto, using(crate::specs::Input::nothing_read, crate::proofs::Fronts::within, crate::proofs::Fronts::longer, crate::proofs::Fronts::as_long))]
pub fn read_front(rt: &HostRuntime, buffer: &mut [u8; INPUT_MAX]) -> Result<usize, Errno>
    ensures { InFront buffer.new result }
{
    let mut at = 0;
    for _ in 0..u64::MAX {
        match read_some(rt, buffer, at) {
            Ok(0) => return Ok(at),
            Ok(count) => {
                at += count;
                if at == INPUT_MAX {
                    return Ok(at);
                }
            }
            Err(Errno::EINTR) => {}
            Err(error) => return Err(error),
        }
    }
    Err(Errno::EINTR)
}

// The same; gives the part of the buffer that has what was read.
pub fn read_input<'a>(rt: &HostRuntime, buffer: &'a mut [u8; INPUT_MAX]) -> Result<&'a [u8], Errno>
    ensures { HasInput result }
{
    let count = read_front(rt, &mut *buffer)?;
    Ok(&buffer[..count])
}
