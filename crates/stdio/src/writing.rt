// A text to standard output, write by write.
ghost use Rattle.stdio.specs.Output.{HasWritten};

use crate::system;
use crate::system::Errno;
use std::rt::HostRuntime;

// Writes all of the text, or stops at the first write that fails or takes nothing, of which the system says no number.
#[tactic(auto, using(crate::proofs::Fronts::taken, crate::specs::System::write_moved))]
pub fn write_text(rt: &HostRuntime, text: &[u8]) -> Result<(), Errno>
    ensures { HasWritten text.now result }
{
    let mut rest = text;
    while !rest.is_empty() {
        let count = system::write(&mut rt.stdout(), rest)?;
        if count == 0 {
            return Err(Errno::UNKNOWN);
        }
        rest = &rest[count..];
    }
    Ok(())
}
