// The refusal line as bytes: it takes a refusal's number and line, and measures or writes the model's `refusal_text`.
ghost use Rattle.std.specs.Prelude.{◌≡◌, ◌≤◌, length};
ghost use Rattle.model.specs.PlanText.{refusal_text};
ghost use Rattle.text.specs.Writing.{Written};

use text::line::{line_length, write_line};

// How many bytes a refusal's line takes.
#[tactic(auto, using(model::proofs::Lengths::line_length, std::proofs::lemmas::Grind::common_steps), unfolding(model::specs::PlanText::refusal_text))]
pub fn refusal_length(number: u32, line: u32) -> usize
    ensures { result ≡ length (refusal_text number line) }
{
    let numbers = [number, line];
    line_length(&numbers)
}

// Writes `R,number,line`.
#[tactic(auto, unfolding(model::specs::PlanText::refusal_text, text::specs::LineText::line_text))]
pub fn write_refusal(number: u32, line: u32, out: &mut [u8]) -> usize
    requires { length (refusal_text number line) ≤ length out.old }
    ensures { Written (refusal_text number line) out.old out.new result }
{
    let numbers = [number, line];
    write_line(b"R,", &numbers, out)
}
