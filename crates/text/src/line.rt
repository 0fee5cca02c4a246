// A line of numbers as bytes (SPEC 6.2, 12.5, 12.6).
// It takes a tag and numbers and measures their line, or writes it to the front of an output that is long enough; bytes beyond it keep their content.
// The promises are equations with the model's `print_line` (`line_text`) and the length of its `fields`.
ghost use Rattle.std.specs.Prelude.{◌≡◌, [], ◌∷◌, ◌++◌, ◌+◌, ◌≤◌, ◌<◌, length, get_or};
ghost use Rattle.model.specs.Lines.{decimal, fields};
ghost use Rattle.text.specs.Writing.{Written};
ghost use Rattle.text.specs.LineText.{line_text};

use crate::decimals::{width, write_number};

// Writes a comma and a number.
fn write_field(n: u32, out: &mut [u8]) -> usize
    requires { length (decimal n) < length out.old }
    ensures { Written (44 ∷ decimal n) out.old out.new result }
{
    out[0] = b',';
    1 + write_number(n, &mut out[1..])
}

// Writes each number after a comma.
#[tactic(auto, using(crate::proofs::Lines::field_room))]
fn write_fields(numbers: &[u32], out: &mut [u8]) -> usize
    requires { length (fields numbers.now) ≤ length out.old }
    ensures { Written (fields numbers.now) out.old out.new result }
{
    let mut at = 0;
    for &n in numbers {
        at += write_field(n, &mut out[at..]);
    }
    at
}

// Writes a tag, which has the first comma, and the first number.
fn write_first(tag: &[u8; 2], n: u32, out: &mut [u8]) -> usize
    requires { 2 + length (decimal n) ≤ length out.old }
    ensures { Written (tag.now ++ decimal n) out.old out.new result }
{
    out[..2].copy_from_slice(tag);
    2 + write_number(n, &mut out[2..])
}

// Writes a line: its tag, its numbers and byte 10.
#[tactic(auto, using(crate::proofs::Lines::pieces_length))]
pub fn write_line(tag: &[u8; 2], numbers: &[u32], out: &mut [u8]) -> usize
    requires tag_value { tag.now ≡ get_or tag.now 0 0 ∷ 44 ∷ [] }
    requires some_number { 1 ≤ length numbers.now }
    requires numbers_in_bounds { length (line_text tag.now numbers.now) ≤ length out.old }
    ensures { Written (line_text tag.now numbers.now) out.old out.new result }
{
    let first = write_first(tag, numbers[0], out);
    let at = first + write_fields(&numbers[1..], &mut out[first..]);
    out[at] = b'\n';
    at + 1
}

// How many bytes a line takes: its letter, its numbers, each with a comma, and byte 10.
#[tactic(auto, using(crate::proofs::Lines::fields_more_length))]
pub fn line_length(numbers: &[u32]) -> usize
    requires { length numbers.now ≤ 5 }
    ensures { result ≡ length (fields numbers.now) + 2 }
{
    let mut sum = 2;
    for &n in numbers {
        sum += 1 + width(n);
    }
    sum
}
