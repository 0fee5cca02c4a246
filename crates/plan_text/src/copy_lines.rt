// The lines of a plan's copies as bytes (SPEC 6.1, 12.6).
// It takes the durations and the rows of copies and measures their lines, or writes them to the front of an output that is long enough; bytes beyond
// them keep their content. The promises are equations with the model's `print` of the rows' lines (`rows_text`).
ghost use Rattle.std.specs.Prelude.{◌≡◌, ℕ, ◌/◌, ◌≤◌, ◌<◌, length};
ghost use Rattle.model.specs.Lines.{print_line};
ghost use Rattle.text.specs.Writing.{Written};
ghost use Rattle.plan_text.specs.Rows.{row_line, RowIn, rows_text};

use text::line::{line_length, write_line};

// The numbers of a copy's line (SPEC 6.1), with its end (SPEC 7.3).
// Kept: the durations beside a row, here and below, since a struct of both would be made anew for each row.
#[tactic(auto, unfolding(crate::specs::Rows::row_line, crate::specs::Rows::row_copy, model::specs::PlanText::copy_line))]
fn copy_numbers(durations: &[u32], row: &[u32; 4]) -> [u32; 5]
    requires { RowIn durations.now row.now 0 }
    ensures { result ≡ (row_line durations.now row.now 0).numbers }
{
    let [stage, kind, board, start] = *row;
    let end = start + durations[4 * stage as usize + kind as usize];
    [stage, kind, board, start, end]
}

// Writes `C,stage,kind,board,start,end`.
#[tactic(auto, unfolding(text::specs::LineText::line_text, crate::specs::Rows::row_line, model::specs::PlanText::copy_line))]
fn write_copy(durations: &[u32], row: &[u32; 4], out: &mut [u8]) -> usize
    requires row_in { RowIn durations.now row.now 0 }
    requires copy_in_bounds { length (print_line (row_line durations.now row.now 0)) ≤ length out.old }
    ensures { Written (print_line (row_line durations.now row.now 0)) out.old out.new result }
{
    let numbers = copy_numbers(durations, row);
    write_line(b"C,", &numbers, out)
}

// How many bytes that line takes.
#[tactic(auto, using(model::proofs::Lengths::line_length), unfolding(crate::specs::Rows::row_line, model::specs::PlanText::copy_line))]
fn copy_length(durations: &[u32], row: &[u32; 4]) -> usize
    requires { RowIn durations.now row.now 0 }
    ensures { result ≡ length (print_line (row_line durations.now row.now 0)) }
{
    let numbers = copy_numbers(durations, row);
    line_length(&numbers)
}

// Writes the line of each copy, after the one before it.
pub fn write_copies(durations: &[u32], rows: &[u32], out: &mut [u8]) -> usize
    requires by_index { (c : ℕ) → c < length rows.now / 4 → RowIn durations.now rows.now c }
    requires copies_in_bounds { length (rows_text durations.now rows.now (length rows.now / 4)) ≤ length out.old }
    ensures { Written (rows_text durations.now rows.now (length rows.now / 4)) out.old out.new result }
{
    let mut at = 0;
    for row in rows.as_chunks::<4>().0 {
        at += write_copy(durations, row, &mut out[at..]);
    }
    at
}

// How many bytes the lines of all copies take.
pub fn copies_length(durations: &[u32], rows: &[u32]) -> usize
    requires by_index { (c : ℕ) → c < length rows.now / 4 → RowIn durations.now rows.now c }
    requires copies_len_bound { length (rows_text durations.now rows.now (length rows.now / 4)) < 65536 }
    ensures { result ≡ length (rows_text durations.now rows.now (length rows.now / 4)) }
{
    let mut sum = 0;
    for row in rows.as_chunks::<4>().0 {
        sum += copy_length(durations, row);
    }
    sum
}
