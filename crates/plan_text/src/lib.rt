// The printed plan and the refusal line as bytes (SPEC 6).
// It takes a plan in tables, of a sheet or not, or a refusal's numbers, and measures the text or writes it to the front of an output that is long enough;
// bytes beyond it keep their content. The promises are equations with the model's `printed_text` of what the tables hold (`tabled_text`) and
// `refusal_text`; a law takes the tables of a sheet's plan to its `plan_text` (proofs/Plans.antt).
#![tactic(auto)]

pub mod copy_lines;
pub mod refusal;

ghost use Rattle.std.specs.Prelude.{◌≡◌, ◌∷◌, ◌≤◌, length};
ghost use Rattle.text.specs.Writing.{Written};
ghost use Rattle.plan_text.specs.Rows.{head_text};
ghost use Rattle.plan_text.specs.TabledPlan.{printed, IsPrintable};

use text::line::{line_length, write_line};

// A plan in tables: of how many kinds, the durations (SPEC 2.1.1), the finish, the boards used of each of four kinds, and for each copy a row of its
// stage, kind, board and start.
#[derive(Clone, Copy)]
pub struct TabledPlan<'a> {
    pub kinds: usize,
    pub durations: &'a [u32],
    pub finish: u32,
    pub counts: [u32; 4],
    pub rows: &'a [u32],
}

// The numbers of the first line, with the counts of four kinds.
fn head_numbers(finish: u32, counts: [u32; 4]) -> [u32; 5]
    ensures { result ≡ finish ∷ counts }
{
    let [kind_0, kind_1, kind_2, kind_3] = counts;
    [finish, kind_0, kind_1, kind_2, kind_3]
}

// Writes `P,finish,b..`, with a count for each of the K kinds (SPEC 6.1).
fn write_head(kinds: usize, finish: u32, counts: [u32; 4], out: &mut [u8]) -> usize
    requires kinds_bound { kinds ≤ 4 }
    requires counts_in_bounds { length (head_text kinds finish counts) ≤ length out.old }
    ensures { Written (head_text kinds finish counts) out.old out.new result }
{
    let numbers = head_numbers(finish, counts);
    write_line(b"P,", &numbers[..kinds + 1], out)
}

// How many bytes the first line takes.
#[tactic(auto, using(text::proofs::Lines::text_length))]
fn head_length(kinds: usize, finish: u32, counts: [u32; 4]) -> usize
    requires { kinds ≤ 4 }
    ensures { result ≡ length (head_text kinds finish counts) }
{
    let numbers = head_numbers(finish, counts);
    line_length(&numbers[..kinds + 1])
}

impl TabledPlan<'_> {
    // How many bytes the printed plan takes.
    #[tactic(auto, using(crate::proofs::Plans::lengths_of))]
    pub fn length(self) -> usize
        requires { IsPrintable self }
        ensures { result ≡ length (printed self.entry) }
    {
        let head = head_length(self.kinds, self.finish, self.counts);
        head + copy_lines::copies_length(self.durations, self.rows)
    }

    // Writes the printed plan.
    #[tactic(auto, using(crate::proofs::Plans::lengths_of))]
    pub fn print(self, out: &mut [u8]) -> usize
        requires printable { IsPrintable self }
        requires copies_in_bounds { length (printed self) ≤ length out.old }
        ensures { Written (printed self.entry) out.old out.new result }
    {
        let at = write_head(self.kinds, self.finish, self.counts, out);
        at + copy_lines::write_copies(self.durations, self.rows, &mut out[at..])
    }
}
