// The call `plan` on plain tables: short tables, then reading, then the plan, with rows of numbers instead of the list of records.
// It takes the sheet, the lent tables and output, and room for the rows; it gives the answer and how many rows there are. The promise is the model's
// `plan_call`, for whatever list the rows go to.
#![tactic(auto)]

pub mod circular;
pub mod print;

ghost use Rattle.std.specs.Prelude.{◌≡◌, ◌≤◌, length};
ghost use Rattle.model.specs.Calls.{tables_of};
ghost use Rattle.plan_call.specs.Answers.{refusing};
ghost use Rattle.plan_call.specs.Says.{TablesSays};

use model::Fault;

// SPEC 8.2: what `plan` returns: the finish, how many boards of each of four kinds, how many copies and how many bytes of text.
#[derive(Clone, Copy, Debug, PartialEq, Eq, Hash)]
pub struct Totals {
    pub finish: u32,
    pub boards: [u32; model::KINDS_MAX],
    pub copies: u32,
    pub printed: usize,
}

// These or why it refuses, and how many rows go to the caller's list.
// Kept: the count beside the answer, and not in its Ok, since the list is filled where the output is too short, too (SPEC 8.3.8).
#[derive(Clone, Copy, Debug, PartialEq, Eq, Hash)]
pub struct Outcome {
    pub answer: Result<Totals, Fault>,
    pub count: usize,
}

// A refusal before there is a plan: no rows go to the list.
pub(crate) fn refused(fault: Fault) -> Outcome
    ensures { result ≡ refusing fault }
{
    Outcome {
        answer: Err(fault),
        count: 0,
    }
}

// The call on plain tables: rows for a list of so many records instead of the list.
// Kept: three tables, each a lent slice (SPEC 12.1): a struct of three `&mut` slices would have to promise of each call that it keeps all three references.
pub fn plan_tables(
    sheet: &[u8],
    durations: &mut [u32],
    ends: &mut [u32],
    waits: &mut [u32],
    starts: &mut [u32],
    records: usize,
    rows: &mut [u32],
    out: &mut [u8],
) -> Outcome
    requires { 4096 ≤ length rows.old }
    ensures { TablesSays sheet.now (tables_of durations.old ends.old waits.old) starts.old records
        out.old
        (tables_of durations.new ends.new waits.new) starts.new rows.new out.new result }
{
    if starts.len() < model::STARTS_LEN || records < model::COPIES_LEN {
        return refused(Fault::ShortTable);
    }
    let read = sheet::read_sheet(sheet, &mut *durations, &mut *ends, &mut *waits);
    match read.answer {
        Ok(sizes) => circular::plan_sheet(
            sizes,
            durations,
            ends,
            waits,
            read.clearing,
            starts,
            rows,
            out,
        ),
        Err(fault) => refused(fault),
    }
}
