// From a sheet's bytes to its tables (SPEC 1, 2.1, 8.1, 12.1).
// The room takes the sheet and three lent tables, of any length, and gives K, N and M, or a fault of 1 to 6; it promises the model's `read_call`, the
// answer and every entry of every table, and beside it the clearing times, which no table has. `load` reads the stages and edges into tables, `repeats`
// looks for a repeated edge in them, and `commit` takes both together, with the lent tables; `read_sheet`, here, goes before them: tables too short, sheet
// too long, first line, clearing times. The call `read` is its answer without these.
#![tactic(auto)]

pub mod commit;
mod load;
pub mod repeats;

ghost use Rattle.std.specs.Prelude.{◌≡◌, true, ◌&&◌, ◌≤◌, length, leb};
ghost use Rattle.model.specs.Calls.{tables_of, long_enough};
ghost use Rattle.judge.specs.Judging.{FirstLine};
ghost use Rattle.sheet.specs.Answers.{ReadDone, refusing, SheetDone};

use judge::HeaderValues;
use model::{ClearingTimes, Fault, Sizes};

// What the call `read` answers, K, N, M or why it refuses, and the clearing times of a sheet that was read.
// Kept: the clearing times beside the answer, and not in its Ok, since they are promised where a repeated edge is refused too; of 1 to 5 nothing is said.
#[derive(Clone, Copy, Debug, PartialEq, Eq, Hash)]
pub struct SheetRead {
    pub answer: Result<Sizes, Fault>,
    pub clearing: ClearingTimes,
}

// A refusal before the clearing times are known.
fn refused(fault: Fault) -> SheetRead
    ensures { result ≡ refusing fault }
{
    SheetRead {
        answer: Err(fault),
        clearing: [0; model::KINDS_MAX],
    }
}

// Whether tables of so many entries are long enough.
// Kept: a length for each of the three tables (SPEC 2.1).
fn long_enough(durations: usize, ends: usize, waits: usize) -> bool
    ensures { result ≡ (leb 1024 durations && leb 2048 ends && leb 16384 waits) }
{
    durations >= model::DURATIONS_LEN && ends >= model::ENDS_LEN && waits >= model::WAITS_LEN
}

// The lines after a good first one.
// Kept: three tables, each a lent slice (SPEC 12.1): a struct of three `&mut` slices would have to promise of each call that it keeps all three references.
#[tactic(auto, using(crate::proofs::ReadCall::refusals))]
fn read_after(
    sheet: &[u8],
    at: usize,
    sizes: Sizes,
    durations: &mut [u32],
    ends: &mut [u32],
    waits: &mut [u32],
) -> SheetRead
    requires short { length sheet.now ≤ 65000 }
    requires first_line { FirstLine sheet.now sizes.kinds sizes.stages sizes.edges at }
    requires long_enough { long_enough (tables_of durations.old ends.old waits.old) ≡ true }
    ensures { SheetDone sheet.now (tables_of durations.old ends.old waits.old)
        (tables_of durations.new ends.new waits.new) result }
{
    match judge::clearing_line(sheet, at, sizes.kinds) {
        Ok(values) => {
            let times = values.times;
            SheetRead {
                answer: crate::commit::read_lines(
                    sheet,
                    values.next,
                    sizes,
                    durations,
                    ends,
                    waits,
                ),
                clearing: times,
            }
        }
        Err(fault) => refused(fault),
    }
}

// The sheet's K, N, M and clearing times and its tables, or the first fault of 1 to 6. Not inlined, so that its own tables are gone from the stack when a
// sheet is planned.
// Kept: three tables, each a lent slice (SPEC 12.1): a struct of three `&mut` slices would have to promise of each call that it keeps all three references.
#[inline(never)]
#[tactic(auto, using(crate::proofs::ReadCall::refusals), unfolding(model::specs::Calls::long_enough))]
pub fn read_sheet(
    sheet: &[u8],
    durations: &mut [u32],
    ends: &mut [u32],
    waits: &mut [u32],
) -> SheetRead
    ensures { SheetDone sheet.now (tables_of durations.old ends.old waits.old)
        (tables_of durations.new ends.new waits.new) result }
{
    if !long_enough(durations.len(), ends.len(), waits.len()) {
        return refused(Fault::ShortTable);
    }
    if sheet.len() > model::SHEET_MAX {
        return refused(Fault::LongSheet);
    }
    match judge::header(sheet) {
        Ok(HeaderValues { sizes, next }) => {
            read_after(sheet, next, sizes, durations, ends, waits)
        }
        Err(fault) => refused(fault),
    }
}

// The call `read`: the sheet's K, N and M and its tables, or the first fault of 1 to 6.
// Kept: three tables, each a lent slice (SPEC 12.1): a struct of three `&mut` slices would have to promise of each call that it keeps all three references.
pub fn read(
    sheet: &[u8],
    durations: &mut [u32],
    ends: &mut [u32],
    waits: &mut [u32],
) -> Result<Sizes, Fault>
    ensures { ReadDone sheet.now (tables_of durations.old ends.old waits.old)
        (tables_of durations.new ends.new waits.new) result }
{
    read_sheet(sheet, durations, ends, waits).answer
}
