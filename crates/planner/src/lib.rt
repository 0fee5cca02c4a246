// The call `plan`: from a sheet's bytes to starts, copies, boards and the printed plan (SPEC 8.2).
// It takes the sheet and all that the caller lends, and gives the totals or the first fault of 1 to 8; the promise is the model's `plan_call` for
// every input, and all of demand 3 (SPEC 10.3).
#![tactic(auto)]

pub mod list;

ghost use Rattle.model.specs.Calls.{tables_of};
ghost use Rattle.plan_call.specs.Answers.{buffers_of};
ghost use Rattle.planner.specs.Done.{PlanDone};

use model::{Copy, Fault};
use plan_call::Totals;

// The call: the plain tables, then the lent list.
// Kept: three tables, each a lent slice (SPEC 12.1): a struct of three `&mut` slices would have to promise of each call that it keeps all three references.
pub fn plan(
    sheet: &[u8],
    durations: &mut [u32],
    ends: &mut [u32],
    waits: &mut [u32],
    starts: &mut [u32],
    copies: &mut [Copy],
    out: &mut [u8],
) -> Result<Totals, Fault>
    ensures { PlanDone sheet.now
        (buffers_of (tables_of durations.old ends.old waits.old) starts.old
        copies.old out.old)
        (buffers_of (tables_of durations.new ends.new waits.new) starts.new
        copies.new out.new) result }
{
    let mut rows = [0u32; 4 * model::COPIES_LEN];
    let done = plan_call::plan_tables(
        sheet,
        durations,
        ends,
        waits,
        starts,
        copies.len(),
        &mut rows,
        out,
    );
    list::fill(copies, &rows[..4 * done.count]);
    done.answer
}
