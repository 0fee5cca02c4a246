// Fault 7, for a closed path, or the plan (SPEC 8.3.7).
// It takes K, N, M, the sheet's tables and clearing times, the lent starts and output, and room for the rows, and schedules the sheet; it gives 7, 8 or the
// totals, and how many rows there are. The promise is what the model's `plan_call` does with a sheet that it has read, for whatever list the rows go to.
ghost use Rattle.std.specs.Prelude.{◌≤◌, length};
ghost use Rattle.model.specs.Sheet.{Sheet};
ghost use Rattle.model.specs.Held.{ClearingIn, SheetHeld};
ghost use Rattle.plan_call.specs.Says.{SheetSays};

use crate::Outcome;
use model::{ClearingTimes, Fault, Sizes};
use plan_text::TabledPlan;

// Plans the sheet that tables hold, or answers that it is circular. Not inlined, so that its tables take the place on the stack that those of reading had.
// Kept: three tables beside the sizes, as `schedule::schedule` has them.
#[inline(never)]
pub fn plan_sheet(
    sizes: Sizes,
    durations: &[u32],
    ends: &[u32],
    waits: &[u32],
    clearing: ClearingTimes,
    starts: &mut [u32],
    rows: &mut [u32],
    out: &mut [u8],
) -> Outcome
    requires sheet_held { (s : Sheet) × SheetHeld s sizes.kinds sizes.stages sizes.edges durations.now ends.now waits.now × ClearingIn s clearing }
    requires in_bounds { (1024 ≤ length starts.old) × (4096 ≤ length rows.old) }
    ensures { (s : Sheet) → SheetHeld s sizes.kinds sizes.stages sizes.edges durations.now ends.now waits.now → ClearingIn s clearing
        → SheetSays s starts.old out.old starts.new rows.new out.new result }
{
    let Some(planned) = schedule::schedule(
        sizes, durations, ends, waits, clearing, starts, &mut *rows,
    ) else {
        return crate::refused(Fault::Circular);
    };
    let counts = planned.boards;
    let plan = TabledPlan {
        kinds: sizes.kinds,
        durations,
        finish: planned.finish,
        counts,
        rows: &rows[..4 * planned.copies],
    };
    crate::print::print_plan(plan, out)
}
