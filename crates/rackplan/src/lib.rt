// The calls for C and for Rust (include/rackplan.h): slices as pointers with lengths, answers as structs of numbers.
// Each promise is its call's own, through the struct.
#![tactic(auto)]

ghost use Rattle.model.specs.Calls.{tables_of};
ghost use Rattle.plan_call.specs.Answers.{buffers_of};
ghost use Rattle.rackplan.specs.Called.{ReadCalled, PlanCalled};

use abi::results::{PlanResult, ReadResult};
use model::Copy;

// Kept: three tables, each a slice of its own, as C lends them; so below.
#[unsafe(no_mangle)]
pub extern "C" fn rackplan_read(
    sheet: &[u8],
    durations: &mut [u32],
    ends: &mut [u32],
    waits: &mut [u32],
) -> ReadResult
    ensures { ReadCalled sheet.now (tables_of durations.old ends.old waits.old)
        (tables_of durations.new ends.new waits.new) result }
{
    sheet::read(sheet, durations, ends, waits).into()
}

// Kept: the tables as above.
#[unsafe(no_mangle)]
pub extern "C" fn rackplan_plan(
    sheet: &[u8],
    durations: &mut [u32],
    ends: &mut [u32],
    waits: &mut [u32],
    starts: &mut [u32],
    copies: &mut [Copy],
    out: &mut [u8],
) -> PlanResult
    ensures { PlanCalled sheet.now
        (buffers_of (tables_of durations.old ends.old waits.old) starts.old
        copies.old out.old)
        (buffers_of (tables_of durations.new ends.new waits.new) starts.new
        copies.new out.new) result }
{
    planner::plan(sheet, durations, ends, waits, starts, copies, out).into()
}
