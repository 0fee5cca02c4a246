// The last step of the call `plan`: its answer, with the plan printed or called longer than the output (SPEC 8.2, 8.3.8).
// It takes a sheet's plan in tables, and the output; it gives the answer and how many rows go to the list. The promise is the model's `totals` and
// `plan_text`, or 8 with the output as it was.
ghost use Rattle.model.specs.Sheet.{Sheet};
ghost use Rattle.plan_text.specs.TabledPlan.{copy_count, IsPlanOf};
ghost use Rattle.plan_call.specs.Answers.{PrintSays};

use crate::{Outcome, Totals};
use model::Fault;
use plan_text::TabledPlan;

// Prints the plan, or answers that it is longer than the output; the rows go to the list in both cases.
#[tactic(auto, using(crate::proofs::Printing::printing))]
pub fn print_plan(plan: TabledPlan, out: &mut [u8]) -> Outcome
    requires { (s : Sheet) × IsPlanOf s plan }
    ensures { (s : Sheet) → IsPlanOf s plan.entry → PrintSays s (copy_count plan.entry) out.old out.new result }
{
    let count = plan.rows.len() / 4;
    let printed = plan.length();
    if printed > out.len() {
        return Outcome {
            answer: Err(Fault::ShortOutput),
            count,
        };
    }
    plan.print(out);
    let answer = Ok(Totals {
        finish: plan.finish,
        boards: plan.counts,
        copies: count as u32,
        printed,
    });
    Outcome { answer, count }
}
