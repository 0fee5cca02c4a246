// The numbers of a line that has its form, judged for 4, the ranges, and then for 5, the stages (SPEC 8.3.4, 8.3.5, 8.4).
// Each function takes the values of a line that has its form and the place after it, and gives that place, or the fault; the promises are the model's
// `header_check`, `clearing_check`, `stage_check` and `edge_check`.
ghost use Rattle.std.specs.Prelude.{◌≡◌, ◌+◌, ◌≤◌, length};
ghost use Rattle.std.specs.List.{list_all};
ghost use Rattle.model.specs.Faults.{answered};
ghost use Rattle.model.specs.SheetText.{between, header_check, clearing_check, stage_check, edge_check};
ghost use Rattle.judge.specs.Judging.{header_answer, clearing_answer, if_passed, sizes_at, times_at};

use crate::{CLEARING_LINE, ClearingValues, HeaderValues};
use model::{CLEARING_MAX, DURATION_MAX, EDGES_MAX, Fault, KINDS_MAX, STAGES_MAX, Sizes, WAIT_MAX};

// Whether the values are between two limits.
#[tactic(auto, unfolding(model::specs::SheetText::between))]
fn within(values: &[u32], low: u32, high: u32) -> bool
    ensures { result ≡ list_all (between low high) values.now }
{
    values.iter().all(|&v| low <= v && v <= high)
}

// `J,K,N,M`
#[tactic(auto, unfolding(model::specs::SheetText::header_check, model::specs::SheetText::between))]
pub fn header_values(values: &[u32], next: usize) -> Result<HeaderValues, Fault>
    requires { 3 ≤ length values.now }
    ensures { header_answer result ≡ if_passed (header_check values.now) (sizes_at values.now next) }
{
    let (kinds, stages, edges) = (values[0] as usize, values[1] as usize, values[2] as usize);
    if !(1..=KINDS_MAX).contains(&kinds)
        || !(1..=STAGES_MAX).contains(&stages)
        || edges > EDGES_MAX
    {
        return Err(Fault::OutOfRange(1));
    }
    Ok(HeaderValues {
        sizes: Sizes {
            kinds,
            stages,
            edges,
        },
        next,
    })
}

// `G,g..`
#[tactic(auto, using(crate::proofs::RangeChecks::clearing_is))]
pub fn clearing_values(values: &[u32], kinds: usize, next: usize) -> Result<ClearingValues, Fault>
    requires { (kinds ≤ 4) × (4 ≤ length values.now) }
    ensures { clearing_answer result ≡ if_passed (clearing_check kinds values.now) (times_at values.now next) }
{
    if !within(&values[..kinds], 0, CLEARING_MAX) {
        return Err(Fault::OutOfRange(CLEARING_LINE));
    }
    Ok(ClearingValues {
        times: [values[0], values[1], values[2], values[3]],
        next,
    })
}

// `T,i,d..`, of stage i, in line `line`
#[tactic(auto, using(crate::proofs::RangeChecks::stage_is))]
pub fn stage_values(
    values: &[u32],
    kinds: usize,
    stage: u32,
    line: u32,
    next: usize,
) -> Result<usize, Fault>
    requires { 1 + kinds ≤ length values.now }
    ensures { answered result ≡ if_passed (stage_check kinds stage line values.now) next }
{
    if !within(&values[1..1 + kinds], 1, DURATION_MAX) {
        return Err(Fault::OutOfRange(line));
    }
    if values[0] != stage {
        return Err(Fault::BadStage(line));
    }
    Ok(next)
}

// `E,i,j,w..`, of one of N stages, in line `line`
#[tactic(auto, using(crate::proofs::RangeChecks::edge_is))]
pub fn edge_values(
    values: &[u32],
    kinds: usize,
    stages: u32,
    line: u32,
    next: usize,
) -> Result<usize, Fault>
    requires { (kinds ≤ 4) × (18 ≤ length values.now) }
    ensures { answered result ≡ if_passed (edge_check kinds stages line values.now) next }
{
    if !within(&values[2..2 + kinds * kinds], 0, WAIT_MAX) {
        return Err(Fault::OutOfRange(line));
    }
    if values[0] >= stages || values[1] >= stages {
        return Err(Fault::BadStage(line));
    }
    Ok(next)
}
