// The answers of the two calls as structs of numbers, for C and Rust (include/rackplan.h).
// Each is made from an answer: fault 0 with the answer's numbers, or the fault's number and line; fields that a refusal does not give are 0. The
// promises are equations with `read_result` and `plan_result`.
ghost use Rattle.std.specs.Prelude.{◌≡◌};
ghost use Rattle.sheet.specs.Answers.{read_answer};
ghost use Rattle.plan_call.specs.Answers.{plan_answer};
ghost use Rattle.abi.specs.Results.{read_result, plan_result};

use crate::faults::FaultNumbers;
use model::{Fault, Sizes};
use plan_call::Totals;

// The fault of success.
// Kept: a number, and 0 for none, since C takes no Option or Result (include/rackplan.h).
const NONE: u32 = 0;

#[repr(C)]
#[derive(Clone, Copy, Debug, PartialEq, Eq, Hash)]
pub struct ReadResult {
    pub fault: u32,
    pub line: u32,
    pub kinds: u32,
    pub stages: u32,
    pub edges: u32,
}

// The answer of `read` as numbers.
impl From<Result<Sizes, Fault>> for ReadResult {
    ghost from_gives = { λ a r. r ≡ read_result (read_answer a) };

    fn from(answer: Result<Sizes, Fault>) -> ReadResult {
        match answer {
            Ok(sizes) => ReadResult {
                fault: NONE,
                line: 0,
                kinds: sizes.kinds as u32,
                stages: sizes.stages as u32,
                edges: sizes.edges as u32,
            },
            Err(fault) => {
                let refusal = FaultNumbers::from(fault);
                ReadResult {
                    fault: refusal.number,
                    line: refusal.line,
                    kinds: 0,
                    stages: 0,
                    edges: 0,
                }
            }
        }
    }
}

#[repr(C)]
#[derive(Clone, Copy, Debug, PartialEq, Eq, Hash)]
pub struct PlanResult {
    pub fault: u32,
    pub line: u32,
    pub finish: u32,
    pub boards: [u32; model::KINDS_MAX],
    pub copies: u32,
    pub printed: usize,
}

// The answer of `plan` as numbers.
impl From<Result<Totals, Fault>> for PlanResult {
    ghost from_gives = { λ a r. r ≡ plan_result (plan_answer a) };

    fn from(answer: Result<Totals, Fault>) -> PlanResult {
        match answer {
            Ok(totals) => {
                let boards = totals.boards;
                PlanResult {
                    fault: NONE,
                    line: 0,
                    finish: totals.finish,
                    boards,
                    copies: totals.copies,
                    printed: totals.printed,
                }
            }
            Err(fault) => {
                let cause = FaultNumbers::from(fault);
                PlanResult {
                    fault: cause.number,
                    line: cause.line,
                    finish: 0,
                    boards: [0; model::KINDS_MAX],
                    copies: 0,
                    printed: 0,
                }
            }
        }
    }
}
