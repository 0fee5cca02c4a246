// The earliest end of a stage (SPEC 3.3).
// Takes K, the tables of durations and of starts, and a stage that has its starts there. Gives the smallest of start + duration over the stage's kinds;
// promised of whichever sheet has these durations, at the starts that the table has.
ghost use Rattle.std.specs.Prelude.{◌≡◌, ◌+◌};
ghost use Rattle.model.specs.Sheet.{Sheet, dur, smallest_over};
ghost use Rattle.starts.specs.Entries.{entry};
ghost use Rattle.starts.specs.Given.{StageTabled};

use crate::smallest;

pub fn earliest_end(kinds: usize, durations: &[u32], starts: &[u32], i: usize) -> u32
    requires { (s : Sheet) × StageTabled s durations.now starts.now i × (kinds ≡ s.kinds) }
    ensures { (s : Sheet) → StageTabled s durations.now starts.now i → kinds ≡ s.kinds
        → result ≡ smallest_over s i (λ h. entry starts.now i h + dur s i h) }
{
    smallest::smallest_over(kinds, |h| kinds::end_time(durations, starts, i, h))
}
