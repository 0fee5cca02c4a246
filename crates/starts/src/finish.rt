// The finish (SPEC 3.3).
// Takes the durations and the starts of a sheet without a closed path. Gives the largest of the stages' earliest ends. Promises the model's `finish` of
// whichever sheet has these durations and starts.
ghost use Rattle.std.specs.Prelude.{◌≡◌};
ghost use Rattle.model.specs.Sheet.{Sheet};
ghost use Rattle.model.specs.Starts.{finish};
ghost use Rattle.starts.specs.Given.{Started};

pub fn finish_time(kinds: usize, durations: &[u32], stages: usize, starts: &[u32]) -> u32
    requires { (s : Sheet) × Started s kinds durations.now stages starts.now }
    ensures { (s : Sheet) → Started s kinds durations.now stages starts.now → result ≡ finish s }
{
    let mut last = 0;
    for i in 0..stages {
        last = last.max(crate::stage_ends::earliest_end(kinds, durations, starts, i));
    }
    last
}
