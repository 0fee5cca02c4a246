// When a stage ends on a kind, by the tables of durations and starts.
ghost use Rattle.std.specs.Prelude.{◌≡◌};
ghost use Rattle.kinds.specs.Ends.{EndTabled, end_by};

// The end of a stage on a kind: the start there and the duration.
pub fn end_time(durations: &[u32], starts: &[u32], stage: usize, kind: usize) -> u32
    requires { EndTabled durations.now starts.now stage kind }
    ensures { result ≡ end_by durations.now starts.now stage kind }
{
    let at = 4 * stage + kind;
    starts[at] + durations[at]
}
