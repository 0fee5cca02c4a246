// The smallest time over the kinds of a stage (SPEC 3.2, 3.3).
// Takes a time for each kind that the stage has. Promises the model's `smallest_over` of whichever sheet has so many kinds. Which kinds the stage has is asked
// here alone.
ghost use Rattle.std.specs.Prelude.{◌≡◌, ℕ, true};
ghost use Rattle.model.specs.Sheet.{Sheet, InRange, has_kind, smallest_over};

// The loop is over a constant number of kinds, so that the compiler writes it out.
pub fn smallest_over<F: Fn(usize) -> u32>(kinds: usize, time: F) -> u32
    requires { (s : Sheet) × (i : ℕ) × (kinds ≡ s.kinds) × ((h : ℕ) → has_kind s i h ≡ true → F.pre time h) }
    ensures { (s : Sheet) (i : ℕ) (f : ℕ → ℕ) → InRange s → kinds ≡ s.kinds
        → ((h r : ℕ) → has_kind s i h ≡ true → F.post time h r → r ≡ f h) → result ≡ smallest_over s i f }
{
    let mut least = u32::MAX;
    for h in 0..model::KINDS_MAX {
        if kinds::has_kind(kinds, h) {
            least = least.min(time(h));
        }
    }
    least
}
