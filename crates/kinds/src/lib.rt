// The kinds of a stage: which kinds it has, sets of them, which kind of a set is preferred, and when a stage ends on a kind. What the model's `has_kind` and
// `preferred` say, the code has here alone: every layer that goes over kinds asks `has_kind`, and every choice among kinds is made by `KindSet::preferred`.
// The promises speak of whichever sheet has these kinds.
#![tactic(auto)]

mod ends;
mod set;

ghost use Rattle.std.specs.Prelude.{◌≡◌, ℕ};
ghost use Rattle.model.specs.Sheet.{Sheet, has_kind};

pub use ends::end_time;
pub use set::KindSet;

// Whether a stage has kind h.
pub fn has_kind(kinds: usize, h: usize) -> bool
    ensures { (s : Sheet) → kinds ≡ s.kinds → (i : ℕ) → result ≡ has_kind s i h }
{
    h < kinds
}
