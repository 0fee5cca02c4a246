// The kinds of a stage with successors (SPEC 4.3, 4.4, 4.5): which kinds serve a copy of a successor, which serve all of them, and which are picked.
// `serving` takes an edge with the ends of its first stage, and gives the set of the kinds that serve a copy of its second. `after_copy` passes a copy with
// this set: it brings two sets up to date, from which `chosen` takes the stage's kinds when all copies are passed. The promises are by the model's `serves` and
// `preferred`.
ghost use Rattle.std.specs.Prelude.{◌≡◌, Bool, not, ◌&&◌, ℕ, ◌<◌, ◌≤◌, ◌==◌};
ghost use Rattle.std.specs.FinSet as finite;
ghost use Rattle.model.specs.Sheet.{Sheet, source, target, has_kind, preferred};
ghost use Rattle.model.specs.Starts as Starts;
ghost use Rattle.model.specs.Copies as Copies;
ghost use Rattle.kinds.specs.Sets.{KindsOf};
ghost use Rattle.copies.specs.Given.{WaitsGiven};
ghost use Rattle.copies.specs.Marks.{Marked, Passed, chosen_of};

use kinds::KindSet;
use model::SheetView;

// Two sets of kinds: those that serve every copy passed, and those that one picks.
#[derive(Clone, Copy)]
pub struct Marks {
    pub common: KindSet,
    pub picked: KindSet,
}

// Whether kind h serves a copy on k of edge e's second stage that starts at `start`. `row` has the ends of the first stage.
fn serves(view: &SheetView, row: [u32; 4], e: usize, k: usize, start: u32, h: usize) -> bool
    requires waits_given { (s : Sheet) × WaitsGiven s view.now row e }
    requires k_lt_kinds { (k < view.now.kinds) × (h < 4) }
    ensures { (s : Sheet) → WaitsGiven s view.now row e → start ≡ Starts.start s (target s e) k
        → result ≡ (has_kind s (source s e) h && Copies.serves s e h k) }
{
    kinds::has_kind(view.kinds, h) && row[h] + view.waits[16 * e + 4 * h + k] <= start
}

// The set of the kinds that serve that copy.
pub fn serving(view: &SheetView, row: [u32; 4], e: usize, k: usize, start: u32) -> KindSet
    requires waits_given { (s : Sheet) × WaitsGiven s view.now row e }
    requires k_lt_kinds { k < view.now.kinds }
    ensures { (s : Sheet) → WaitsGiven s view.now row e → start ≡ Starts.start s (target s e) k
        → KindsOf s (source s e) (λ h. Copies.serves s e h k) result }
{
    KindSet::of(|h| serves(view, row, e, k, start, h))
}

impl Marks {
    // The marks after a copy that these kinds serve.
    pub fn after_copy(self, serving: KindSet) -> Self
        ensures { (s : Sheet) (i : ℕ) (p : ℕ → Bool) → KindsOf s i p serving
            → Passed s i (λ h. not (p h)) (λ h. h == preferred s i p) self result }
    {
        Marks {
            common: self.common & serving,
            picked: self.picked | serving.preferred(),
        }
    }

    // The kinds of a stage by the marks of all copies: a common one, or else those picked.
    pub fn chosen(self) -> KindSet
        ensures { (s : Sheet) (i : ℕ) (missed picked : ℕ → Bool) → Marked s i missed picked self
            → (h : ℕ) → h < s.kinds → finite.contains result h ≡ chosen_of s i missed picked h }
    {
        if self.common.is_empty() {
            self.picked
        } else {
            self.common.preferred()
        }
    }
}
