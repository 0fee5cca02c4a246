// When a stage ends on each of its kinds, and the kind of a stage without successors (SPEC 4.2).
// Both take the view of a sheet and the table of starts. `row_ends` gives a stage's four ends; a kind that the stage lacks ends past every time, so that it is
// never the earliest and serves nothing. `sink_kind` gives a set of one kind. The promises are the model's `start` + `dur`, and its `sink_kind`.
ghost use Rattle.std.specs.Prelude.{◌≡◌, ℕ, ◌<◌, ◌==◌};
ghost use Rattle.std.specs.FinSet as finite;
ghost use Rattle.model.specs.Sheet.{Sheet};
ghost use Rattle.model.specs.Starts.{earliest_end};
ghost use Rattle.model.specs.Copies as Copies;
ghost use Rattle.copies.specs.Given.{end_on, StageGiven, EndsOf};

use kinds::KindSet;
use model::SheetView;
use std::array;

// Past every time, with a wait too: the end on a kind that a stage lacks.
// Kept: `[Option<u32>; 4]` in its place takes 1.2 to 1.4 of the time with one or two kinds, and three times it without edges.
const NEVER: u32 = 4000000000;

// When stage i ends on kind h.
#[tactic(auto, using(crate::proofs::Times::end_there, crate::proofs::Times::end_lacking))]
fn end_on(view: &SheetView, starts: &[u32], i: usize, h: usize) -> u32
    requires { (s : Sheet) × StageGiven s view.now starts.now i }
    ensures { (s : Sheet) → StageGiven s view.now starts.now i → result ≡ end_on s i h }
{
    if kinds::has_kind(view.kinds, h) {
        kinds::end_time(view.durations, starts, i, h)
    } else {
        NEVER
    }
}

// When stage i ends on each of four kinds.
pub fn row_ends(view: &SheetView, starts: &[u32], i: usize) -> [u32; 4]
    requires { (s : Sheet) × StageGiven s view.now starts.now i }
    ensures { (s : Sheet) → StageGiven s view.now starts.now i → EndsOf s i result }
{
    array::from_fn(|h| end_on(view, starts, i, h))
}

// The earliest of a stage's ends.
fn earliest(row: [u32; 4]) -> u32
    ensures { (s : Sheet) (i : ℕ) → EndsOf s i row → result ≡ earliest_end s i }
{
    row[0].min(row[1]).min(row[2]).min(row[3])
}

// The kind of a stage without successors, alone: the preferred one of those on which it ends at the earliest.
pub fn sink_kind(view: &SheetView, starts: &[u32], i: usize) -> KindSet
    requires { (s : Sheet) × StageGiven s view.now starts.now i }
    ensures { (s : Sheet) → StageGiven s view.now starts.now i
        → (h : ℕ) → h < s.kinds → finite.contains result h ≡ (h == Copies.sink_kind s i) }
{
    let row = row_ends(view, starts, i);
    let end = earliest(row);
    KindSet::of(|h| row[h] == end).preferred()
}
