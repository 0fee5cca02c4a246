// Which kinds have a copy of each stage (SPEC 4).
// The room takes a sheet without closed paths in its tables, the chains of its edges by their first stage, its running order and its starts. It gives a table
// with 1 for each stage and kind that have a copy and 0 for the others, and keeps the entries that the sheet doesn't use. The promise of `choose_copies` is
// the model's `has_copy`, of every stage and kind.
// The kinds of a stage are chosen after those of its successors: without any by `stage_ends`, else by the `marks` of the copies that its edges lead to. Sets of
// kinds, which kinds a stage has and which of several is preferred are the room `kinds`'.
#![tactic(auto)]

pub mod marks;
pub mod stage_ends;

ghost use Rattle.std.specs.Prelude.{◌≡◌, ℕ, ◌+◌, ◌*◌, ◌<◌, ◌≤◌, length};
ghost use Rattle.std.specs.FinSet as finite;
ghost use Rattle.model.specs.Copies.{copy_rule};
ghost use Rattle.model.specs.Sheet as Sheet;
ghost use Rattle.model.specs.Sheet.{Sheet, source};
ghost use Rattle.model.specs.Held.{bit, copies_table};
ghost use Rattle.copies.specs.Given.{Given, Ordered, EdgeGiven};
ghost use Rattle.copies.specs.Marks.{has_in, Passed, misses, picks, along};
ghost use Rattle.copies.specs.Flags.{row_filled};

use crate::marks::Marks;
use adjacency::Chains;
use kinds::KindSet;
use model::SheetView;

// The marks after the copies of edge e's second stage. `row` has the ends of the first stage.
// Kept: starts and copies apart. A struct of them would serve this and `stage_kinds` alone, made anew at each stage, as copies are written in between.
fn mark_edge(
    view: &SheetView,
    row: [u32; 4],
    starts: &[u32],
    copied: &[u8],
    e: usize,
    old: Marks,
) -> Marks
    requires edge_given { (s : Sheet) × EdgeGiven s view.now row starts.now e }
    requires in_bounds { 1024 ≤ length copied.now }
    ensures { (s : Sheet) → EdgeGiven s view.now row starts.now e
        → Passed s (source s e) (along s (has_in copied.now) e view.now.kinds (misses s)) (along s (has_in copied.now) e view.now.kinds (picks s)) old result }
{
    let to = 4 * view.ends[2 * e + 1] as usize;
    let mut marks = old;
    for k in 0..view.kinds {
        if copied[to + k] == 1 {
            let serving = crate::marks::serving(view, row, e, k, starts[to + k]);
            marks = marks.after_copy(serving);
        }
    }
    marks
}

// The kinds of stage i. Those of its successors are chosen.
// Kept: starts and copies apart. A struct of them would serve this and `mark_edge` alone, made anew at each stage, as copies are written in between.
fn stage_kinds(
    view: &SheetView,
    chains: &Chains,
    starts: &[u32],
    copied: &[u8],
    i: usize,
) -> KindSet
    requires given { (s : Sheet) × Given s view.now chains.now starts.now × (i < Sheet.stages s) }
    requires in_bounds { 1024 ≤ length copied.now }
    ensures { (s : Sheet) → Given s view.now chains.now starts.now → i < Sheet.stages s
        → (h : ℕ) → h < view.now.kinds → finite.contains result h ≡ copy_rule s (has_in copied.now) i h }
{
    let edges = chains.of(i);
    if edges.is_empty() {
        return crate::stage_ends::sink_kind(view, starts, i);
    }
    let row = crate::stage_ends::row_ends(view, starts, i);
    let mut marks = Marks {
        common: KindSet::all(view.kinds),
        picked: KindSet::empty(),
    };
    for e in edges {
        marks = mark_edge(view, row, starts, copied, e, marks);
    }
    marks.chosen()
}

// Stores the kinds of stage i in its row. The loop has four turns whatever the number of kinds, as that of `tables::store`.
// Kept: beside that one, which takes values for a table of 32-bit numbers, and no set for one of bytes.
#[tactic(auto, using(crate::proofs::Flags::row_none, crate::proofs::Flags::row_stored))]
fn store(kinds: usize, i: usize, chosen: KindSet, copied: &mut [u8])
    requires { (1 ≤ kinds) × (kinds ≤ 4) × (4 * i + 4 ≤ length copied.old) }
    ensures { copied.new ≡ row_filled kinds i (λ h. bit (finite.contains chosen h)) copied.old }
{
    for h in 0..4 {
        if h < kinds {
            copied[4 * i + h] = u8::from(chosen.contains(h));
        }
    }
}

// Stores the kinds of stage i. Those of its successors are chosen.
// Kept: starts and copies apart, since the one is read where the other is written.
fn choose_kinds(view: &SheetView, chains: &Chains, starts: &[u32], i: usize, copied: &mut [u8])
    requires given { (s : Sheet) × Given s view.now chains.now starts.now × (i < Sheet.stages s) }
    requires in_bounds { 1024 ≤ length copied.old }
    ensures { (s : Sheet) → Given s view.now chains.now starts.now → i < Sheet.stages s
        → copied.new ≡ row_filled view.now.kinds i (λ h. bit (copy_rule s (has_in copied.old) i h)) copied.old }
{
    let chosen = stage_kinds(view, chains, starts, &*copied, i);
    store(view.kinds, i, chosen, copied);
}

// The copies of all stages: 1 for each stage and kind that have one, 0 for the others. `chains` has the edges by their first stage; `order` has the stages in
// running order and no more, and is gone through from its end.
// Kept: the table has numbers, and no `bool`, as the model's `copies_table` and the tables that the tests lend by C have.
pub fn choose_copies(
    view: &SheetView,
    chains: &Chains,
    order: &[u32],
    starts: &[u32],
    copied: &mut [u8],
)
    requires ordered { (s : Sheet) × Ordered s view.now chains.now order.now starts.now }
    requires in_bounds { 1024 ≤ length copied.old }
    ensures { (s : Sheet) → Ordered s view.now chains.now order.now starts.now → copied.new ≡ copies_table s copied.old }
{
    for &i in order.iter().rev() {
        choose_kinds(view, chains, starts, i as usize, &mut *copied);
    }
}
