// The first repeated edge (SPEC 8.3.6).
// It takes the ends of the edges and gives the first edge that equals an earlier one, if one does; it promises the model's `first_repeat` of
// whichever sheet the ends hold. Each edge has a mark, equal ones the same, and joins a set by it, so each edge is looked at once.
ghost use Rattle.std.specs.Prelude.{◌≡◌, ◌<◌};
ghost use Rattle.model.specs.Bounded.{below};
ghost use Rattle.model.specs.Sheet.{Sheet};
ghost use Rattle.model.specs.Judge.{first_repeat};
ghost use Rattle.sheet.specs.Repeats.{EdgeGiven, EdgesGiven, mark};

use bitset::BitSet;

// Words for a bit of each mark.
const MARK_WORDS: usize = model::STAGES_MAX * model::STAGES_MAX / 64;

// The mark of an edge. When two edges are equal is said here alone: they have the same mark (proofs/Marks.antt, `same_mark`).
#[tactic(auto, using(crate::proofs::Marks::stages_small), unfolding(crate::specs::Repeats::mark))]
fn edge_mark(ends: &[u32], edge: usize) -> usize
    requires { (s : Sheet) × EdgeGiven s edge ends.now }
    ensures is_mark { (s : Sheet) → EdgeGiven s edge ends.now → result ≡ mark s edge }
    ensures small { result < 65536 }
{
    let i = ends[2 * edge] as usize;
    let j = ends[2 * edge + 1] as usize;
    model::STAGES_MAX * i + j
}

// The first edge that equals an earlier one, if one does, by a set of the marks seen.
// Kept: how many edges there are beside the table of their ends, since the table may be longer than its use (SPEC 2.3).
#[tactic(auto, using(crate::proofs::Marks::edge_given, crate::proofs::Marks::none_passed, crate::proofs::Marks::found))]
pub fn first_repeat(ends: &[u32], edges: usize) -> Option<usize>
    requires { (s : Sheet) × EdgesGiven s edges ends.now }
    ensures { (s : Sheet) → EdgesGiven s edges ends.now → result ≡ below edges (first_repeat s) }
{
    let mut seen = BitSet::<MARK_WORDS>::new();
    for e in 0..edges {
        let mark = edge_mark(ends, e);
        if seen.contains(mark) {
            return Some(e);
        }
        seen.insert(mark);
    }
    None
}
