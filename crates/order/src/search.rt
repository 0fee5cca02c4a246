// The search for the next stage: the lowest one that is ready, which is not done and has no pending edge.
// It looks at each stage once, upwards; a stage that becomes ready behind it joins a set, one bit for each stage in four words, whose lowest stage is found
// by a count of zeros. The promises are about the pending edges of each stage, as `Model` has them: `new` counts them, `next_ready` gives the lowest stage
// without one, `mark_done` marks it, and `release` takes away the edges from it. What the search keeps beside is `Searching`.
ghost use Rattle.std.specs.Prelude.{◌≡◌, [], ◌<◌, ◌≤◌, if◌then◌else◌, length, set, MatchOption};
ghost use Rattle.std.specs.FinSet as finite;
ghost use Rattle.model.specs.Sheet as Sheet;
ghost use Rattle.model.specs.Sheet.{Sheet};
ghost use Rattle.order.specs.Given.{EdgesGiven, Given};
ghost use Rattle.order.specs.Pending.{Counted, CanRelease, Released};
ghost use Rattle.order.specs.Ready.{NoneReady, IsNext, ready_behind, search_start};

use adjacency::Chains;
use bitset::BitSet;
use std::marker::Model;

// A stage that is done has this in place of its pending edges: more than any stage has, so it is not found again.
// Kept: a number, and no Option or set of done stages: an edge is taken from each entry alike, and no proof has to show that no edge leads to a stage that
// is done, as one from a stage to itself would.
const DONE: u32 = 2048;

// How far the search has come. A contract sees the pending edges of each stage.
#[derive(Drop)]
pub struct Search {
    // No stage below it is ready.
    from: usize,
    // The stages below it have been looked at, and those of them that are ready are `behind`.
    reached: usize,
    stages: usize,
    behind: BitSet<4>,
    pending: [u32; model::STAGES_MAX],
}

impl Model for Search {
    ghost use Rattle.std.specs.Prelude.{ℕ, List, take};
    ghost use Rattle.order.specs.Ready.{Searching};

    ghost Value = { List ℕ };

    ghost view = { λ s. take s.stages s.pending };

    ghost invariant = { λ s. Searching s.stages s.pending s.behind s.from s.reached };
}

impl Search {
    // Before any stage is done each edge is pending.
    // Kept: how many edges there are beside the table of their ends, as `running_order` has them.
    pub fn new(ends: &[u32], edges: usize, stages: usize) -> Self
        requires given { (s : Sheet) × EdgesGiven s edges ends.now × (stages ≡ Sheet.stages s) }
        ensures stages { length result ≡ stages }
        ensures counted { (s : Sheet) → EdgesGiven s edges ends.now → Counted s [] result }
    {
        let mut search = Search {
            from: 0,
            reached: 0,
            stages,
            behind: BitSet::new(),
            pending: [0; model::STAGES_MAX],
        };
        for &[_, target] in ends[..2 * edges].as_chunks::<2>().0 {
            search.pending[target as usize] += 1;
        }
        search
    }

    // The lowest ready stage. The first guess is right where a sheet lists its stages as they run.
    pub fn next_ready(&self) -> Option<usize>
        ensures { MatchOption result (NoneReady (length self.now) self.now) (IsNext self.now) }
    {
        if self.from < self.stages && self.pending[self.from] == 0 {
            return Some(self.from);
        }
        if let Some(stage) = self.behind.lowest(self.from) {
            return Some(stage);
        }
        let pending = &self.pending;
        (self.reached..self.stages).find(|&stage| pending[stage] == 0)
    }

    // The lowest ready stage is done.
    pub fn mark_done(&mut self, stage: usize)
        requires { IsNext self.old stage }
        ensures { self.new ≡ set self.old stage 2048 }
    {
        if stage < self.reached {
            self.behind.remove(stage);
        } else {
            self.reached = stage + 1;
        }
        self.pending[stage] = DONE;
        self.from = stage + 1;
    }

    // Releases the edges of a stage that is done, along its chain.
    pub fn release(&mut self, ends: &[u32], chains: &Chains, stage: usize)
        requires given { (s : Sheet) × Given s (Sheet.edges s) (Sheet.stages s) ends.now chains.now.head.now chains.now.prev.now
            × CanRelease s stage self.old }
        ensures { (s : Sheet) → Given s (Sheet.edges s) (Sheet.stages s) ends.now chains.now.head.now chains.now.prev.now
            → CanRelease s stage self.old → Released s stage self.old self.new }
    {
        let upwards = self.from == self.reached;
        let mut from = self.from;
        for e in chains.of(stage) {
            let next = ends[2 * e + 1] as usize;
            let left = self.pending[next] - 1;
            self.pending[next] = left;
            from = note(&mut self.behind, next, left, self.reached, from, upwards);
        }
        self.from = from;
    }
}

// A stage has `left` pending edges now: it joins the set where it has none and is behind the search. Answers where the search starts then.
// Kept: `upwards` as a flag that is set once for all edges of a stage, where a closure or a const parameter would make two loops over them.
fn note(
    behind: &mut BitSet<4>,
    stage: usize,
    left: u32,
    reached: usize,
    from: usize,
    upwards: bool,
) -> usize
    requires bounds { (stage < 256) × (from ≤ reached) }
    ensures from { result ≡ search_start stage left from }
    ensures behind { behind.new ≡ (if ready_behind stage left reached then finite.insert behind.old stage else behind.old) }
{
    let ready = left == 0;
    let joins = ready & (stage < reached);
    // Kept: whether it joins is a branch only while the search goes upwards, where few do, for speed (docs/DECISIONS.md, "The layers").
    if upwards && !joins {
        return from;
    }
    behind.join(stage, joins);
    if ready { from.min(stage) } else { from }
}
