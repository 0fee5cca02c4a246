// Walks of the chains of stages. The links that a walk goes by lead to lower edges alone, so each walk ends.
ghost use Rattle.std.specs.Prelude.{◌≡◌, ◌+◌, ◌<◌, ◌≤◌, ◌↔◌, length, slice_index, IsTrue, MatchOption};
ghost use Rattle.std.specs.Iterator.{at_most};
ghost use Rattle.adjacency.specs.Linked.{FallsTo, WalksEnd};

// The chains of stages: for each stage 1 + the last of its edges, and for each edge 1 + the one before it in its chain, 0 where there is none. The table of
// links may be longer than there are edges.
#[derive(Clone, Copy)]
pub struct Chains<'a> {
    pub head: &'a [u32],
    pub prev: &'a [u32],
    ghost walks_end: { WalksEnd head.now prev.now },
}

impl<'a> Chains<'a> {
    pub fn new(head: &'a [u32], prev: &'a [u32]) -> Self
        requires { WalksEnd head.now prev.now }
        ensures head { result.head.now ≡ head.entry.now }
        ensures prev { result.prev.now ≡ prev.entry.now }
    {
        Chains { head, prev }
    }

    // The edges of a stage, the last one first.
    pub fn of(&self, stage: usize) -> Chain<'a>
        requires { stage < length self.now.head.now }
        ensures at { result.at ≡ slice_index self.now.head.now stage }
        ensures prev { result.prev.now ≡ self.now.prev.now }
    {
        Chain {
            at: self.head[stage] as usize,
            prev: self.prev,
        }
    }
}

// What is left of a walk: 1 + the edge that comes next, or 0 where none does, and the links that it goes by.
// Kept: a number and no Option, so that a step is one read of a link, as the tables have it; an Option would be made from it at each step.
#[derive(Clone, Copy)]
pub struct Chain<'a> {
    pub at: usize,
    pub prev: &'a [u32],
    ghost falling: { FallsTo at prev.now },
    ghost within: { at ≤ length prev.now },
}

impl Chain<'_> {
    pub fn is_empty(&self) -> bool
        ensures { IsTrue result ↔ (self.now.at ≡ 0) }
    {
        self.at == 0
    }
}

impl<'a> Iterator for Chain<'a> {
    type Item = usize;

    ghost next_gives = { λ walk next rest. MatchOption next (walk.at ≡ 0) (λ e. record {
      edge : walk.at ≡ e + 1;
      link : rest.at ≡ slice_index walk.prev.now e;
      prev : rest.prev.now ≡ walk.prev.now;
    }) };

    ghost remaining = { λ walk. at_most walk.at };

    fn next(&mut self) -> Option<usize> {
        let edge = self.at.checked_sub(1)?;
        self.at = self.prev[edge] as usize;
        Some(edge)
    }
}
