// The two tables of the chains, for as many stages and edges as a sheet may have. Contracts see their fronts, the parts in use.
ghost use Rattle.std.specs.Prelude.{◌≡◌, ◌≤◌, []};
ghost use Rattle.adjacency.specs.Adjacency.{EndsBelow, Chained};
ghost use Rattle.adjacency.specs.Linked.{IsFalling};
ghost use Rattle.adjacency.specs.Side.{number};

use crate::{Chains, Side, chain};
use std::marker::Model;

#[derive(Drop)]
pub struct ChainTables {
    head: [u32; model::STAGES_MAX],
    prev: [u32; model::EDGES_MAX],
    stages: usize,
    edges: usize,
}

impl Model for ChainTables {
    ghost use Rattle.std.specs.Prelude.{take};
    ghost use Rattle.adjacency.specs.Linked.{Fronts, Walkable};

    ghost Value = { Fronts };

    ghost view = { λ t. record { head = take t.stages t.head; prev = take t.edges t.prev } };

    ghost invariant = { λ t. Walkable t.stages t.edges t.head t.prev };
}

impl ChainTables {
    // Before any stage is chained.
    pub fn empty() -> Self
        ensures head { result.head ≡ [] }
        ensures prev { result.prev ≡ [] }
    {
        ChainTables {
            head: [0; model::STAGES_MAX],
            prev: [0; model::EDGES_MAX],
            stages: 0,
            edges: 0,
        }
    }

    // Chains the edges by their stage on one side, in place of those that were chained before.
    // Kept: how many edges there are beside the table of their ends, as `chain` has them.
    pub fn chain(&mut self, ends: &[u32], side: Side, edges: usize, stages: usize)
        requires ends_below { EndsBelow edges stages ends.now }
        requires edges_bound { edges ≤ 1024 }
        requires stages_bound { stages ≤ 256 }
        ensures { Chained ends.now (number side) edges stages self.new.head self.new.prev }
    {
        chain(ends, side, edges, stages, &mut self.head, &mut self.prev);
        self.stages = stages;
        self.edges = edges;
    }

    // The same as an answer, which is copied out of its tables: where time counts, a caller takes `empty` tables, and chains there.
    // Kept: how many edges there are beside the table of their ends, as `chain` has them.
    pub fn new(ends: &[u32], side: Side, edges: usize, stages: usize) -> Self
        requires ends_below { EndsBelow edges stages ends.now }
        requires edges_bound { edges ≤ 1024 }
        requires stages_bound { stages ≤ 256 }
        ensures { Chained ends.now (number side) edges stages result.head result.prev }
    {
        let mut tables = ChainTables::empty();
        tables.chain(ends, side, edges, stages);
        tables
    }

    // Of these all links lead to lower edges, since there is one for each edge and no other.
    pub fn chains(&self) -> Chains<'_>
        ensures head { result.head.now ≡ self.now.head }
        ensures falling { IsFalling result.prev.now }
        ensures prev { result.prev.now ≡ self.now.prev }
    {
        Chains::new(&self.head[..self.stages], &self.prev[..self.edges])
    }
}

#[cfg(test)]
mod tests {
    use super::*;

    #[test]
    fn links_lead_to_lower_edges(rt: HostRuntime) {
        let ends = [0, 2, 1, 2, 0, 1, 1, 2];
        let mut tables = ChainTables::empty();
        tables.chain(&ends, Side::Second, 4, 3);
        assert_eq!(rt; tables.chains().head, [0, 3, 4].as_slice());
        assert_eq!(rt; tables.chains().prev, [0, 1, 0, 2].as_slice());
        tables.chain(&ends, Side::First, 2, 3);
        assert_eq!(rt; tables.chains().head, [1, 2, 0].as_slice());
        assert_eq!(rt; tables.chains().prev, [0, 0].as_slice());
    }
}
