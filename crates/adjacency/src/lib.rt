// The edges of each stage (adjacency lists), by their first or by their second stage: a chain for each stage, filled in linear time.
// Takes the ends of the edges. Gives for each stage 1 + the last of its edges, and for each edge 1 + the one before it in its chain, 0 where there is none.
// Promises `Chained` of the table of ends; it doesn't depend on which sheet they are of. `ChainTables` are tables for any sheet, chained. `Chains` walks the
// chains; what a walk of a chain passes is said by the laws of proofs/Adjacency.antt, and that the ends of a sheet's edges can be chained by `ends_below`.
#![tactic(auto)]

mod chains;
mod tables;

ghost use Rattle.std.specs.Prelude.{◌≤◌, length};
ghost use Rattle.adjacency.specs.Adjacency.{EndsBelow, Chained};
ghost use Rattle.adjacency.specs.Side.{number};

pub use chains::{Chain, Chains};
pub use tables::ChainTables;

// Of an edge's two stages.
#[derive(Clone, Copy)]
pub enum Side {
    First,
    Second,
}

// Chains the edges by their stage on one side.
// Kept: links in two lent tables, 1 + an edge or 0, and no list for each stage, since nothing is allocated (SPEC 8.9); and how many edges there are beside the
// table of their ends, since a table may be longer than its use (SPEC 2.3), and what it holds is said of all of it.
pub fn chain(
    ends: &[u32],
    side: Side,
    edges: usize,
    stages: usize,
    head: &mut [u32],
    prev: &mut [u32],
)
    requires ends_below { EndsBelow edges stages ends.now }
    requires edges_bound { edges ≤ 1024 }
    requires stages_in_bounds { (stages ≤ length head.old) × (edges ≤ length prev.old) }
    ensures { Chained ends.now (number side) edges stages head.new prev.new }
{
    head[..stages].fill(0);
    for e in 0..edges {
        let stage = ends[2 * e + side as usize] as usize;
        prev[e] = head[stage];
        head[stage] = e as u32 + 1;
    }
}
