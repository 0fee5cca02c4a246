// The running order of a sheet (a topological order): of the stages that wait for no other any more, the one with the lowest number comes next. It says
// which sheets are circular (SPEC 8.3.7).
// Takes the ends of the edges with their chains by the first stage, and how many edges and stages there are. Gives the order, written from the front of a
// lent table, and whether the sheet is circular. Promises the model's `running_order` and `circular` of whichever sheet has these edges.
// Each edge is counted once and released once, and the search for the next stage (module `search`) looks at each stage once. So the work grows with
// stages and edges alone.
#![tactic(auto)]

mod search;

ghost use Rattle.std.specs.Prelude.{◌≡◌, ◌≤◌, length};
ghost use Rattle.model.specs.Sheet.{Sheet};
ghost use Rattle.model.specs.Paths.{running_order, circular};
ghost use Rattle.model.specs.Tables.{over};
ghost use Rattle.order.specs.Given.{Given};

use crate::search::Search;
use adjacency::Chains;

// Writes the running order from the front, and answers whether the sheet is circular: then no stage is ready before all are done.
// Kept: how many edges there are beside the table of their ends, as `adjacency::chain` has them.
pub fn running_order(
    ends: &[u32],
    edges: usize,
    stages: usize,
    chains: &Chains,
    order: &mut [u32],
) -> bool
    requires given { (s : Sheet) × Given s edges stages ends.now chains.now.head.now chains.now.prev.now }
    requires stages_in_bounds { stages ≤ length order.old }
    ensures { (s : Sheet) → Given s edges stages ends.now chains.now.head.now chains.now.prev.now
        → (result ≡ circular s) × (order.new ≡ over (running_order s) order.old) }
{
    let mut search = Search::new(ends, edges, stages);
    for slot in &mut order[..stages] {
        let Some(stage) = search.next_ready() else {
            return true;
        };
        *slot = stage as u32;
        search.mark_done(stage);
        search.release(ends, chains, stage);
    }
    false
}
