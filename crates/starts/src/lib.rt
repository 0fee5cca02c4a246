// Start times and the finish (SPEC 3).
// Takes a sheet in tables, the chains of its edges by their second stage and its running order. Gives the table of starts (`start_times`), and from
// durations and starts the finish (`finish::finish_time`). Promises the model's `starts_table` and `finish` of whichever sheet without a closed path the
// tables hold.
// Stages get their starts in running order: `arrivals` has the step along an edge, `inputs` the walk over a stage's edges, `start_after` the step from the
// inputs' time to a start. Which kinds a stage has is asked of the room `kinds` alone.
#![tactic(auto)]

mod arrivals;
pub mod finish;
mod smallest;
mod stage_ends;

ghost use Rattle.std.specs.Prelude.{◌≡◌, ℕ, ◌<◌, ◌≤◌, length, slice_index};
ghost use Rattle.model.specs.Sheet as Sheet;
ghost use Rattle.model.specs.Sheet.{Sheet};
ghost use Rattle.model.specs.Starts.{inputs_by, start_after};
ghost use Rattle.model.specs.Tables.{starts_table};
ghost use Rattle.starts.specs.Entries.{entry, with_starts};
ghost use Rattle.starts.specs.Given.{StageGiven, Ordered};

use adjacency::Chains;
use model::SheetView;

// From the time when all inputs of a stage are there to its start: at once.
fn start_after(inputs: u32) -> u32
    ensures { (s : Sheet) → (j k : ℕ) → result ≡ start_after s j k inputs }
{
    inputs
}

// The same for each kind.
fn starts_after(times: &mut [u32])
    ensures { (s : Sheet) → (j k : ℕ) → k < length times.old → slice_index times.new k ≡ start_after s j k (slice_index times.old k) }
{
    for time in times {
        *time = start_after(*time);
    }
}

// When all inputs of stage j are there, for each kind: the largest along the chain of the edges to j, and 0 where there is none. Inlined, as `stage_starts`
// is, so that the constant of `starts_in_order` reaches the loops over kinds.
// Kept: view, chains and starts apart, here and below: chains are of one side of the edges, and starts are written between the walks.
#[inline(always)]
fn inputs(view: &SheetView, chains: &Chains, starts: &[u32], j: usize) -> [u32; 4]
    requires { (s : Sheet) × StageGiven s view.now chains.now starts.now j }
    ensures { (s : Sheet) → StageGiven s view.now chains.now starts.now j
        → (k : ℕ) → k < view.now.kinds → slice_index result k ≡ inputs_by s (entry starts.now) j k }
{
    let mut times = [0; 4];
    for e in chains.of(j) {
        crate::arrivals::later(view, starts, e, &mut times);
    }
    times
}

// Tables the starts of stage j.
#[inline(always)]
fn stage_starts(view: &SheetView, chains: &Chains, j: usize, starts: &mut [u32])
    requires { (s : Sheet) × StageGiven s view.now chains.now starts.old j }
    ensures { (s : Sheet) → StageGiven s view.now chains.now starts.old j → starts.new ≡ with_starts s j starts.old }
{
    let mut times = inputs(view, chains, starts, j);
    let row = &mut times[..view.kinds];
    starts_after(row);
    tables::store(row, starts, 4 * j);
}

// The table of starts, stage by stage in running order. The number of kinds is a constant, so that the compiler makes loops of their own for each number.
fn starts_in_order<const KINDS: usize>(
    view: &SheetView,
    chains: &Chains,
    order: &[u32],
    starts: &mut [u32],
)
    requires kinds_are { view.now.kinds ≡ KINDS }
    requires ordered { (s : Sheet) × Ordered s view.now chains.now order.now × (length order.now ≡ Sheet.stages s) }
    requires in_bounds { 1024 ≤ length starts.old }
    ensures { (s : Sheet) → Ordered s view.now chains.now order.now
        → length order.now ≡ Sheet.stages s → starts.new ≡ starts_table s starts.old }
{
    let view = SheetView {
        kinds: KINDS,
        ..*view
    };
    for &j in order {
        stage_starts(&view, chains, j as usize, &mut *starts);
    }
}

// The table of starts. `order` has the stages in running order and no more.
pub fn start_times(view: &SheetView, chains: &Chains, order: &[u32], starts: &mut [u32])
    requires ordered { (s : Sheet) × Ordered s view.now chains.now order.now × (length order.now ≡ Sheet.stages s) }
    requires in_bounds { 1024 ≤ length starts.old }
    ensures { (s : Sheet) → Ordered s view.now chains.now order.now
        → length order.now ≡ Sheet.stages s → starts.new ≡ starts_table s starts.old }
{
    match view.kinds {
        1 => starts_in_order::<1>(view, chains, order, starts),
        2 => starts_in_order::<2>(view, chains, order, starts),
        3 => starts_in_order::<3>(view, chains, order, starts),
        _ => starts_in_order::<4>(view, chains, order, starts),
    }
}
