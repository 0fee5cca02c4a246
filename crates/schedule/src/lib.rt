// The schedule of a sheet in tables: its running order, starts, copies and boards, each layer after the other. Nothing is read or printed here.
// It takes K, N, M, the sheet's tables and its clearing times, and gives that the sheet is circular, or its finish, the boards of each kind and the number
// of copies, with the starts and the plan's rows in the tables that it is lent. The promises are the model's `circular`, `finish`, `starts_table`, `plan` and
// `board_counts` (specs/Says.antt).
#![tactic(auto)]

ghost use Rattle.std.specs.Prelude.{◌≡◌, ◌≤◌, length};
ghost use Rattle.model.specs.Sheet.{Sheet};
ghost use Rattle.model.specs.Starts.{finish};
ghost use Rattle.model.specs.Tables.{starts_table};
ghost use Rattle.model.specs.Held.{ClearingIn, SheetHeld};
ghost use Rattle.boards.specs.Placed.{PlanAssigned};
ghost use Rattle.schedule.specs.Given.{Ordered, Given};
ghost use Rattle.schedule.specs.Says.{says};

use adjacency::{ChainTables, Chains, Side};
use boards::Assigned;
use model::{ClearingTimes, SheetView, Sizes};

// The finish, how many boards of each kind are used, and how many copies there are.
#[derive(Clone, Copy, Debug, PartialEq, Eq, Hash)]
pub struct Scheduled {
    pub finish: u32,
    pub boards: [u32; model::KINDS_MAX],
    pub copies: usize,
}

// The starts of a sheet without a closed path, by its running order; gives the finish.
fn start_table(view: &SheetView, sizes: Sizes, order: &[u32], starts: &mut [u32]) -> u32
    requires ordered { (s : Sheet) × Ordered s view.now sizes order.now }
    requires in_bounds { 1024 ≤ length starts.old }
    ensures { (s : Sheet) → Ordered s view.now sizes order.now → (result ≡ finish s) × (starts.new ≡ starts_table s starts.old) }
{
    let mut tables = ChainTables::empty();
    tables.chain(view.ends, Side::Second, sizes.edges, sizes.stages);
    starts::start_times(view, &tables.chains(), order, &mut *starts);
    starts::finish::finish_time(view.kinds, view.durations, sizes.stages, starts)
}

// The copies of a sheet with its starts, as rows; gives how many there are and the boards of each kind that they use.
fn place_copies(
    view: &SheetView,
    chains: &Chains,
    order: &[u32],
    starts: &[u32],
    clearing: ClearingTimes,
    rows: &mut [u32],
) -> Assigned
    requires given { (s : Sheet) × Given s view.now chains.now order.now starts.now clearing }
    requires in_bounds { 4096 ≤ length rows.old }
    ensures { (s : Sheet) → Given s view.now chains.now order.now starts.now clearing → PlanAssigned s rows.old rows.new result }
{
    let mut copied = [0; model::COPIES_LEN];
    copies::choose_copies(view, chains, order, starts, &mut copied);
    boards::assign_boards(
        view.kinds,
        order.len(),
        view.durations,
        clearing,
        starts,
        &copied,
        rows,
    )
}

// Schedules the sheet that tables hold; none where it is circular.
// Kept: three tables beside the sizes: a view has K alone, since a caller of one room has no N and M, so K would stand twice.
pub fn schedule(
    sizes: Sizes,
    durations: &[u32],
    ends: &[u32],
    waits: &[u32],
    clearing: ClearingTimes,
    starts: &mut [u32],
    rows: &mut [u32],
) -> Option<Scheduled>
    requires sheet_held { (s : Sheet) × SheetHeld s sizes.kinds sizes.stages sizes.edges durations.now ends.now waits.now × ClearingIn s clearing }
    requires in_bounds { (1024 ≤ length starts.old) × (4096 ≤ length rows.old) }
    ensures { (s : Sheet) → SheetHeld s sizes.kinds sizes.stages sizes.edges durations.now ends.now waits.now → ClearingIn s clearing
        → says s starts.old starts.new rows.old rows.new result }
{
    let view = SheetView {
        kinds: sizes.kinds,
        durations,
        ends,
        waits,
    };
    let mut tables = ChainTables::empty();
    tables.chain(ends, Side::First, sizes.edges, sizes.stages);
    let chains = tables.chains();
    let mut order = [0; model::STAGES_MAX];
    if order::running_order(ends, sizes.edges, sizes.stages, &chains, &mut order) {
        return None;
    }
    let order = &order[..sizes.stages];
    let finish = start_table(&view, sizes, order, &mut *starts);
    let Assigned { copies, boards } = place_copies(&view, &chains, order, starts, clearing, rows);
    Some(Scheduled {
        finish,
        boards,
        copies,
    })
}
