// The layers between reading and printing, one by one, for the tests and the benchmark of rust/checks alone: no part of the product.
// Each function calls its layer's. Its contract is the layer's, or one over tables alone where the layer takes or gives structs (as in specs/Given.antt); a
// caller in Rust has to keep the `requires`, as `read` and the layers before it do.
#![tactic(auto)]

ghost use Rattle.std.specs.Prelude.{◌≡◌, ℕ, List, [], ◌∷◌, ◌≤◌, length};
ghost use Rattle.model.specs.Paths.{running_order, circular};
ghost use Rattle.model.specs.Sheet as Sheet;
ghost use Rattle.model.specs.Sheet.{Sheet};
ghost use Rattle.model.specs.Starts.{finish};
ghost use Rattle.model.specs.Boards.{plan};
ghost use Rattle.model.specs.PlanText.{refusal_text};
ghost use Rattle.model.specs.Tables.{starts_table, over};
ghost use Rattle.model.specs.Calls.{board_counts};
ghost use Rattle.model.specs.Held.{bit, copies_table, rows_of};
ghost use Rattle.adjacency.specs.Adjacency.{EndsBelow, Chained};
ghost use Rattle.order.specs.Given as Order;
ghost use Rattle.starts.specs.Given.{Started};
ghost use Rattle.boards.specs.Given as Boards;
ghost use Rattle.layer_exports.specs.Given.{ToStart, ToCopy};
ghost use Rattle.text.specs.Writing.{Written};
ghost use Rattle.plan_text.specs.Rows.{tabled_text, Printable};
ghost use Rattle.plan_text.specs.TabledPlan.{printed, IsPrintable};

use adjacency::{Chains, Side};
use model::SheetView;
use plan_text::TabledPlan;

// Kept: the side as a number, 0 or 1, since a number from C may be none of the enum's.
#[unsafe(no_mangle)]
pub extern "C" fn layers_chain(
    ends: &[u32],
    side: usize,
    edges: usize,
    stages: usize,
    head: &mut [u32],
    prev: &mut [u32],
)
    requires ends_below { EndsBelow edges stages ends.now }
    requires side_bound { (side ≤ 1) × (edges ≤ 1024) }
    requires stages_in_bounds { (stages ≤ length head.old) × (edges ≤ length prev.old) }
    ensures { Chained ends.now side edges stages head.new prev.new }
{
    let side = if side == 0 { Side::First } else { Side::Second };
    adjacency::chain(ends, side, edges, stages, head, prev)
}

// The chains of a sheet's stages, in tables that may be longer than their use.
fn fronts<'a>(head: &'a [u32], prev: &'a [u32], stages: usize) -> Chains<'a>
    requires { (ends : List ℕ) × (side m : ℕ) × Chained ends side m stages head.now prev.now }
    ensures { (ends : List ℕ) (side m : ℕ) → Chained ends side m stages head.entry.now prev.entry.now
        → Chained ends side m stages result.head.now result.prev.now }
{
    Chains::new(&head[..stages], prev)
}

// 1 where the edges contain a closed path, 0 where they don't.
// Kept: a number and no bool, as rust/checks declares the function.
#[unsafe(no_mangle)]
pub extern "C" fn layers_running_order(
    ends: &[u32],
    edges: usize,
    stages: usize,
    head: &[u32],
    prev: &[u32],
    order: &mut [u32],
) -> u32
    requires given { (s : Sheet) × Order.Given s edges stages ends.now head.now prev.now }
    requires stages_in_bounds { stages ≤ length order.old }
    ensures { (s : Sheet) → Order.Given s edges stages ends.now head.now prev.now
        → (result ≡ bit (circular s)) × (order.new ≡ over (running_order s) order.old) }
{
    order::running_order(ends, edges, stages, &fronts(head, prev, stages), order).into()
}

#[unsafe(no_mangle)]
pub extern "C" fn layers_start_times(
    kinds: usize,
    stages: usize,
    durations: &[u32],
    ends: &[u32],
    waits: &[u32],
    head: &[u32],
    prev: &[u32],
    order: &[u32],
    starts: &mut [u32],
)
    requires ordered { (s : Sheet) × ToStart s kinds durations.now ends.now waits.now head.now prev.now order.now × (stages ≡ Sheet.stages s) }
    requires in_bounds { 1024 ≤ length starts.old }
    ensures { (s : Sheet) → ToStart s kinds durations.now ends.now waits.now head.now prev.now order.now
        → stages ≡ Sheet.stages s → starts.new ≡ starts_table s starts.old }
{
    let view = SheetView {
        kinds,
        durations,
        ends,
        waits,
    };
    starts::start_times(&view, &fronts(head, prev, stages), &order[..stages], starts)
}

#[unsafe(no_mangle)]
pub extern "C" fn layers_finish_time(
    kinds: usize,
    stages: usize,
    durations: &[u32],
    starts: &[u32],
) -> u32
    requires { (s : Sheet) × Started s kinds durations.now stages starts.now }
    ensures { (s : Sheet) → Started s kinds durations.now stages starts.now → result ≡ finish s }
{
    starts::finish::finish_time(kinds, durations, stages, starts)
}

#[unsafe(no_mangle)]
pub extern "C" fn layers_choose_copies(
    kinds: usize,
    durations: &[u32],
    ends: &[u32],
    waits: &[u32],
    head: &[u32],
    prev: &[u32],
    order: &[u32],
    starts: &[u32],
    copied: &mut [u8],
)
    requires ordered { (s : Sheet) × ToCopy s kinds durations.now ends.now waits.now head.now prev.now order.now starts.now }
    requires in_bounds { 1024 ≤ length copied.old }
    ensures { (s : Sheet) → ToCopy s kinds durations.now ends.now waits.now head.now prev.now
        order.now starts.now → copied.new ≡ copies_table s copied.old }
{
    let view = SheetView {
        kinds,
        durations,
        ends,
        waits,
    };
    copies::choose_copies(
        &view,
        &fronts(head, prev, order.len()),
        order,
        starts,
        copied,
    )
}

#[unsafe(no_mangle)]
pub extern "C" fn layers_assign_boards(
    kinds: usize,
    stages: usize,
    durations: &[u32],
    clear_0: u32,
    clear_1: u32,
    clear_2: u32,
    clear_3: u32,
    starts: &[u32],
    copied: &[u8],
    rows: &mut [u32],
    counts: &mut [u32],
) -> usize
    requires given { (s : Sheet) × Boards.Given s kinds stages durations.now (clear_0 ∷ clear_1 ∷ clear_2 ∷ clear_3 ∷ []) starts.now copied.now }
    requires in_bounds { (4096 ≤ length rows.old) × (length counts.old ≡ 4) }
    ensures { (s : Sheet)
        → Boards.Given s kinds stages durations.now (clear_0 ∷ clear_1 ∷ clear_2 ∷ clear_3 ∷ []) starts.now copied.now
        → (result ≡ length (plan s)) × (rows.new ≡ over (rows_of (plan s)) rows.old) × (counts.new ≡ board_counts s) }
{
    let clearing = [clear_0, clear_1, clear_2, clear_3];
    let assigned = boards::assign_boards(kinds, stages, durations, clearing, starts, copied, rows);
    counts.copy_from_slice(&assigned.boards);
    assigned.copies
}

// The plan in tables of which the first rows are in use.
fn plan_in_use<'a>(
    kinds: usize,
    durations: &'a [u32],
    finish: u32,
    counts: &[u32],
    rows: &'a [u32],
    copies: usize,
) -> TabledPlan<'a>
    requires { Printable kinds durations.now finish counts.now rows.now copies }
    ensures printable { IsPrintable result }
    ensures text { printed result ≡ tabled_text kinds durations.entry.now finish counts.now rows.entry.now copies }
{
    TabledPlan {
        kinds,
        durations,
        finish,
        counts: [counts[0], counts[1], counts[2], counts[3]],
        rows: &rows[..4 * copies],
    }
}

#[unsafe(no_mangle)]
pub extern "C" fn layers_plan_length(
    kinds: usize,
    durations: &[u32],
    finish: u32,
    counts: &[u32],
    rows: &[u32],
    copies: usize,
) -> usize
    requires { Printable kinds durations.now finish counts.now rows.now copies }
    ensures { result ≡ length (tabled_text kinds durations.now finish counts.now rows.now copies) }
{
    plan_in_use(kinds, durations, finish, counts, rows, copies).length()
}

#[unsafe(no_mangle)]
pub extern "C" fn layers_write_plan(
    kinds: usize,
    durations: &[u32],
    finish: u32,
    counts: &[u32],
    rows: &[u32],
    copies: usize,
    out: &mut [u8],
) -> usize
    requires printable { Printable kinds durations.now finish counts.now rows.now copies }
    requires copies_in_bounds { length (tabled_text kinds durations.now finish counts.now rows.now copies) ≤ length out.old }
    ensures { Written (tabled_text kinds durations.now finish counts.now rows.now copies)
        out.old out.new result }
{
    plan_in_use(kinds, durations, finish, counts, rows, copies).print(out)
}

#[unsafe(no_mangle)]
pub extern "C" fn layers_refusal_length(number: u32, line: u32) -> usize
    ensures { result ≡ length (refusal_text number line) }
{
    plan_text::refusal::refusal_length(number, line)
}

#[unsafe(no_mangle)]
pub extern "C" fn layers_write_refusal(number: u32, line: u32, out: &mut [u8]) -> usize
    requires { length (refusal_text number line) ≤ length out.old }
    ensures { Written (refusal_text number line) out.old out.new result }
{
    plan_text::refusal::write_refusal(number, line, out)
}
