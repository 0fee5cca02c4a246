// The lines after the first two into the lent tables, all or nothing (SPEC 2.1, 8.3).
// It takes the sheet, the place after two good lines with its K, N and M, and lent tables that are long enough, and gives a fault of 3 to 5 and
// leaves the tables as they were, or leaves the sheet in them and gives 6, or K, N and M: what the call `read` promises. Each line is read once, into
// tables of this module's own, which are copied to the lent ones after the last line is judged.
ghost use Rattle.std.specs.Prelude.{◌≡◌, true, List, ℕ, ◌≤◌, length};
ghost use Rattle.model.specs.Sheet.{Sheet};
ghost use Rattle.model.specs.Held.{SheetHeld};
ghost use Rattle.model.specs.Calls.{tables_of, long_enough};
ghost use Rattle.judge.specs.Judging.{FirstLines};
ghost use Rattle.sheet.specs.Answers.{ReadDone};
ghost use Rattle.sheet.specs.Commit.{HandedOver};

use crate::load::Loaded;
use model::{Fault, Sizes};

// From tables that hold a sheet to the lent ones, and the answer. The repeated edge is looked for in the former: measured, the lent ones take longer.
// Kept: three tables, each a lent slice (SPEC 12.1): a struct of three `&mut` slices would have to promise of each call that it keeps all three references.
fn hand_over(
    sizes: Sizes,
    loaded: &Loaded,
    durations: &mut [u32],
    ends: &mut [u32],
    waits: &mut [u32],
) -> Result<Sizes, Fault>
    requires sheet_held { (s : Sheet) × SheetHeld s sizes.kinds sizes.stages sizes.edges loaded.now.durations loaded.now.ends loaded.now.waits }
    requires in_bounds { (1024 ≤ length durations.old) × (2048 ≤ length ends.old) × (16384 ≤ length waits.old) }
    ensures { (s : Sheet) → SheetHeld s sizes.kinds sizes.stages sizes.edges loaded.now.durations loaded.now.ends loaded.now.waits
        → HandedOver s (tables_of durations.old ends.old waits.old)
        (tables_of durations.new ends.new waits.new) result }
{
    tables::copy_rows(&loaded.durations, 0, sizes.stages, sizes.kinds, durations);
    tables::copy_front(&loaded.ends[..2 * sizes.edges], ends);
    tables::copy_blocks(&loaded.waits, sizes.edges, sizes.kinds, waits);
    match crate::repeats::first_repeat(&loaded.ends, sizes.edges) {
        Some(edge) => Err(Fault::RepeatedEdge(judge::edge_line_at(sizes.stages, edge))),
        None => Ok(sizes),
    }
}

// The lines of a sheet without edges, whatever the other lent tables hold: such a sheet uses no entry of them, and none of its edges repeats one.
// Kept: beside `read_lines`, as `stages_alone` is beside `lines_after`.
#[tactic(auto, using(crate::proofs::LinesSofar::returned, crate::proofs::ReadCall::enough, crate::proofs::ReadCall::lines_refused))]
fn read_stages(sheet: &[u8], at: usize, sizes: Sizes, durations: &mut [u32]) -> Result<Sizes, Fault>
    requires short { length sheet.now ≤ 65000 }
    requires first_lines { FirstLines sheet.now sizes.kinds sizes.stages sizes.edges at }
    requires no_edges { sizes.edges ≡ 0 }
    requires in_bounds { 1024 ≤ length durations.old }
    ensures { (es ws : List ℕ) → 2048 ≤ length es → 16384 ≤ length ws
        → ReadDone sheet.now (tables_of durations.old es ws) (tables_of durations.new es ws) result }
{
    let mut own = [0u32; model::DURATIONS_LEN];
    crate::load::stages_alone(sheet, at, sizes, &mut own)?;
    tables::copy_rows(&own, 0, sizes.stages, sizes.kinds, durations);
    Ok(sizes)
}

// All lines after the first two, by way of tables for durations, ends and waits. A sheet without edges doesn't pay for the larger ones.
// Kept: the sheet, a place in it and its sizes apart, here and in `load`: the place moves on with each group of lines, and what is known of it with it.
// Kept: three tables, each a lent slice (SPEC 12.1): a struct of three `&mut` slices would have to promise of each call that it keeps all three references.
#[tactic(auto, using(crate::proofs::LinesSofar::returned, crate::proofs::ReadCall::tables_long, crate::proofs::ReadCall::lines_refused))]
pub fn read_lines(
    sheet: &[u8],
    at: usize,
    sizes: Sizes,
    durations: &mut [u32],
    ends: &mut [u32],
    waits: &mut [u32],
) -> Result<Sizes, Fault>
    requires short { length sheet.now ≤ 65000 }
    requires first_lines { FirstLines sheet.now sizes.kinds sizes.stages sizes.edges at }
    requires long_enough { long_enough (tables_of durations.old ends.old waits.old) ≡ true }
    ensures { ReadDone sheet.now (tables_of durations.old ends.old waits.old)
        (tables_of durations.new ends.new waits.new) result }
{
    if sizes.edges == 0 {
        return read_stages(sheet, at, sizes, durations);
    }
    let mut loaded = Loaded {
        durations: [0; model::DURATIONS_LEN],
        ends: [0; model::ENDS_LEN],
        waits: [0; model::WAITS_LEN],
    };
    crate::load::lines_after(sheet, at, sizes, &mut loaded)?;
    hand_over(sizes, &loaded, durations, ends, waits)
}
