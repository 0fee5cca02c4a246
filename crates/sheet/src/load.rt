// The lines after the first two, read into tables (SPEC 1.5, 1.6, 1.7, 2.1).
// It takes the sheet, the place after these lines, K, N and M and tables of a call's own, and gives these with the sheet in them, or
// the first fault of 3 to 5: the model's `sheet_of` (`sheet_loaded`). The T lines and the E lines are each a loop over the lines of `judge`.
ghost use Rattle.std.specs.Prelude.{◌≡◌, List, ℕ, ◌+◌, ◌*◌, ◌<◌, ◌≤◌, length};
ghost use Rattle.model.specs.Faults.{answered};
ghost use Rattle.model.specs.Lines.{lines};
ghost use Rattle.model.specs.SheetText.{stage_line_at, edge_line_at, end_check};
ghost use Rattle.judge.specs.Judging.{AtLine, FirstLines};
ghost use Rattle.sheet.specs.Loading.{StagesRead, waits_stored, EdgesRead, sheet_loaded};

use model::{Fault, Sizes};

// Tables of the call's own: the lines go there first, so that a fault leaves the lent ones as they were.
#[derive(Drop)]
pub struct Loaded {
    pub durations: [u32; model::DURATIONS_LEN],
    pub ends: [u32; model::ENDS_LEN],
    pub waits: [u32; model::WAITS_LEN],
}

// The place after the line at a place, or the end of the sheet.
fn line_end(sheet: &[u8], at: usize) -> usize {
    let Some(rest) = sheet.get(at..) else {
        return sheet.len();
    };
    match rest.iter().position(|&b| b == b'\n') {
        Some(length) => at + length + 1,
        None => sheet.len(),
    }
}

// Whether lengths of numbers vary much from a line to the next, field by field, in so many bytes from a place on. Lengths that vary within a
// line and are the same in the next can be predicted. It promises nothing, as only time depends on it.
fn uneven(sheet: &[u8], at: usize, bytes: usize) -> bool {
    let mut above = at;
    let mut below = line_end(sheet, at);
    let mut fields: usize = 0;
    let mut longer: usize = 0;
    for _ in 0..bytes {
        let (Some(&upper), Some(&lower)) = (sheet.get(above), sheet.get(below)) else {
            break;
        };
        match (upper < b'0', lower < b'0') {
            (true, true) => {
                fields += 1;
                above += 1;
                below += 1;
            }
            (false, false) => {
                above += 1;
                below += 1;
            }
            (true, false) => {
                longer += 1;
                below += 1;
            }
            (false, true) => {
                longer += 1;
                above += 1;
            }
        }
    }
    longer > fields / 2
}

// The T lines, and their durations.
#[tactic(auto, using(crate::proofs::LinesSofar::stages_stop))]
fn stage_lines(sheet: &[u8], at: usize, sizes: Sizes, durations: &mut [u32]) -> Result<usize, Fault>
    requires in_bounds { 1024 ≤ length durations.old }
    requires at_line { AtLine sheet.now (stage_line_at 0) at }
    ensures { StagesRead sheet.now sizes.kinds sizes.stages durations.new result }
{
    let uneven = uneven(sheet, at, 32);
    let mut values = [0u32; 18];
    let mut place = at;
    for i in 0..sizes.stages {
        place = judge::stage_line(sheet, place, sizes.kinds, i, &mut values, uneven)?;
        tables::store(&values[1..1 + sizes.kinds], &mut *durations, 4 * i);
    }
    Ok(place)
}

// An edge's waits, row by row, from the values of its line.
#[tactic(auto, using(crate::proofs::StoredLines::row_begins, crate::proofs::StoredLines::waits_more, tables::proofs::Entries::stored_slice))]
fn store_waits(values: &[u32], kinds: usize, edge: usize, waits: &mut [u32])
    requires kinds_bound { (kinds ≤ 4) × (edge < 1024) }
    requires in_bounds { (18 ≤ length values.now) × (16 * edge + 16 ≤ length waits.old) }
    ensures { waits.new ≡ waits_stored values.now kinds edge kinds waits.old }
{
    for h in 0..kinds {
        let from = 2 + kinds * h;
        tables::store(&values[from..from + kinds], &mut *waits, 16 * edge + 4 * h);
    }
}

// The E lines, and their stages and waits.
#[tactic(auto, using(crate::proofs::LinesSofar::edges_stop))]
fn edge_lines(
    sheet: &[u8],
    at: usize,
    sizes: Sizes,
    ends: &mut [u32],
    waits: &mut [u32],
) -> Result<usize, Fault>
    requires in_bounds { (2048 ≤ length ends.old) × (16384 ≤ length waits.old) }
    requires at_line { AtLine sheet.now (edge_line_at sizes.stages 0) at }
    ensures { EdgesRead sheet.now sizes.kinds sizes.stages sizes.edges ends.new waits.new result }
{
    let uneven = uneven(sheet, at, 64);
    let mut values = [0u32; 18];
    let mut place = at;
    for e in 0..sizes.edges {
        place = judge::edge_line(
            sheet,
            place,
            sizes.kinds,
            sizes.stages,
            e,
            &mut values,
            uneven,
        )?;
        tables::store(&values[..2], &mut *ends, 2 * e);
        store_waits(&values, sizes.kinds, e, &mut *waits);
    }
    Ok(place)
}

// SPEC 1.7: the end of the sheet, or the line that is one too many.
#[tactic(auto, using(crate::proofs::LinesLeft::extra_bytes, crate::proofs::LinesLeft::nothing_left))]
fn sheet_end(sheet: &[u8], at: usize, sizes: Sizes) -> Result<(), Fault>
    requires { AtLine sheet.now (edge_line_at sizes.stages sizes.edges) at }
    ensures { answered result ≡ end_check (lines 7 sheet.now) sizes.stages sizes.edges }
{
    if at < sheet.len() {
        return Err(Fault::BadForm(judge::edge_line_at(sizes.stages, sizes.edges)));
    }
    Ok(())
}

// All lines after the first two of a sheet without edges, whatever tables are to have its edges.
// Kept: beside `lines_after`, since setting the tables of edges to 0 costs such a sheet about a tenth of its reading (docs/DECISIONS.md).
#[tactic(auto, using(crate::proofs::WholeSheet::whole_sheet))]
pub fn stages_alone(
    sheet: &[u8],
    at: usize,
    sizes: Sizes,
    durations: &mut [u32],
) -> Result<(), Fault>
    requires first_lines { FirstLines sheet.now sizes.kinds sizes.stages sizes.edges at }
    requires no_edges { sizes.edges ≡ 0 }
    requires in_bounds { 1024 ≤ length durations.old }
    ensures { (es ws : List ℕ) → 2048 ≤ length es → 16384 ≤ length ws
        → sheet_loaded sheet.now sizes.kinds sizes.stages sizes.edges durations.new es ws result }
{
    let place = stage_lines(sheet, at, sizes, durations)?;
    sheet_end(sheet, place, sizes)
}

// All lines after the first two.
#[tactic(auto, using(crate::proofs::WholeSheet::whole_sheet))]
pub fn lines_after(sheet: &[u8], at: usize, sizes: Sizes, loaded: &mut Loaded) -> Result<(), Fault>
    requires first_lines { FirstLines sheet.now sizes.kinds sizes.stages sizes.edges at }
    ensures { sheet_loaded sheet.now sizes.kinds sizes.stages sizes.edges loaded.new.durations loaded.new.ends loaded.new.waits result }
{
    let place = stage_lines(sheet, at, sizes, &mut loaded.durations)?;
    let place = edge_lines(sheet, place, sizes, &mut loaded.ends, &mut loaded.waits)?;
    sheet_end(sheet, place, sizes)
}
