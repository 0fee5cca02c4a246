// The lines of a sheet, read and judged one by one, each for 3, then for 4, then for 5 (SPEC 8.4).
// The room takes the sheet and a place in it and gives the place after the line that begins there, with its numbers, or the fault at its line; it
// promises the model's `header`, `clearing_line`, `stage_line` and `edge_line`, and by `clearing_line_at`, `stage_line_at` and `edge_line_at` which line is
// whose.
// Here the form is judged, 3; `ranges` judges the numbers, 4 and 5.
#![tactic(auto)]

pub mod ranges;

ghost use Rattle.std.specs.Prelude.{◌≡◌, ◌+◌, ◌<◌, ◌≤◌, length};
ghost use Rattle.model.specs.Sheet.{SizesInRange};
ghost use Rattle.model.specs.SheetText.{clearing_line_at, stage_line_at, edge_line_at};
ghost use Rattle.judge.specs.Judging.{AtLine, HeaderRead, ClearingRead, StageRead, EdgeRead};

use model::{ClearingTimes, Fault, Sizes};

// K, N, M and the place after the first line.
// Kept: a struct of its own beside `ClearingValues` and the numbers of `lines`, since its fields say what was read; of a generic one they would be values.
#[derive(Clone, Copy, Debug, PartialEq, Eq, Hash)]
pub struct HeaderValues {
    pub sizes: Sizes,
    pub next: usize,
}

// The clearing times and the place after their line.
#[derive(Clone, Copy, Debug, PartialEq, Eq, Hash)]
pub struct ClearingValues {
    pub times: ClearingTimes,
    pub next: usize,
}

// The line of the clearing times, counted from 1.
pub const CLEARING_LINE: u32 = 2;

// The line of a stage.
#[tactic(auto, unfolding(model::specs::SheetText::stage_line_at))]
pub fn stage_line_at(stage: usize) -> u32
    requires { stage ≤ 1280 }
    ensures { result ≡ stage_line_at stage }
{
    stage as u32 + 3
}

// The line of an edge of a sheet with so many stages: the E lines follow the T lines.
#[tactic(auto, unfolding(model::specs::SheetText::edge_line_at))]
pub fn edge_line_at(stages: usize, edge: usize) -> u32
    requires { (stages ≤ 256) × (edge ≤ 1024) }
    ensures { result ≡ edge_line_at stages edge }
{
    stage_line_at(stages + edge)
}

// `J,K,N,M`
pub fn header(sheet: &[u8]) -> Result<HeaderValues, Fault>
    ensures { HeaderRead sheet.now result }
{
    let mut values = [0u32; 3];
    let next = lines::line(sheet, 0, b"J,", &mut values, false).ok_or(Fault::BadForm(1))?;
    crate::ranges::header_values(&values, next)
}

// `G,g..`
pub fn clearing_line(sheet: &[u8], at: usize, kinds: usize) -> Result<ClearingValues, Fault>
    requires le_kinds { (1 ≤ kinds) × (kinds ≤ 4) }
    requires at_line { AtLine sheet.now clearing_line_at at }
    ensures { ClearingRead sheet.now kinds result }
{
    let mut values = [0u32; 4];
    let read = lines::line(sheet, at, b"G,", &mut values[..kinds], false);
    let next = read.ok_or(Fault::BadForm(CLEARING_LINE))?;
    crate::ranges::clearing_values(&values, kinds, next)
}

// `T,i,d..`, of stage i. Here and below `uneven` is `lines::line`'s.
// Kept: a flag, which is handed on to the switch in `lines::fast`.
pub fn stage_line(
    sheet: &[u8],
    at: usize,
    kinds: usize,
    stage: usize,
    values: &mut [u32],
    uneven: bool,
) -> Result<usize, Fault>
    requires kinds_bound { (kinds ≤ 4) × (stage < 256) }
    requires at_line { AtLine sheet.now (stage_line_at stage) at }
    requires in_bounds { 18 ≤ length values.old }
    ensures { StageRead sheet.now kinds stage values.new result }
{
    let line = stage_line_at(stage);
    let read = lines::line(sheet, at, b"T,", &mut values[..1 + kinds], uneven);
    let next = read.ok_or(Fault::BadForm(line))?;
    crate::ranges::stage_values(values, kinds, stage as u32, line, next)
}

// `E,i,j,w..`, of edge e.
// Kept: a flag, which is handed on to the switch in `lines::fast`.
pub fn edge_line(
    sheet: &[u8],
    at: usize,
    kinds: usize,
    stages: usize,
    edge: usize,
    values: &mut [u32],
    uneven: bool,
) -> Result<usize, Fault>
    requires sizes_in_range { SizesInRange kinds stages (edge + 1) }
    requires at_line { AtLine sheet.now (edge_line_at stages edge) at }
    requires in_bounds { 18 ≤ length values.old }
    ensures { EdgeRead sheet.now kinds stages edge values.new result }
{
    let line = edge_line_at(stages, edge);
    let read = lines::line(sheet, at, b"E,", &mut values[..2 + kinds * kinds], uneven);
    let next = read.ok_or(Fault::BadForm(line))?;
    crate::ranges::edge_values(values, kinds, stages as u32, line, next)
}
