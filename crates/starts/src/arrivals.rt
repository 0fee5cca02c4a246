// When an input is there (SPEC 3.2: the smallest sum over the kinds of its source).
// Takes the tables of a sheet and of starts, an edge whose first stage has its starts there, and a time for each kind. Gives for each kind the later of its
// time and the arrival along the edge; promised by the model's `arrival`, of whichever sheet has these tables, at the starts that the table has.
ghost use Rattle.std.specs.Prelude.{◌≡◌, ℕ, ◌+◌, ◌<◌, max, slice_index};
ghost use Rattle.model.specs.Sheet.{Sheet, dur, source, wait};
ghost use Rattle.model.specs.Starts.{arrival};
ghost use Rattle.starts.specs.Entries.{entry};
ghost use Rattle.starts.specs.Given.{EdgeTabled, SumTabled};

use crate::smallest;
use model::SheetView;

// When the input along edge e is there for a copy on kind k, if it comes from a copy on kind h.
fn arrival_from(view: &SheetView, starts: &[u32], e: usize, k: usize, h: usize) -> u32
    requires { (s : Sheet) × SumTabled s view.now starts.now e k h }
    ensures { (s : Sheet) → SumTabled s view.now starts.now e k h
        → result ≡ entry starts.now (source s e) h + dur s (source s e) h + wait s e h k }
{
    let i = view.ends[2 * e] as usize;
    let end = kinds::end_time(view.durations, starts, i, h);
    end + view.waits[16 * e + 4 * h + k]
}

// When it is there at the earliest.
fn arrival_time(view: &SheetView, starts: &[u32], e: usize, k: usize) -> u32
    requires edge_tabled { (s : Sheet) × EdgeTabled s view.now starts.now e }
    requires k_lt_kinds { k < view.now.kinds }
    ensures { (s : Sheet) → EdgeTabled s view.now starts.now e → result ≡ arrival s (entry starts.now) e k }
{
    smallest::smallest_over(view.kinds, |h| arrival_from(view, starts, e, k, h))
}

// The step along an edge: for each kind, the later of a time and the arrival along edge e.
pub fn later(view: &SheetView, starts: &[u32], e: usize, times: &mut [u32; 4])
    requires { (s : Sheet) × EdgeTabled s view.now starts.now e }
    ensures { (s : Sheet) → EdgeTabled s view.now starts.now e
        → (k : ℕ) → k < view.now.kinds → slice_index times.new k ≡ max (slice_index times.old k) (arrival s (entry starts.now) e k) }
{
    for k in 0..view.kinds {
        times[k] = times[k].max(arrival_time(view, starts, e, k));
    }
}
