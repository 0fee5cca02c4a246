// Lines of a tag and numbers, read from a place of a text (SPEC 1.1, 1.2, 1.3): of a sheet, or of another text of such lines.
// It takes the text, a place, a tag and room for the numbers that the line has to have, and gives them with the place after the line, or none where the line
// has another form. The promise is by the model's `lines`. `line` is for numbers of at most seven digits and is fast; `wide_line` is for any width.
#![tactic(auto)]

pub mod fast;
pub mod numbers;

ghost use Rattle.std.specs.Prelude.{◌≡◌, ◌≤◌, length, slice_index};
ghost use Rattle.lines.specs.Lines.{has_tag, Tag, line_read};

// SPEC 1.3, 12.5: whether the two bytes at a place are the tag's.
#[tactic(auto, using(crate::proofs::Lines::tag_past, crate::proofs::Lines::tag_begins, crate::proofs::Lines::tag_bytes))]
pub fn tagged(text: &[u8], at: usize, tag: &[u8; 2]) -> bool
    ensures { result ≡ has_tag text.now at tag.now }
{
    text.get(at..).is_some_and(|rest| rest.starts_with(tag))
}

// The line at a place, if it has this tag and as many numbers as there are values, of at most seven digits each. `uneven` says whether the lengths of
// numbers vary too much to be predicted.
// Kept: a flag, which is handed on to the switch in `fast`.
#[tactic(auto, using(crate::proofs::Lines::tagged_within, crate::proofs::Lines::line_from, crate::proofs::Lines::line_other))]
pub fn line(
    text: &[u8],
    at: usize,
    tag: &[u8; 2],
    values: &mut [u32],
    uneven: bool,
) -> Option<usize>
    requires tag { Tag tag.now }
    requires some_values { 1 ≤ length values.old }
    ensures { line_read 7 text.now at (slice_index tag.now 0) (length values.old) values.new result }
{
    if tagged(text, at, tag) {
        crate::fast::numbers(text, at + 2, values, uneven)
    } else {
        None
    }
}

// The same for numbers of at most `width` digits.
// Kept: two functions of a test and a call. One over both would take the reading of the numbers as a closure, and be longer than they are.
#[tactic(auto, using(crate::proofs::Lines::tagged_within, crate::proofs::Lines::line_from, crate::proofs::Lines::line_other))]
pub fn wide_line(
    text: &[u8],
    at: usize,
    tag: &[u8; 2],
    width: usize,
    values: &mut [u64],
) -> Option<usize>
    requires tag { Tag tag.now }
    requires some_values { (1 ≤ length values.old) × (width ≤ 19) }
    ensures { line_read width text.now at (slice_index tag.now 0) (length values.old) values.new result }
{
    if tagged(text, at, tag) {
        crate::numbers::field_numbers(text, at + 2, width, values)
    } else {
        None
    }
}
