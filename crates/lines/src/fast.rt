// The numbers of a line, of at most seven digits each, in one pass over its bytes where that finds them, and field by field where it doesn't.
// It takes what `crate::numbers::field_numbers` takes and promises the same, for seven digits. The pass doesn't look for fields first; it gives no answer where
// the line isn't plain: where fewer than eight bytes are left at a number, or one isn't a good one.
ghost use Rattle.std.specs.Prelude.{◌≡◌, ℕ, ◌<◌, ◌≤◌, length};
ghost use Rattle.numerals.specs.Numbers.{leading_answer};
ghost use Rattle.numerals.specs.Words.{ended_by};
ghost use Rattle.lines.specs.Numbers.{numbers_read};
ghost use Rattle.lines.specs.Fast.{front_read};

use numerals::digits::LeadingNumber;

// The number that eight bytes begin with, digit by digit, if the byte `stop` ends it.
fn leading_to(bytes: &[u8; 8], stop: u8) -> Option<LeadingNumber>
    ensures { result ≡ ended_by stop (leading_answer bytes.now) }
{
    numerals::digits::leading(bytes).filter(|number| number.after == stop)
}

// The numbers, each as `read` finds it in the eight bytes at its place: the number there, if the byte that it is handed ends it.
// It goes on in what is left of the text, so that one test a number finds whether eight bytes are.
fn front_by<F: Fn(&[u8; 8], u8) -> Option<LeadingNumber>>(
    text: &[u8],
    at: usize,
    values: &mut [u32],
    read: F,
) -> Option<usize>
    requires some_values { 1 ≤ length values.old }
    requires callable { (bytes : _) (stop : ℕ) → stop < 48 → F.pre read bytes stop }
    requires reads { (bytes : _) (stop : ℕ) (r : _) → stop < 48 → F.post read bytes stop r → r ≡ ended_by stop (leading_answer bytes.now) }
    ensures { front_read text.now at (length values.old) values.new result }
{
    let (last, front) = values.split_last_mut()?;
    let mut rest = text.get(at..)?;
    for slot in front {
        let LeadingNumber { value, next, .. } = read(rest.first_chunk()?, b',')?;
        *slot = value;
        rest = &rest[next..];
    }
    let LeadingNumber { value, next, .. } = read(rest.first_chunk()?, b'\n')?;
    *last = value;
    Some(text.len() - rest.len() + next)
}

// The way that suits the lengths of the numbers: digit by digit, or without a branch that depends on a number's length, which is faster where lengths can't be
// predicted. Both answer alike, so `uneven` changes nothing but the time.
// Kept: a flag and no closure: a line function for each way, chosen by the caller, would be two of every function between, and was slower on every sheet.
fn front(text: &[u8], at: usize, values: &mut [u32], uneven: bool) -> Option<usize>
    requires { 1 ≤ length values.old }
    ensures { front_read text.now at (length values.old) values.new result }
{
    if uneven {
        front_by(text, at, values, numerals::words::leading_before)
    } else {
        front_by(text, at, values, leading_to)
    }
}

// The numbers of a line. What the pass doesn't answer is decided field by field.
// Kept: a flag, which is handed on to `front`.
pub fn numbers(text: &[u8], at: usize, values: &mut [u32], uneven: bool) -> Option<usize>
    requires { 1 ≤ length values.old }
    ensures { numbers_read 7 text.now at (length values.old) values.new result }
{
    if let Some(next) = front(text, at, &mut *values, uneven) {
        return Some(next);
    }
    crate::numbers::field_numbers(text, at, 7, values)
}
