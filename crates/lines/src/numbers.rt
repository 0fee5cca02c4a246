// The numbers of a line, field by field (SPEC 1.1, 1.2).
// It takes a text, a place, room for the numbers that the line has to have from there on and how many digits a number may have, and gives them with the
// place after the line, or none where the line has another form; the promise is by the model's `number` of each field.
ghost use Rattle.std.specs.Prelude.{◌≡◌, ◌≤◌, ◌<◌, ◌^◌, ℕ, length, map};
ghost use Rattle.lines.specs.Numbers.{number_step, numbers_read};

use fields::{FieldEnds, SheetReader};

// A number with the place after its field.
#[derive(Clone, Copy, Debug, PartialEq, Eq, Hash)]
pub struct Number {
    pub value: u64,
    pub next: usize,
}

// What the entries of a table of numbers are: how many digits a number may have that always fits one, and the number that one is.
pub trait Entry: Copy {
    ghost digits: { ℕ };

    ghost number: { Self → ℕ };

    fn of(value: u64) -> Self
        requires { value < 10 ^ digits }
        ensures { number result ≡ value };
}

impl Entry for u32 {
    ghost digits = { 9 };

    ghost number = { λ v. v };

    fn of(value: u64) -> u32 {
        value as u32
    }
}

impl Entry for u64 {
    ghost digits = { 19 };

    ghost number = { λ v. v };

    fn of(value: u64) -> u64 {
        value
    }
}

// The number at a place, in a field that the byte `stop` has to end: the field, its bytes, and the number that they denote.
#[tactic(auto, using(crate::proofs::FieldNumbers::field_within), unfolding(crate::specs::Numbers::number_step))]
pub fn field_number(text: &[u8], at: usize, stop: u8, width: usize) -> Option<Number>
    requires { width ≤ 19 }
    ensures { result ≡ number_step width text.now at stop }
{
    let Some(FieldEnds { from, to, next }) = SheetReader::open(text, at).next_field(stop) else {
        return None;
    };
    let value = numerals::digits::number(fields::field(text, from, to), width)?;
    Some(Number { value, next })
}

// As many numbers as asked for, from a place on: a comma ends each but the last, and byte 10 the last.
#[tactic(auto, using(crate::proofs::FieldNumbers::readings))]
pub fn field_numbers<T: Entry>(
    text: &[u8],
    at: usize,
    width: usize,
    values: &mut [T],
) -> Option<usize>
    requires some_values { 1 ≤ length values.old }
    requires fits { (width ≤ 19) × (width ≤ T.digits) }
    ensures { numbers_read width text.now at (length values.old) (map T.number values.new) result }
{
    let (last, front) = values.split_last_mut()?;
    let mut place = at;
    for slot in front {
        let Number { value, next } = field_number(text, place, b',', width)?;
        *slot = T::of(value);
        place = next;
    }
    let Number { value, next } = field_number(text, place, b'\n', width)?;
    *last = T::of(value);
    Some(next)
}
