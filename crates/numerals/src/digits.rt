// Numbers of the format (SPEC 1.2), digit by digit.
// `number` takes a field's bytes and the most digits that a number may have, and gives the value, or says that they are no number; `leading` takes eight bytes
// and gives the number of at most seven digits that they begin with. The promises are by the model's `number`.
ghost use Rattle.std.specs.Prelude.{◌≡◌, ◌≤◌};
ghost use Rattle.model.specs.Lines.{number};
ghost use Rattle.numerals.specs.Numbers.{DigitValue, leading_answer};

// SPEC 1.2, with `width` for seven, up to the 19 digits that 64 bits hold: the number that a field is, or that it is none.
#[tactic(auto, using(crate::proofs::Numbers::number_steps), unfolding(model::specs::Lines::digit))]
pub fn number(field: &[u8], width: usize) -> Option<u64>
    requires { width ≤ 19 }
    ensures { result ≡ number width field.now }
{
    if field.is_empty() || field.len() > width {
        return None;
    }
    let mut value: u64 = 0;
    for &b in field {
        if !b.is_ascii_digit() {
            return None;
        }
        value = 10 * value + u64::from(b - b'0');
    }
    if field.len() > 1 && field[0] == b'0' {
        return None;
    }
    Some(value)
}

// The number that bytes begin with, the byte after its digits, and the place after that byte.
#[derive(Clone, Copy, Debug, PartialEq, Eq, Hash)]
pub struct LeadingNumber {
    pub value: u32,
    pub next: usize,
    pub after: u8,
}

// What a decimal digit counts; of another byte a number above 9. One subtraction and one test for each byte.
// Kept: a number and no Option, since the callers' one test of it is whether it is above 9.
#[tactic(auto, using(crate::proofs::Numbers::digit_by_value))]
fn digit_value(b: u8) -> u32
    ensures { DigitValue b result }
{
    u32::from(b).wrapping_sub(48)
}

// The number that eight bytes begin with: what a field holds, found in one pass. The fixed length lets the compiler unroll the loop, and the
// second byte is judged before it, since only there a leading zero can show.
#[tactic(auto, using(crate::proofs::Leading::leading_steps))]
pub fn leading(window: &[u8; 8]) -> Option<LeadingNumber>
    ensures { result ≡ leading_answer window.now }
{
    let mut value = digit_value(window[0]);
    if value > 9 {
        return None;
    }
    let second = window[1];
    let tens = digit_value(second);
    if tens > 9 {
        return Some(LeadingNumber {
            value,
            next: 2,
            after: second,
        });
    }
    if value == 0 {
        return None;
    }
    value = 10 * value + tens;
    for i in 2..8 {
        let b = window[i];
        let digit = digit_value(b);
        // the more frequent case first, for speed (docs/DECISIONS.md, "The call `read`")
        if digit <= 9 {
            value = 10 * value + digit;
        } else {
            return Some(LeadingNumber {
                value,
                next: i + 1,
                after: b,
            });
        }
    }
    None
}
