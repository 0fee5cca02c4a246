// The number that eight bytes begin with (SPEC 1.2), all bytes at once in one word.
// It takes the bytes and the byte that has to end the number, and gives what `crate::digits::leading` gives where that byte does (`ended_by`).
ghost use Rattle.std.specs.Prelude.{◌≡◌, ◌<◌};
ghost use Rattle.numerals.specs.Numbers.{leading_answer};
ghost use Rattle.numerals.specs.Words.{ended_by};

use crate::digits::LeadingNumber;

// The number that eight bytes begin with, if the byte `stop` ends it, without a branch that depends on its length: faster than `crate::digits::leading` where
// lengths can't be predicted. The length is guessed, from the first byte below `0`, as `stop` is, and then all bytes are judged at once.
pub fn leading_before(window: &[u8; 8], stop: u8) -> Option<LeadingNumber>
    requires { stop < 48 }
    ensures { result ≡ ended_by stop (leading_answer window.now) }
{
    let digits = crate::packed::word(window).wrapping_sub(0x3030303030303030);
    let others = digits & 0xff80808080808080;
    if others == 0 {
        return None;
    }
    let count = others.trailing_zeros() / 8;
    if count == 0 {
        return None;
    }
    // a leading zero, with a digit after it
    if digits % 256 + others % 65536 == 0 {
        return None;
    }
    // the last digit in the highest byte but one, and 0 for the byte `stop` in the highest
    let end = u64::from(stop.wrapping_sub(b'0')) << 56;
    let aligned = (digits << (56 - 8 * count)).wrapping_sub(end);
    let above = aligned.wrapping_add(0x0076767676767676);
    if above & 0xff80808080808080 != 0 {
        return None;
    }
    Some(LeadingNumber {
        value: crate::packed::decimal(aligned),
        next: count as usize + 1,
        after: stop,
    })
}
