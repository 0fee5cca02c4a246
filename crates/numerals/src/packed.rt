// Bytes packed into one number, the first lowest: eight bytes as such a number, and the number that seven digits denote, one in each byte.
// It takes bytes, or a number of such digits; the promises are sums over the bytes (`word_of`, `decimal_of`).
ghost use Rattle.std.specs.Prelude.{◌≡◌};
ghost use Rattle.numerals.specs.Packed.{word_of, DigitBytes, decimal_of};

// Eight bytes as a number, the first lowest. The compiler makes one load of it.
pub fn word(window: &[u8; 8]) -> u64
    ensures { result ≡ word_of window.now }
{
    u64::from_le_bytes(*window)
}

// The number that seven digits denote, one in each byte, the first lowest: first in pairs, then in fours, then whole.
#[tactic(auto, using(crate::proofs::PackedBytes::decimal_joined))]
pub fn decimal(digits: u64) -> u32
    requires { DigitBytes 7 digits }
    ensures { result ≡ decimal_of 7 0 digits }
{
    let pairs = (digits * 2561) & 0x00ff00ff00ff00ff;
    let fours = pairs * 100 + pairs / 65536;
    (fours % 65536 * 10000 + fours / 4294967296 % 65536) as u32
}
