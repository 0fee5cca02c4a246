// A number as decimal digits (SPEC 6.2).
// It takes a number and counts its digits, or writes them to the front of an output that is long enough; bytes beyond them keep their content. The
// promises are equations with the model's `decimal`.
ghost use Rattle.std.specs.Prelude.{◌≡◌, ◌≤◌, length};
ghost use Rattle.model.specs.Lines.{decimal};
ghost use Rattle.text.specs.Writing.{Written};

// How many decimal digits a number has.
// Kept: comparisons, since with `checked_ilog10` a plan of short numbers takes a fifth longer to measure and a third longer to print.
#[tactic(auto, using(crate::proofs::DecimalDigits::digit_counts))]
pub fn width(n: u32) -> usize
    ensures digits { result ≡ length (decimal n) }
    ensures at_most_ten { result ≤ 10 }
{
    if n < 10 {
        1
    } else if n < 100 {
        2
    } else if n < 1000 {
        3
    } else if n < 10000 {
        4
    } else if n < 100000 {
        5
    } else if n < 1000000 {
        6
    } else if n < 10000000 {
        7
    } else if n < 100000000 {
        8
    } else if n < 1000000000 {
        9
    } else {
        10
    }
}

// Writes a number's digits.
#[tactic(auto, using(crate::proofs::DecimalDigits::same_decimal))]
pub fn write_number(n: u32, out: &mut [u8]) -> usize
    requires { length (decimal n) ≤ length out.old }
    ensures { Written (decimal n) out.old out.new result }
{
    let count = width(n);
    itoa::write_digits(u64::from(n), out, count);
    count
}
