// Sets of numbers in words of 64 bits, a bit for each number (a bit set).
// A set tells whether it has a number and which is its lowest, and takes numbers in and lets them go. Its promises are over the set of its numbers, as
// `Model` has it, for as many words as there are.
#![tactic(auto)]

ghost use Rattle.std.specs.Prelude.{◌≡◌, ℕ, ◌*◌, ◌^◌, ◌<◌, ◌≤◌, false, if◌then◌else◌, IfSome, MatchOption};
ghost use Rattle.std.specs.FinSet as finite;
ghost use Rattle.bitset.specs.Lowest.{IsLowest};

use std::marker::Model;

// A set of numbers below 64 × N.
#[derive(Drop)]
pub struct BitSet<const N: usize> {
    words: [u64; N],
}

impl<const N: usize> Model for BitSet<N> {
    ghost use Rattle.std.specs.Prelude.{◌*◌, ◌^◌, ◌≤◌};
    ghost use Rattle.std.specs.Coded.{coded_ℕ};
    ghost use Rattle.std.specs.FinSet as finite;
    ghost use Rattle.std.specs.Ordering.{nat_cmp};
    ghost use Rattle.bitset.specs.Bits.{numbers};

    ghost Value = { finite.FinSet nat_cmp };

    ghost coded = { finite.code coded_ℕ };

    ghost view = { λ s. numbers s.words };

    // Each number fits a usize.
    ghost invariant = { λ s. 64 * N ≤ 2 ^ 64 };
}

impl<const N: usize> BitSet<N> {
    #[tactic(auto, using(crate::proofs::Numbers::numbers_zeros))]
    pub fn new() -> Self
        requires { 64 * N ≤ 2 ^ 64 }
        ensures { result ≡ finite.empty }
    {
        BitSet { words: [0; N] }
    }

    #[tactic(auto, using(crate::proofs::Numbers::contained))]
    pub fn contains(&self, x: usize) -> bool
        requires { x < 64 * N }
        ensures { result ≡ finite.contains self.now x }
    {
        (self.words[x / 64] >> (x % 64)) & 1 == 1
    }

    #[tactic(auto, using(crate::proofs::Numbers::numbers_with))]
    pub fn insert(&mut self, x: usize)
        requires { x < 64 * N }
        ensures { self.new ≡ finite.insert self.old x }
    {
        self.words[x / 64] |= 1 << (x % 64);
    }

    // Takes in x where `joins` is true; nothing changes where it is false.
    // Kept: a flag, so that there is no branch: with one, plain Rust took 7.9 for 6.3 microseconds on some sheets (docs/DECISIONS.md, "The layers").
    #[tactic(auto, using(crate::proofs::Numbers::numbers_joined))]
    pub fn join(&mut self, x: usize, joins: bool)
        requires { x < 64 * N }
        ensures { self.new ≡ (if joins then finite.insert self.old x else self.old) }
    {
        self.words[x / 64] |= u64::from(joins) << (x % 64);
    }

    #[tactic(auto, using(crate::proofs::Numbers::numbers_without))]
    pub fn remove(&mut self, x: usize)
        requires { x < 64 * N }
        ensures { self.new ≡ finite.remove self.old x }
    {
        self.words[x / 64] &= !(1 << (x % 64));
    }

    // The lowest number of a set that has none below `from`.
    #[tactic(auto, using(crate::proofs::Numbers::none_more))]
    pub fn lowest(&self, from: usize) -> Option<usize>
        requires { (j : ℕ) → j < from → finite.contains self.now j ≡ false }
        ensures lowest { MatchOption result (self.now ≡ finite.empty) (IsLowest self.now) }
        ensures within { IfSome result (λ x. x < 64 * N) }
    {
        for w in from / 64..N {
            let word = self.words[w];
            if word != 0 {
                return Some(64 * w + word.trailing_zeros() as usize);
            }
        }
        None
    }
}
