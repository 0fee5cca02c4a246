// Sets of at most four kinds, each a number with a binary digit for each kind: sets are joined by `|` and met by `&`, and no branch depends on what is in them.
// Promises see a set as the finite set of its kinds, and speak of whichever sheet has these kinds.
ghost use Rattle.std.specs.Prelude.{◌≡◌, ℕ, ◌<◌, ◌≤◌, Bool, true, false, not, ◌==◌};
ghost use Rattle.std.specs.FinSet as finite;
ghost use Rattle.model.specs.Bounded.{some_below};
ghost use Rattle.model.specs.Sheet as Sheet;
ghost use Rattle.model.specs.Sheet.{Sheet};
ghost use Rattle.kinds.specs.Sets.{KindsOf};

use std::marker::Model;
use std::ops::{BitAnd, BitOr};

#[derive(Clone, Copy, Debug, PartialEq, Eq, Hash)]
pub struct KindSet {
    mask: u32,
}

impl Model for KindSet {
    ghost use Rattle.std.specs.Prelude.{◌<◌};
    ghost use Rattle.std.specs.Coded.{coded_ℕ};
    ghost use Rattle.std.specs.FinSet as finite;
    ghost use Rattle.std.specs.Ordering.{nat_cmp};
    ghost use Rattle.kinds.specs.Sets.{kinds_in, mask_of};
    ghost use Rattle.kinds.specs.Masks.{mask_of-kinds_in};

    ghost Value = { finite.FinSet nat_cmp };

    ghost coded = { finite.code coded_ℕ };

    ghost view = { λ s. kinds_in s.mask };

    ghost invariant = { λ s. s.mask < 16 };

    ghost inverse = { λ kinds. record { mask = mask_of kinds } };

    ghost inverse_ok = { λ s h i. record { mask = mask_of-kinds_in s.mask h i } };
}

impl KindSet {
    pub fn empty() -> Self
        ensures { result ≡ finite.empty }
    {
        KindSet { mask: 0 }
    }

    // The kinds that pass a test. Its answers are added up, without a branch.
    pub fn of<F: Fn(usize) -> bool>(test: F) -> Self
        requires { (h : ℕ) → h < 4 → F.pre test h }
        ensures passes { (h : ℕ) → h < 4 → F.post test h (finite.contains result h) }
        ensures few { (h : ℕ) → 4 ≤ h → finite.contains result h ≡ false }
    {
        KindSet {
            mask: u32::from(test(0))
                + 2 * u32::from(test(1))
                + 4 * u32::from(test(2))
                + 8 * u32::from(test(3)),
        }
    }

    // All kinds that a stage has.
    pub fn all(kinds: usize) -> Self
        requires { kinds ≤ 4 }
        ensures { (s : Sheet) → kinds ≡ s.kinds → (i : ℕ) → KindsOf s i (λ h. true) result }
    {
        KindSet::of(|h| crate::has_kind(kinds, h))
    }

    pub fn is_empty(self) -> bool
        ensures { result ≡ not (some_below 4 (finite.contains self)) }
    {
        self.mask == 0
    }

    pub fn contains(self, h: usize) -> bool
        requires { h < 4 }
        ensures { result ≡ finite.contains self h }
    {
        (self.mask >> h) & 1 == 1
    }

    // The preferred kind of a set, alone; of the empty set the empty one. Today it is the lowest.
    pub fn preferred(self) -> Self
        ensures { (s : Sheet) (i : ℕ) (p : ℕ → Bool) → KindsOf s i p self
            → (h : ℕ) → h < s.kinds → finite.contains result h ≡ (h == Sheet.preferred s i p) }
    {
        KindSet {
            mask: self.mask & (16 - self.mask),
        }
    }
}

impl BitAnd for KindSet {
    type Output = Self;

    ghost bitand_gives = { λ a b both. both ≡ finite.intersection a b };

    fn bitand(self, other: Self) -> Self {
        KindSet {
            mask: self.mask & other.mask,
        }
    }
}

impl BitOr for KindSet {
    type Output = Self;

    ghost bitor_gives = { λ a b either. either ≡ finite.union a b };

    fn bitor(self, other: Self) -> Self {
        KindSet {
            mask: self.mask | other.mask,
        }
    }
}
