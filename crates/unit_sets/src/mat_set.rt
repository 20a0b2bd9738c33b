ghost use Rattle.std.specs.Prelude.{◌≡◌, ◌<◌, ◌==◌, ◌↔◌, List, [], ◌∷◌, length, not, IsTrue};
ghost use Rattle.std.specs.Prelude.{IfSome, MatchOption};
ghost use Rattle.number_sets.specs.Sets.{has, first, with_number, kept, union, meet, minus};
ghost use Rattle.number_sets.specs.Sets.{IsWithin, IsSet};
ghost use Rattle.unit_sets.specs.Halves.{halves, IsHalves};

use crate::UnitSet;
use std::marker::Model;

/// A set of material numbers below 256. Contracts see it as the rising list of its numbers.
#[derive(Clone, Copy, Debug)]
pub struct MatSet {
    low: UnitSet,
    high: UnitSet,
}

impl Model for MatSet {
    ghost use Rattle.std.specs.Prelude.{List, ℕ};
    ghost use Rattle.unit_sets.specs.Halves.{halves, lows, highs, IsHalves};
    ghost use Rattle.unit_sets.specs.HalfInverse.{lows-halves, highs-halves};

    ghost Value = { List ℕ };

    ghost view = { λ s. halves s.low s.high };

    ghost invariant = { λ s. IsHalves s.low s.high };

    ghost inverse = { λ xs. record { low = lows xs; high = highs xs } };

    ghost inverse_ok = { λ a h i. record {
      low = lows-halves a.low a.high h.low.below i;
      high =
          highs-halves a.low a.high h.low.below i;
    } };
}

impl PartialEq for MatSet {
    ghost use Rattle.std.specs.Prelude.{bytes_eq};
    ghost use Rattle.std.specs.Cmp as Cmp;
    ghost use Rattle.std.specs.Cmp.Lexicographic.{nat_list_eq_equiv};

    ghost eq = { bytes_eq };

    ghost laws = { Cmp.partial_equiv_from_equiv nat_list_eq_equiv };

    fn eq(&self, other: &MatSet) -> bool {
        self.low == other.low && self.high == other.high
    }
}

impl Eq for MatSet {
    ghost use Rattle.std.specs.Cmp.Lexicographic.{nat_list_eq_equiv};

    ghost laws = { nat_list_eq_equiv };
}

fn joined(low: UnitSet, high: UnitSet) -> MatSet
    ensures value { result ≡ halves low high }
    ensures is { IsHalves low high }
{
    low.rises();
    high.rises();
    MatSet { low, high }
}

impl MatSet {
    /// The set without numbers.
    pub fn empty() -> MatSet
        ensures { result ≡ [] }
    {
        joined(UnitSet::empty(), UnitSet::empty())
    }

    /// The set with x.
    pub fn with(self, x: u32) -> MatSet
        requires { x < 256 }
        ensures { result ≡ with_number x self }
    {
        if x < 128 {
            joined(self.low.with(x), self.high)
        } else {
            joined(self.low, self.high.with(x - 128))
        }
    }

    /// The set without x.
    pub fn without(self, x: u32) -> MatSet
        requires { x < 256 }
        ensures { result ≡ kept (λ v. not (x == v)) self }
    {
        if x < 128 {
            joined(self.low.without(x), self.high)
        } else {
            joined(self.low, self.high.without(x - 128))
        }
    }

    /// Whether x is in the set.
    pub fn has(self, x: u32) -> bool
        requires { x < 256 }
        ensures { result ≡ has self x }
    {
        if x < 128 {
            self.low.has(x)
        } else {
            self.high.has(x - 128)
        }
    }

    /// The numbers of one set or both.
    pub fn union(self, other: MatSet) -> MatSet
        ensures { result ≡ union self other }
    {
        joined(self.low.union(other.low), self.high.union(other.high))
    }

    /// The numbers of both sets.
    pub fn meet(self, other: MatSet) -> MatSet
        ensures { result ≡ meet self other }
    {
        joined(self.low.meet(other.low), self.high.meet(other.high))
    }

    /// The numbers of this set that are not in the other.
    pub fn minus(self, other: MatSet) -> MatSet
        ensures { result ≡ minus self other }
    {
        joined(self.low.minus(other.low), self.high.minus(other.high))
    }

    /// Whether each number of this set is in the other.
    pub fn within(self, other: MatSet) -> bool
        ensures { IsTrue result ↔ IsWithin (has self) (has other) }
    {
        self.low.within(other.low) && self.high.within(other.high)
    }

    /// How many numbers the set has.
    pub fn count(self) -> u32
        ensures { result ≡ length self }
    {
        self.low.count() + self.high.count()
    }

    /// The least number, `None` exactly for the empty set.
    pub fn least(self) -> Option<u32>
        ensures { result ≡ first self }
    {
        match self.low.least() {
            Some(u) => Some(u),
            None => match self.high.least() {
                Some(v) => Some(v + 128),
                None => None,
            },
        }
    }

    /// Takes the least number out of the set and gives it. It is `None` exactly if the set is
    /// empty; then the set stays as it is.
    ///
    /// The contract also says, as that of `rises`, that the numbers of the set before the call and
    /// of the set after it rise and are below 256.
    pub fn take_least(&mut self) -> Option<u32>
        ensures taken { MatchOption result ((self.old ≡ []) × (self.new ≡ []))
            (λ x. self.old ≡ x ∷ self.new) }
        ensures below { IfSome result (λ x. x < 256) }
        ensures rises { IsSet 256 self.old }
        ensures left { IsSet 256 self.new }
    {
        if let Some(x) = self.low.take_least() {
            return Some(x);
        }
        let x = self.high.take_least()?;
        Some(x + 128)
    }

    /// Whether the set has no number.
    pub fn is_empty(self) -> bool
        ensures { IsTrue result ↔ (self ≡ []) }
    {
        self.low.is_empty() && self.high.is_empty()
    }

    /// Gives a caller's proof that the numbers of a set rise and are below 256.
    pub fn rises(self)
        ensures { IsSet 256 self }
    {
        let _low = self.low;
    }
}
