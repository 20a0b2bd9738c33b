ghost use Rattle.std.specs.Prelude.{◌≡◌, ◌<◌, ◌≤◌, ◌==◌, ◌↔◌, ℕ, List, [], ◌∷◌, length, nat_lt};
ghost use Rattle.std.specs.Prelude.{not, IsTrue, IfSome, IfNone, MatchOption};
ghost use Rattle.number_sets.specs.Sets.{has, first, with_number, kept, union, meet, minus};
ghost use Rattle.number_sets.specs.Sets.{mask_of, IsWithin, Avoids, IsSet};
ghost use Rattle.number_sets.specs.Options.{IsBetween, IsFirstOption, IsNextOption, IsLastOption};

use std::marker::Model;

/// A set of unit numbers below 128. Contracts see it as the rising list of its numbers.
#[derive(Clone, Copy, Debug)]
pub struct UnitSet {
    bits: u128,
}

impl Model for UnitSet {
    ghost use Rattle.std.specs.Prelude.{List, ℕ, ◌<◌, ◌^◌};
    ghost use Rattle.std.proofs.Common.{ap};
    ghost use Rattle.number_sets.specs.Sets.{mask_of};
    ghost use Rattle.unit_sets.specs.Masks.{members};
    ghost use Rattle.unit_sets.specs.MaskInverse.{mask_of-members};

    ghost Value = { List ℕ };

    ghost view = { λ s. members s.bits };

    ghost invariant = { λ s. s.bits < 2 ^ 128 };

    ghost inverse = { λ xs. record { bits = mask_of xs } };

    ghost inverse_ok = { λ a h. ap (λ n. record { bits = n }) (mask_of-members a.bits h) };
}

impl PartialEq for UnitSet {
    ghost use Rattle.std.specs.Prelude.{bytes_eq};
    ghost use Rattle.std.specs.Cmp as Cmp;
    ghost use Rattle.std.specs.Cmp.Lexicographic.{nat_list_eq_equiv};

    ghost eq = { bytes_eq };

    ghost laws = { Cmp.partial_equiv_from_equiv nat_list_eq_equiv };

    fn eq(&self, other: &UnitSet) -> bool {
        self.bits == other.bits
    }
}

impl Eq for UnitSet {
    ghost use Rattle.std.specs.Cmp.Lexicographic.{nat_list_eq_equiv};

    ghost laws = { nat_list_eq_equiv };
}

impl UnitSet {
    /// The set without numbers.
    pub fn empty() -> UnitSet
        ensures { result ≡ [] }
    {
        UnitSet { bits: 0 }
    }

    /// The set whose number is `bits`; unit u counts 2^u.
    pub fn from_bits(bits: u128) -> UnitSet
        ensures { mask_of result ≡ bits }
    {
        UnitSet { bits }
    }

    /// All numbers below n.
    pub fn below(n: u32) -> UnitSet
        requires { n ≤ 128 }
        ensures { (u : ℕ) → has result u ≡ nat_lt u n }
    {
        if n == 128 {
            UnitSet { bits: u128::MAX }
        } else {
            UnitSet { bits: (1 << n) - 1 }
        }
    }

    /// The number of the set; unit u counts 2^u.
    pub fn bits(self) -> u128
        ensures { result ≡ mask_of self }
    {
        self.bits
    }

    /// The set with u.
    pub fn with(self, u: u32) -> UnitSet
        requires { u < 128 }
        ensures { result ≡ with_number u self }
    {
        UnitSet {
            bits: self.bits | (1 << u),
        }
    }

    /// The set without u.
    pub fn without(self, u: u32) -> UnitSet
        requires { u < 128 }
        ensures { result ≡ kept (λ v. not (u == v)) self }
    {
        UnitSet {
            bits: self.bits & !(1 << u),
        }
    }

    /// Whether u is in the set.
    pub fn has(self, u: u32) -> bool
        requires { u < 128 }
        ensures { result ≡ has self u }
    {
        (self.bits >> u) & 1 == 1
    }

    /// The numbers of one set or both.
    pub fn union(self, other: UnitSet) -> UnitSet
        ensures { result ≡ union self other }
    {
        UnitSet {
            bits: self.bits | other.bits,
        }
    }

    /// The numbers of both sets.
    pub fn meet(self, other: UnitSet) -> UnitSet
        ensures { result ≡ meet self other }
    {
        UnitSet {
            bits: self.bits & other.bits,
        }
    }

    /// The numbers of this set that are not in the other.
    pub fn minus(self, other: UnitSet) -> UnitSet
        ensures { result ≡ minus self other }
    {
        UnitSet {
            bits: self.bits & !other.bits,
        }
    }

    /// Whether each number of this set is in the other.
    pub fn within(self, other: UnitSet) -> bool
        ensures { IsTrue result ↔ IsWithin (has self) (has other) }
    {
        self.bits & !other.bits == 0
    }

    /// How many numbers the set has.
    pub fn count(self) -> u32
        ensures { result ≡ length self }
    {
        self.bits.count_ones()
    }

    /// The least number, `None` exactly for the empty set.
    pub fn least(self) -> Option<u32>
        ensures { result ≡ first self }
    {
        if self.bits == 0 {
            None
        } else {
            Some(self.bits.trailing_zeros())
        }
    }

    /// Takes the least number out of the set and gives it. It is `None` exactly if the set is
    /// empty; then the set stays as it is.
    ///
    /// The contract also says, as that of `rises`, that the numbers of the set before the call and
    /// of the set after it rise and are below 128.
    pub fn take_least(&mut self) -> Option<u32>
        ensures taken { MatchOption result ((self.old ≡ []) × (self.new ≡ []))
            (λ u. self.old ≡ u ∷ self.new) }
        ensures below { IfSome result (λ u. u < 128) }
        ensures rises { IsSet 128 self.old }
        ensures left { IsSet 128 self.new }
    {
        let bits = self.bits;
        if bits == 0 {
            return None;
        }
        self.bits = bits & (bits - 1);
        Some(bits.trailing_zeros())
    }

    /// Whether the set has no number.
    pub fn is_empty(self) -> bool
        ensures { IsTrue result ↔ (self ≡ []) }
    {
        self.bits == 0
    }

    /// Gives a caller's proof that the numbers of a set rise and are below 128.
    pub fn rises(self)
        ensures { IsSet 128 self }
    {
        let _bits = self.bits;
    }

    /// The least non-empty set between the base and the base with free numbers, by the numbers of
    /// the sets. `None` exactly if both are empty.
    pub fn first_option(base: UnitSet, free: UnitSet) -> Option<UnitSet>
        requires { Avoids (has base) (has free) }
        ensures first { IfSome result (IsFirstOption base free) }
        ensures none { IfNone result ((base ≡ []) × (free ≡ [])) }
    {
        base.rises();
        free.rises();
        if !base.is_empty() {
            return Some(base);
        }
        match free.least() {
            Some(u) => Some(UnitSet::empty().with(u)),
            None => None,
        }
    }

    /// The set that comes next after this one, by the numbers of the sets, among those between the
    /// base and the base with free numbers. `None` exactly if this is the last.
    pub fn next_option(self, base: UnitSet, free: UnitSet) -> Option<UnitSet>
        requires apart { Avoids (has base) (has free) }
        requires between { IsBetween base free self }
        ensures next { IfSome result (IsNextOption base free self) }
        ensures last { IfNone result (IsLastOption base free self) }
    {
        base.rises();
        free.rises();
        // With all other bits set, adding 1 carries to the lowest free bit that is not set.
        let filled = self.bits | !free.bits;
        if filled == u128::MAX {
            return None;
        }
        Some(UnitSet {
            bits: ((filled + 1) & free.bits) | base.bits,
        })
    }
}
