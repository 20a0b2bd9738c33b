//! The order of mixed numbers.
ghost use Rattle.std.specs.Prelude.{◌≡◌};
ghost use Rattle.exact_numbers.specs.MixedOrder.{mixed_cmp};

use crate::compare_fractions;
use crate::number::Mixed;
use std::cmp::Ordering;

/// Compares the whole parts and, if they are equal, the fractions.
fn compare(left: &Mixed, right: &Mixed) -> Ordering
    ensures { result ≡ mixed_cmp left.now right.now }
{
    match left.whole.cmp(&right.whole) {
        Ordering::Equal => compare_fractions(left.rest, left.den, right.rest, right.den),
        decided => decided,
    }
}

impl Mixed {
    ghost use Rattle.std.specs.Prelude.{◌↔◌, ◌≤ℤ◌, ◌*ℤ◌, pos, IsTrue};
    ghost use Rattle.exact_numbers.specs.Number.{numerator, denominator};

    /// Whether it is at least num / den; den is at least 1.
    pub fn is_at_least(&self, num: i128, den: i128) -> bool
        requires { pos 1 ≤ℤ den }
        ensures { IsTrue result ↔ ((num *ℤ denominator self.now) ≤ℤ (numerator self.now *ℤ den)) }
    {
        compare(&Mixed::of(num, den), self).is_le()
    }
}

impl PartialEq for Mixed {
    ghost use Rattle.std.specs.Ordering.{eq_by_cmp};
    ghost use Rattle.std.specs.Cmp as Cmp;
    ghost use Rattle.exact_numbers.specs.MixedOrder.{mixed_cmp};
    ghost use Rattle.exact_numbers.specs.MixedOrderLaws.{mixed_cmp_total};

    ghost eq = { eq_by_cmp mixed_cmp };

    ghost laws = { Cmp.partial_equiv_from_equiv (Cmp.eq_by_cmp_equiv mixed_cmp_total) };

    fn eq(&self, other: &Mixed) -> bool {
        compare(self, other).is_eq()
    }
}

impl Eq for Mixed {
    ghost use Rattle.std.specs.Cmp as Cmp;
    ghost use Rattle.exact_numbers.specs.MixedOrderLaws.{mixed_cmp_total};

    ghost laws = { Cmp.eq_by_cmp_equiv mixed_cmp_total };
}

impl Ord for Mixed {
    ghost use Rattle.exact_numbers.specs.MixedOrder.{mixed_cmp};
    ghost use Rattle.exact_numbers.specs.MixedOrderLaws.{mixed_cmp_total};
    ghost use Rattle.std.specs.Prelude.{refl};

    ghost cmp = { mixed_cmp };

    ghost total = { mixed_cmp_total };

    ghost matches_partial_cmp = { λ x y. refl };

    ghost matches_eq = { λ x y. refl };

    /// Compares the two numbers. Their cross products need not be in range.
    fn cmp(&self, other: &Mixed) -> Ordering {
        compare(self, other)
    }
}

impl PartialOrd for Mixed {
    ghost use Rattle.exact_numbers.specs.MixedOrder.{mixed_cmp};
    ghost use Rattle.exact_numbers.specs.MixedOrderLaws.{mixed_cmp_total};
    ghost use Rattle.std.specs.Prelude.{refl, Some};
    ghost use Rattle.std.specs.Cmp.{partial_order_from_agreeing_total};

    ghost partial_cmp = { λ x y. Some (mixed_cmp x y) };

    ghost laws = { partial_order_from_agreeing_total mixed_cmp mixed_cmp_total (λ x y. refl)
        (λ x y. refl) };

    fn partial_cmp(&self, other: &Mixed) -> Option<Ordering> {
        Some(compare(self, other))
    }
}
