// The least common multiple in the symmetric range.
ghost use Rattle.std.specs.Prelude.{◌<ℤ◌, ℤ, pos, unsigned_abs, IfNone, IfSome};
ghost use Rattle.flow_program.specs.integer_laws.Range.{InRange};
ghost use Rattle.flow_program.specs.flow_rules.ReadFlows.{IsLcm};

use flow_program::{checked_product, lowest_terms};

/// The least common multiple; `None` exactly if it is out of range.
pub fn checked_lcm(a: i128, b: i128) -> Option<i128>
    requires a_in_range { InRange a }
    requires b_in_range { InRange b }
    requires a_positive { pos 0 <ℤ a }
    requires b_positive { pos 0 <ℤ b }
    ensures least { IfSome result (λ m. IsLcm (unsigned_abs a) (unsigned_abs b) (unsigned_abs m)) }
    ensures positive { IfSome result (λ m. pos 0 <ℤ m) }
    ensures in_range { IfSome result (λ m. InRange m) }
    ensures past { IfNone result
        ((m : ℤ) → IsLcm (unsigned_abs a) (unsigned_abs b) (unsigned_abs m) → ¬ InRange m) }
{
    let (_, part) = lowest_terms(a, b);
    checked_product(a, part)
}
