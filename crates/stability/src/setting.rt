//! The problem with another value in the spot.
ghost use Rattle.std.specs.Prelude.{◌≡◌, IfOk};
ghost use Rattle.stability_laws.specs.problem_rules.Validity.{IsValid};
ghost use Rattle.stability_laws.specs.report_rules.Spot.{KnowsSpot, value_at, valued};
ghost use Rattle.stability_laws.specs.report_rules.Spot.{IsAllowedValue};

use solver::Problem;
use stability_laws::{Spot, valued_is_valid};
use std::alloc::{AllocError, Global};

/// Sets the value in the spot, in millionths. It takes no memory.
pub(crate) fn set(problem: &mut Problem, spot: Spot, value: i64)
    requires known { KnowsSpot problem.old spot }
    requires valid { IsValid (valued problem.old spot value) }
    ensures { problem.new ≡ valued problem.old spot value }
{
    match spot {
        Spot::Price(x) => problem.set_price(x, value),
        Spot::Fix(u) => problem.set_fix(u, value),
        Spot::Proportional(u) => problem.set_proportional(u, value),
    }
}

/// The value that the problem has in the spot, in millionths.
pub fn value_at(problem: &Problem, spot: Spot) -> i64
    requires { KnowsSpot problem.now spot }
    ensures { result ≡ value_at problem.now spot }
{
    match spot {
        Spot::Price(x) => {
            let material = &problem.materials()[x as usize];
            material.price
        }
        Spot::Fix(u) => {
            let unit = &problem.units()[u as usize];
            unit.fix
        }
        Spot::Proportional(u) => {
            let unit = &problem.units()[u as usize];
            unit.proportional
        }
    }
}

/// The problem with this value, in millionths, in the spot, and all else as it is. It fails only if
/// memory is refused.
pub fn valued(
    alloc: Global,
    problem: &Problem,
    spot: Spot,
    value: i64,
) -> Result<Problem, AllocError>
    requires known { KnowsSpot problem.now spot }
    requires allowed { IsAllowedValue spot value }
    ensures { IfOk result (λ other. other ≡ valued problem.now spot value) }
{
    problem.is_valid();
    valued_is_valid();
    let mut other = problem.copy(alloc)?;
    set(&mut other, spot, value);
    Ok(other)
}
