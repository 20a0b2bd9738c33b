//! Plants with smaller units.
ghost use Rattle.std.specs.Prelude.{◌≡◌, ◌<◌, ◌≤ℤ◌, IfOk, length, slice_set};
ghost use Rattle.tree_parts.specs.problem_rules.Problem.{unit_at};
ghost use Rattle.tree_parts.specs.tree_laws.Capped.{IsCapped};

use std::alloc::{AllocError, Global};
use tree_parts::{Facts, OperatingUnit, Parts, Problem};

/// The size, put between the bounds of the unit.
fn size_within(unit: &OperatingUnit, size: i64) -> i64
    ensures { result ≤ℤ unit.now.upper }
{
    let size = if size < unit.lower { unit.lower } else { size };
    if size < unit.upper { size } else { unit.upper }
}

/// Writes the greatest size of a unit.
fn set_upper(parts: &mut Parts, u: u32, size: i64)
    requires { u < length parts.old.units }
    ensures { parts.new ≡ record parts.old
        { units = slice_set parts.old.units u (record (unit_at parts.old u) { upper = size }) } }
{
    let unit = &mut parts.units[u as usize];
    unit.upper = size;
}

/// The plant with the greatest size of each unit put down to the one that is known, or to its least
/// size if that is greater. `Err` comes if memory is refused.
pub fn capped(alloc: Global, problem: &Problem, facts: &Facts) -> Result<Problem, AllocError>
    ensures { IfOk result (IsCapped problem.now) }
{
    problem.is_valid();
    let count = problem.units().len() as u32;
    let mut parts = problem.parts(alloc)?;
    'capping: for u in 0..count {
        let size = size_within(&parts.units[u as usize], facts.most_of(u));
        set_upper(&mut parts, u, size);
    }
    match Problem::build(alloc, parts) {
        Ok(capped) => Ok(capped),
        // A valid plant stays valid, so only memory can be refused here.
        Err(_) => Err(AllocError),
    }
}
