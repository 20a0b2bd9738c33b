//! Generated problems.
ghost use Rattle.std.specs.Prelude.{◌≡◌, ◌≤◌, IfOk};
ghost use Rattle.text_rules.specs.problem_rules.Validity.{IsValid};
ghost use Rattle.text_rules.specs.problem_rules.Generated.{generated, GeneratedIsValid};

use crate::draws::Draws;
use crate::materials::materials_of;
use crate::units::units_of;
use crate::{Parts, Problem};
use std::alloc::{AllocError, Global};
use text_rules::valid_is_well_formed;

/// The problem of this number with so many operating units, 1 to 128. The time is linear in the
/// units. Only the last 16 bits of the number count. The only refusal is out of memory.
pub fn generate(alloc: Global, number: u64, units: u32) -> Result<Problem, AllocError>
    requires some { 1 ≤ units }
    requires few { units ≤ 128 }
    ensures { IfOk result (λ problem. problem ≡ generated number units) }
{
    let mut draws = Draws::from_number(number);
    let count = units / 3;
    let materials = materials_of(alloc, count, &mut draws)?;
    let units = units_of(alloc, count, &mut draws, units)?;
    let exclusions = Vec::new(alloc);
    generated_is_valid();
    build_valid(
        alloc,
        Parts {
            materials,
            units,
            exclusions,
            payout: 1,
        },
    )
}

/// The problem of valid parts.
fn build_valid(alloc: Global, parts: Parts) -> Result<Problem, AllocError>
    requires { IsValid parts }
    ensures { IfOk result (λ problem. problem ≡ parts) }
{
    match Problem::build(alloc, parts) {
        Ok(problem) => Ok(problem),
        Err(fault) => {
            let memory = fault.is_memory();
            prove!(memory);
            Err(AllocError)
        }
    }
}

/// For each number and each count of 1 to 128 units the problem is valid. A call gives this to a
/// proof, and does nothing.
pub fn generated_is_valid()
    ensures { GeneratedIsValid }
{
    valid_is_well_formed();
}
