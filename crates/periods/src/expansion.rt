//! The expanded problem.
ghost use Rattle.std.specs.Prelude.{◌≡◌, IfOk};
ghost use Rattle.plan_laws.specs.problem_rules.Validity.{IsValid};
ghost use Rattle.plan_laws.specs.plan_rules.Expanded.{expanded};
ghost use Rattle.plan_laws.specs.plan_rules.Plan.{IsPlan};

use crate::materials::materials_of;
use crate::plan::Plan;
use crate::units::units_of;
use edit_scripts::{Parts, Problem};
use plan_laws::{expanded_is_valid, plans_are_short};
use std::alloc::{AllocError, Global};

/// The ordinary problem into which the problem and the plan are expanded. The only refusal is out
/// of memory.
pub fn expand(alloc: Global, problem: &Problem, plan: &Plan) -> Result<Problem, AllocError>
    requires { IsPlan problem.now plan.now }
    ensures { IfOk result (λ whole. whole ≡ expanded problem.now plan.now) }
{
    problem.is_valid();
    expanded_is_valid();
    plans_are_short();
    let materials = materials_of(alloc, problem, plan)?;
    let units = units_of(alloc, problem, plan.periods.len() as u32)?;
    let parts = problem.parts(alloc)?;
    build_valid(
        alloc,
        Parts {
            materials,
            units,
            exclusions: parts.exclusions,
            payout: parts.payout,
        },
    )
}

/// The problem of valid parts.
fn build_valid(alloc: Global, parts: Parts) -> Result<Problem, AllocError>
    requires { IsValid parts }
    ensures { IfOk result (λ problem. problem ≡ parts) }
{
    match Problem::build(alloc, parts) {
        Ok(problem) => Ok(problem),
        Err(fault) => {
            let memory = fault.is_memory();
            prove!(memory);
            Err(AllocError)
        }
    }
}
