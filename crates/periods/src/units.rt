//! The units of an expanded problem.
ghost use Rattle.std.specs.Prelude.{◌≡◌, ◌∷◌, [], ◌++◌, ◌<◌, ◌≤◌, IfOk, OnOk, length, map};
ghost use Rattle.std.specs.List.{range_with_len};
ghost use Rattle.plan_laws.specs.problem_rules.Each.{Each};
ghost use Rattle.plan_laws.specs.problem_rules.Problem.{unit_at};
ghost use Rattle.plan_laws.specs.problem_rules.WellFormed.{IsWellFormedTerm};
ghost use Rattle.plan_laws.specs.plan_rules.Expanded.{first_of, capacity_of, at_rate_one, built};
ghost use Rattle.plan_laws.specs.plan_rules.Expanded.{built_units};
ghost use Rattle.plan_laws.specs.plan_rules.Expanded.{side_in, running, period_units, units_of};

use crate::number::{at_rate_one, numbered, numbered_in};
use edit_scripts::{OperatingUnit, Problem, Term};
use std::alloc::{AllocError, Global};

/// The number of the first material of a period.
fn first_of(problem: &Problem, period: u32) -> u32
    requires { period ≤ 256 }
    ensures value { result ≡ first_of problem.now period }
    ensures few { result ≤ 100000 }
{
    problem.is_valid();
    let units = problem.units().len() as u32;
    let materials = problem.materials().len() as u32;
    units + period * (materials + units)
}

/// The number of the capacity of a unit in a period.
fn capacity_of(problem: &Problem, period: u32, unit: u32) -> u32
    requires few { period ≤ 256 }
    requires known { unit < length problem.now.units }
    ensures { result ≡ capacity_of problem.now period unit }
{
    problem.is_valid();
    first_of(problem, period) + problem.materials().len() as u32 + unit
}

fn capacities_of(
    alloc: Global,
    problem: &Problem,
    periods: u32,
    unit: u32,
) -> Result<Vec<Term>, AllocError>
    requires few { periods ≤ 256 }
    requires known { unit < length problem.now.units }
    ensures { IfOk result
        (λ v. v.items ≡ map (λ t. at_rate_one (capacity_of problem.now t unit))
        (range_with_len 0 periods)) }
{
    let mut terms = Vec::new(alloc);
    'making: for period in 0..periods {
        terms.push(at_rate_one(capacity_of(problem, period, unit)))?;
    }
    Ok(terms)
}

fn one_term(alloc: Global, material: u32) -> Result<Vec<Term>, AllocError>
    ensures { IfOk result (λ v. v.items ≡ at_rate_one material ∷ []) }
{
    let mut terms = Vec::new(alloc);
    terms.push(at_rate_one(material))?;
    Ok(terms)
}

/// The unit that builds a unit for so many periods.
fn built(
    alloc: Global,
    problem: &Problem,
    periods: u32,
    unit: u32,
) -> Result<OperatingUnit, AllocError>
    requires few { periods ≤ 256 }
    requires known { unit < length problem.now.units }
    ensures { IfOk result (λ u. u ≡ built problem.now periods unit) }
{
    let name = numbered(alloc, "b", unit)?;
    let inputs = one_term(alloc, unit)?;
    let outputs = capacities_of(alloc, problem, periods, unit)?;
    let source = &problem.units()[unit as usize];
    Ok(OperatingUnit {
        name,
        lower: source.lower,
        upper: source.upper,
        fix: source.fix,
        proportional: source.proportional,
        investment_fix: source.investment_fix,
        investment_proportional: source.investment_proportional,
        inputs,
        outputs,
    })
}

/// A side of a unit in a period.
fn side_in(
    alloc: Global,
    problem: &Problem,
    period: u32,
    terms: &[Term],
) -> Result<Vec<Term>, AllocError>
    requires few { period ≤ 256 }
    requires known { Each (IsWellFormedTerm (length problem.now.materials)) terms.now }
    ensures { IfOk result (λ v. v.items ≡ side_in problem.now period terms.now) }
{
    problem.is_valid();
    let first = first_of(problem, period);
    let mut moved = Vec::new(alloc);
    'moving: for term in terms {
        moved.push(Term {
            material: first + term.material,
            rate: term.rate,
        })?;
    }
    Ok(moved)
}

/// A unit as it runs in a period.
fn running(
    alloc: Global,
    problem: &Problem,
    period: u32,
    unit: u32,
) -> Result<OperatingUnit, AllocError>
    requires few { period < 256 }
    requires known { unit < length problem.now.units }
    ensures { IfOk result (λ u. u ≡ running problem.now period unit) }
{
    problem.is_valid();
    let name = numbered_in(alloc, "u", unit, period)?;
    let source = &problem.units()[unit as usize];
    let mut inputs = side_in(alloc, problem, period, &source.inputs)?;
    inputs.push(at_rate_one(capacity_of(problem, period, unit)))?;
    let outputs = side_in(alloc, problem, period, &source.outputs)?;
    Ok(OperatingUnit {
        name,
        lower: 0,
        upper: source.upper,
        fix: 0,
        proportional: 0,
        investment_fix: 0,
        investment_proportional: 0,
        inputs,
        outputs,
    })
}

fn built_units(
    alloc: Global,
    problem: &Problem,
    periods: u32,
) -> Result<Vec<OperatingUnit>, AllocError>
    requires { periods ≤ 256 }
    ensures { IfOk result (λ v. v.items ≡ built_units problem.now periods) }
{
    problem.is_valid();
    let mut units = Vec::new(alloc);
    let count = problem.units().len() as u32;
    'building: for unit in 0..count {
        units.push(built(alloc, problem, periods, unit)?)?;
    }
    Ok(units)
}

fn push_period(
    alloc: Global,
    units: &mut Vec<OperatingUnit>,
    problem: &Problem,
    period: u32,
) -> Result<(), AllocError>
    requires { period < 256 }
    ensures { OnOk result (units.new.items ≡ units.old.items ++ period_units problem.now period) }
{
    problem.is_valid();
    let count = problem.units().len() as u32;
    'running: for unit in 0..count {
        units.push(running(alloc, problem, period, unit)?)?;
    }
    Ok(())
}

/// All units: those that build, and then, for each period, those that run.
pub(crate) fn units_of(
    alloc: Global,
    problem: &Problem,
    periods: u32,
) -> Result<Vec<OperatingUnit>, AllocError>
    requires { periods ≤ 256 }
    ensures { IfOk result (λ v. v.items ≡ units_of problem.now periods) }
{
    let mut units = built_units(alloc, problem, periods)?;
    'copying: for period in 0..periods {
        push_period(alloc, &mut units, problem, period)?;
    }
    Ok(units)
}
