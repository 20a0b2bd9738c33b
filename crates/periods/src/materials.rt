//! The materials of an expanded problem.
ghost use Rattle.std.specs.Prelude.{◌≡◌, ◌++◌, ◌<◌, ◌≤◌, IfOk, OnOk, length, map, flat_map};
ghost use Rattle.std.specs.List.{range_with_len};
ghost use Rattle.plan_laws.specs.problem_rules.Each.{Each};
ghost use Rattle.plan_laws.specs.plan_rules.Expanded.{site, copy, copies, capacity, capacities};
ghost use Rattle.plan_laws.specs.plan_rules.Expanded.{period_materials, materials_of};
ghost use Rattle.plan_laws.specs.plan_rules.Plan.{IsPeriod, IsPlan};

use crate::number::{UNLIMITED, numbered, numbered_in};
use crate::plan::{Period, Plan};
use edit_scripts::{Kind, Material, Problem};
use std::alloc::{AllocError, Global};

fn site(alloc: Global, unit: u32) -> Result<Material, AllocError>
    ensures { IfOk result (λ m. m ≡ site unit) }
{
    let name = numbered(alloc, "s", unit)?;
    Ok(Material {
        name,
        kind: Kind::RawMaterial,
        price: 0,
        lower: 0,
        upper: UNLIMITED,
    })
}

fn capacity(alloc: Global, period: u32, unit: u32) -> Result<Material, AllocError>
    requires { period < 1000 }
    ensures { IfOk result (λ m. m ≡ capacity period unit) }
{
    let name = numbered_in(alloc, "c", unit, period)?;
    Ok(Material {
        name,
        kind: Kind::Intermediate,
        price: 0,
        lower: 0,
        upper: UNLIMITED,
    })
}

/// A material of the plant at the prices and bounds of the period.
fn copy(
    alloc: Global,
    problem: &Problem,
    at: &Period,
    period: u32,
    number: u32,
) -> Result<Material, AllocError>
    requires known { number < length problem.now.materials }
    requires formed { IsPeriod (length problem.now.materials) at.now }
    requires few { period < 1000 }
    ensures { IfOk result (λ m. m ≡ copy problem.now at.now period number) }
{
    let name = numbered_in(alloc, "m", number, period)?;
    let j = number as usize;
    let material = &problem.materials()[j];
    Ok(Material {
        name,
        kind: material.kind,
        price: at.prices[j],
        lower: at.lowers[j],
        upper: at.uppers[j],
    })
}

fn sites(alloc: Global, units: u32) -> Result<Vec<Material>, AllocError>
    ensures { IfOk result (λ v. v.items ≡ map site (range_with_len 0 units)) }
{
    let mut materials = Vec::new(alloc);
    'building: for unit in 0..units {
        materials.push(site(alloc, unit)?)?;
    }
    Ok(materials)
}

fn push_copies(
    alloc: Global,
    materials: &mut Vec<Material>,
    problem: &Problem,
    at: &Period,
    period: u32,
) -> Result<(), AllocError>
    requires formed { IsPeriod (length problem.now.materials) at.now }
    requires few { period < 1000 }
    ensures { OnOk result
        (materials.new.items ≡ materials.old.items ++ copies problem.now at.now period) }
{
    problem.is_valid();
    let count = problem.materials().len() as u32;
    'copying: for number in 0..count {
        materials.push(copy(alloc, problem, at, period, number)?)?;
    }
    Ok(())
}

fn push_capacities(
    alloc: Global,
    materials: &mut Vec<Material>,
    problem: &Problem,
    period: u32,
) -> Result<(), AllocError>
    requires { period < 1000 }
    ensures { OnOk result
        (materials.new.items ≡ materials.old.items ++ capacities problem.now period) }
{
    problem.is_valid();
    let count = problem.units().len() as u32;
    'building: for unit in 0..count {
        materials.push(capacity(alloc, period, unit)?)?;
    }
    Ok(())
}

// Adds the materials of one period.
fn push_period(
    alloc: Global,
    materials: &mut Vec<Material>,
    problem: &Problem,
    at: &Period,
    period: u32,
) -> Result<(), AllocError>
    requires formed { IsPeriod (length problem.now.materials) at.now }
    requires few { period < 1000 }
    ensures { OnOk result
        (materials.new.items ≡ materials.old.items
        ++ (copies problem.now at.now period ++ capacities problem.now period)) }
{
    push_copies(alloc, materials, problem, at, period)?;
    push_capacities(alloc, materials, problem, period)
}

// Adds the materials of these periods.
fn push_periods(
    alloc: Global,
    materials: &mut Vec<Material>,
    problem: &Problem,
    periods: &[Period],
) -> Result<(), AllocError>
    requires formed { Each (IsPeriod (length problem.now.materials)) periods.now }
    requires few { length periods.now ≤ 256 }
    ensures { OnOk result
        (materials.new.items ≡ materials.old.items
        ++ flat_map (period_materials problem.now (record { periods = periods.now }))
        (range_with_len 0 (length periods.now))) }
{
    let mut t: u32 = 0;
    'copying: for at in periods {
        push_period(alloc, materials, problem, at, t)?;
        t += 1;
    }
    Ok(())
}

/// All materials: those of which the units are built, and then, for each period, those of the plant
/// and the capacities.
pub(crate) fn materials_of(
    alloc: Global,
    problem: &Problem,
    plan: &Plan,
) -> Result<Vec<Material>, AllocError>
    requires formed { IsPlan problem.now plan.now }
    requires few { length plan.now.periods ≤ 256 }
    ensures { IfOk result (λ v. v.items ≡ materials_of problem.now plan.now) }
{
    problem.is_valid();
    let mut materials = sites(alloc, problem.units().len() as u32)?;
    push_periods(alloc, &mut materials, problem, &plan.periods)?;
    Ok(materials)
}
