//! The first fault of the parts of a problem, in one pass over them.
ghost use Rattle.std.specs.Prelude.{◌≡◌, ◌≤◌, IfOk, IfErr, OnOk, None, [], length};
ghost use Rattle.text_rules.specs.problem_rules.Problem.{material_names, unit_names};
ghost use Rattle.text_rules.specs.problem_rules.Validity.{material_fault, materials_fault};
ghost use Rattle.text_rules.specs.problem_rules.Validity.{unit_fault};
ghost use Rattle.text_rules.specs.problem_rules.Validity.{units_fault, exclusion_fault};
ghost use Rattle.text_rules.specs.problem_rules.Validity.{exclusions_fault};
ghost use Rattle.text_rules.specs.problem_rules.Validity.{counts_fault, whole_fault, fault_of};
ghost use Rattle.text_rules.specs.problem_rules.Validity.{is_bad_payout};
ghost use Rattle.text_rules.specs.problem_rules.Validity.{IsValid};
ghost use Rattle.pns_problem.specs.Fault.{Tells, Judges};

use crate::exclusion::Exclusion;
use crate::fault::BuildFault;
use crate::material::{Material, has_product};
use crate::name::is_name;
use crate::name_table::NameTable;
use crate::parts::Parts;
use crate::unit::OperatingUnit;
use std::alloc::Global;

fn judge_material(names: &NameTable, material: &Material, at: u32) -> Result<(), BuildFault>
    ensures { Judges result (material_fault names.now at material.now) }
{
    if !is_name(&material.name) {
        return Err(BuildFault::BadName { at });
    }
    if names.has(&material.name) {
        return Err(BuildFault::DoubleName { at });
    }
    if material.is_out_of_range() {
        return Err(BuildFault::OutOfRange { at });
    }
    if material.is_low_above_high() {
        return Err(BuildFault::LowAboveHigh { at });
    }
    if material.is_negative() {
        return Err(BuildFault::Sign { at });
    }
    Ok(())
}

fn judge_materials(alloc: Global, materials: &[Material]) -> Result<NameTable, BuildFault>
    requires { length materials.now ≤ 256 }
    ensures names { IfOk result (λ names. names ≡ material_names materials.now) }
    ensures ok { OnOk result (materials_fault [] 0 materials.now ≡ None) }
    ensures err { IfErr result (Tells (materials_fault [] 0 materials.now)) }
{
    let mut names = NameTable::new(alloc);
    let mut at: u32 = 0;
    'judging: for material in materials {
        match judge_material(&names, material, at) {
            Err(fault) => return Err(fault),
            Ok(()) => {}
        }
        match names.add(&material.name) {
            Err(_) => return Err(BuildFault::Memory),
            Ok(()) => {}
        }
        at += 1;
    }
    Ok(names)
}

fn judge_unit(
    materials: u32,
    names: &NameTable,
    unit: &OperatingUnit,
    at: u32,
) -> Result<(), BuildFault>
    requires { materials ≤ 256 }
    ensures { Judges result (unit_fault materials names.now at unit.now) }
{
    if !is_name(&unit.name) {
        return Err(BuildFault::BadName { at });
    }
    if names.has(&unit.name) {
        return Err(BuildFault::DoubleName { at });
    }
    if unit.is_out_of_range() {
        return Err(BuildFault::OutOfRange { at });
    }
    if unit.is_low_above_high() {
        return Err(BuildFault::LowAboveHigh { at });
    }
    if unit.is_negative() {
        return Err(BuildFault::Sign { at });
    }
    if unit.names_no_material(materials) {
        return Err(BuildFault::NoMaterial { at });
    }
    if unit.repeats_material(materials) {
        return Err(BuildFault::DoubleTerm { at });
    }
    if unit.shares_material(materials) {
        return Err(BuildFault::BothSides { at });
    }
    if unit.has_empty_side() {
        return Err(BuildFault::EmptySide { at });
    }
    Ok(())
}

fn judge_units(
    alloc: Global,
    materials: u32,
    units: &[OperatingUnit],
) -> Result<NameTable, BuildFault>
    requires few_materials { materials ≤ 256 }
    requires few_units { length units.now ≤ 128 }
    ensures names { IfOk result (λ names. names ≡ unit_names units.now) }
    ensures ok { OnOk result (units_fault materials [] 0 units.now ≡ None) }
    ensures err { IfErr result (Tells (units_fault materials [] 0 units.now)) }
{
    let mut names = NameTable::new(alloc);
    let mut at: u32 = 0;
    'judging: for unit in units {
        match judge_unit(materials, &names, unit, at) {
            Err(fault) => return Err(fault),
            Ok(()) => {}
        }
        match names.add(&unit.name) {
            Err(_) => return Err(BuildFault::Memory),
            Ok(()) => {}
        }
        at += 1;
    }
    Ok(names)
}

fn judge_exclusion(
    units: u32,
    names: &NameTable,
    exclusion: &Exclusion,
    at: u32,
) -> Result<(), BuildFault>
    ensures { Judges result (exclusion_fault units names.now at exclusion.now) }
{
    if !is_name(&exclusion.name) {
        return Err(BuildFault::BadName { at });
    }
    if names.has(&exclusion.name) {
        return Err(BuildFault::DoubleName { at });
    }
    if exclusion.has_bad_members(units) {
        return Err(BuildFault::BadExclusion { at });
    }
    Ok(())
}

fn judge_exclusions(alloc: Global, units: u32, exclusions: &[Exclusion]) -> Result<(), BuildFault>
    requires { length exclusions.now ≤ 64 }
    ensures ok { OnOk result (exclusions_fault units [] 0 exclusions.now ≡ None) }
    ensures err { IfErr result (Tells (exclusions_fault units [] 0 exclusions.now)) }
{
    let mut names = NameTable::new(alloc);
    let mut at: u32 = 0;
    'judging: for exclusion in exclusions {
        match judge_exclusion(units, &names, exclusion, at) {
            Err(fault) => return Err(fault),
            Ok(()) => {}
        }
        match names.add(&exclusion.name) {
            Err(_) => return Err(BuildFault::Memory),
            Ok(()) => {}
        }
        at += 1;
    }
    Ok(())
}

fn judge_counts(parts: &Parts) -> Result<(), BuildFault>
    ensures { Judges result (counts_fault parts.now) }
{
    if parts.materials.len() > 256 {
        return Err(BuildFault::TooManyMaterials { at: 256 });
    }
    if parts.units.len() > 128 {
        return Err(BuildFault::TooManyUnits { at: 128 });
    }
    if parts.exclusions.len() > 64 {
        return Err(BuildFault::TooManyExclusions { at: 64 });
    }
    Ok(())
}

fn is_bad_payout(parts: &Parts) -> bool
    ensures { result ≡ is_bad_payout parts.now.payout }
{
    parts.payout < 1 || parts.payout > 100
}

fn judge_whole(parts: &Parts) -> Result<(), BuildFault>
    ensures { Judges result (whole_fault parts.now) }
{
    if !has_product(&parts.materials) {
        return Err(BuildFault::NoProduct { at: 0 });
    }
    if is_bad_payout(parts) {
        return Err(BuildFault::BadPayout { at: 0 });
    }
    Ok(())
}

/// The names of the materials and of the units, or the first fault.
pub(crate) fn judge(alloc: Global, parts: &Parts) -> Result<(NameTable, NameTable), BuildFault>
    ensures materials { IfOk result (λ names. names.0 ≡ material_names parts.now.materials) }
    ensures units { IfOk result (λ names. names.1 ≡ unit_names parts.now.units) }
    ensures ok { OnOk result (IsValid parts.now) }
    ensures err { IfErr result (Tells (fault_of parts.now)) }
{
    match judge_counts(parts) {
        Err(fault) => return Err(fault),
        Ok(()) => {}
    }
    let materials = match judge_materials(alloc, &parts.materials) {
        Err(fault) => return Err(fault),
        Ok(names) => names,
    };
    let units = match judge_units(alloc, parts.materials.len() as u32, &parts.units) {
        Err(fault) => return Err(fault),
        Ok(names) => names,
    };
    match judge_exclusions(alloc, parts.units.len() as u32, &parts.exclusions) {
        Err(fault) => return Err(fault),
        Ok(()) => {}
    }
    match judge_whole(parts) {
        Err(fault) => return Err(fault),
        Ok(()) => {}
    }
    Ok((materials, units))
}
