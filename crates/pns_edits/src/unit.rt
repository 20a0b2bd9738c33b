//! Edits of operating units.
ghost use Rattle.std.specs.Prelude.{◌≡◌, ◌<◌, ◌≤◌, OnOk, IfOk, length, string_bytes};
ghost use Rattle.edit_laws.specs.problem_rules.Each.{Each};
ghost use Rattle.edit_laws.specs.problem_rules.Problem.{unit_at};
ghost use Rattle.edit_laws.specs.edit_rules.Edit.{capacity, fix, proportional, rename_unit};
ghost use Rattle.edit_laws.specs.edit_rules.Edit.{add_unit};
ghost use Rattle.edit_laws.specs.edit_rules.Edit.{remove_unit, investment};
ghost use Rattle.edit_laws.specs.edit_rules.Place.{named_terms};
ghost use Rattle.edit_laws.specs.edit_rules.Effect.{unit_put_in, unit_taken_out};
ghost use Rattle.edit_laws.specs.edit_rules.Inverse.{costs_no_investment, investment_of};
ghost use Rattle.edit_scripts.specs.View.{edit_of};
ghost use Rattle.pns_edits.specs.Answer.{Answers};
ghost use Rattle.pns_edits.specs.Inverse.{listed_of};
ghost use Rattle.pns_edits.specs.Terms.{IsNumbered, IsExclusionBelow, AreTermsBelow};

use crate::fault::refuse_if;
use crate::inverse::Inverse;
use crate::numbering::{Renumbering, any_excludes, renumber_exclusions};
use crate::place::unit_place;
use crate::terms::{named_terms, numbered_terms};
use edit_scripts::{Edit, EditKind, LineFault, NamedTerm, OperatingUnit, Parts};
use std::alloc::{AllocError, Global};
use std::mem;

fn put_in(parts: &mut Parts, at: u32, unit: OperatingUnit) -> Result<(), AllocError>
    requires within { at ≤ length parts.old.units }
    requires small { Each (IsExclusionBelow 128) parts.old.exclusions }
    ensures { OnOk result (parts.new ≡ unit_put_in parts.old at unit) }
{
    parts.units.insert(at as usize, unit)?;
    renumber_exclusions(&mut parts.exclusions, Renumbering::PutIn(at));
    Ok(())
}

fn take_out(parts: &mut Parts, k: u32)
    requires within { k < length parts.old.units }
    requires small { Each (IsExclusionBelow 128) parts.old.exclusions }
    ensures { parts.new ≡ unit_taken_out parts.old k }
{
    parts.units.remove(k as usize);
    renumber_exclusions(&mut parts.exclusions, Renumbering::TakenOut(k));
}

/// The edit that adds the unit at place k again under its name, without its investment costs.
fn added_back(alloc: Global, parts: &Parts, k: u32, name: &String) -> Result<Edit, AllocError>
    requires within { k < length parts.now.units }
    requires inputs { AreTermsBelow (length parts.now.materials)
        (unit_at parts.now k).inputs }
    requires outputs { AreTermsBelow (length parts.now.materials)
        (unit_at parts.now k).outputs }
    ensures { let u = unit_at parts.now k in IfOk result (λ e. edit_of e ≡
        add_unit k (string_bytes name.now) u.lower u.upper u.fix u.proportional
        (named_terms parts.now u.inputs) (named_terms parts.now u.outputs)) }
{
    let unit = &parts.units[k as usize];
    Ok(Edit::AddUnit {
        at: k,
        name: name.clone()?,
        lower: unit.lower,
        upper: unit.upper,
        fix: unit.fix,
        proportional: unit.proportional,
        inputs: named_terms(alloc, parts, &unit.inputs)?,
        outputs: named_terms(alloc, parts, &unit.outputs)?,
    })
}

/// Whether both investment costs are 0.
pub(crate) fn costs_no_investment(unit: &OperatingUnit) -> bool
    ensures { result ≡ costs_no_investment unit.now }
{
    unit.investment_fix.unsigned_abs() == 0 && unit.investment_proportional.unsigned_abs() == 0
}

/// The edit that gives the unit at place k its investment costs back, if it has some.
fn invested_back(parts: &Parts, k: u32, name: &String) -> Result<Option<Edit>, AllocError>
    requires { k < length parts.now.units }
    ensures { IfOk result
        (λ e. listed_of e ≡ investment_of (unit_at parts.now k) (string_bytes name.now)) }
{
    let unit = &parts.units[k as usize];
    if costs_no_investment(unit) {
        return Ok(None);
    }
    Ok(Some(Edit::Investment {
        unit: name.clone()?,
        fix: unit.investment_fix,
        proportional: unit.investment_proportional,
    }))
}

/// Sets both capacities of a unit.
pub(crate) fn set_capacity(
    parts: &mut Parts,
    name: &String,
    lower: i64,
    upper: i64,
) -> Result<Inverse, LineFault>
    ensures { Answers parts.old (capacity (string_bytes name.now) lower upper) parts.new
        result }
{
    let k = unit_place(parts, name)?;
    refuse_if(upper < lower, EditKind::LowAboveHigh)?;
    let name = name.clone()?;
    let unit = &mut parts.units[k];
    let old_lower = mem::replace(&mut unit.lower, lower);
    let old_upper = mem::replace(&mut unit.upper, upper);
    Ok(Inverse::of(Edit::Capacity {
        unit: name,
        lower: old_lower,
        upper: old_upper,
    }))
}

/// Sets the yearly fixed cost of a unit.
pub(crate) fn set_fix(parts: &mut Parts, name: &String, value: i64) -> Result<Inverse, LineFault>
    ensures { Answers parts.old (fix (string_bytes name.now) value) parts.new result }
{
    let k = unit_place(parts, name)?;
    let name = name.clone()?;
    let unit = &mut parts.units[k];
    let old = mem::replace(&mut unit.fix, value);
    Ok(Inverse::of(Edit::Fix {
        unit: name,
        value: old,
    }))
}

/// Sets the yearly proportional cost of a unit.
pub(crate) fn set_proportional(
    parts: &mut Parts,
    name: &String,
    value: i64,
) -> Result<Inverse, LineFault>
    ensures { Answers parts.old (proportional (string_bytes name.now) value) parts.new
        result }
{
    let k = unit_place(parts, name)?;
    let name = name.clone()?;
    let unit = &mut parts.units[k];
    let old = mem::replace(&mut unit.proportional, value);
    Ok(Inverse::of(Edit::Proportional {
        unit: name,
        value: old,
    }))
}

/// Sets both investment costs of a unit.
pub(crate) fn set_investment(
    parts: &mut Parts,
    name: &String,
    once: i64,
    rate: i64,
) -> Result<Inverse, LineFault>
    ensures { Answers parts.old (investment (string_bytes name.now) once rate) parts.new
        result }
{
    let k = unit_place(parts, name)?;
    let name = name.clone()?;
    let unit = &mut parts.units[k];
    let old_once = mem::replace(&mut unit.investment_fix, once);
    let old_rate = mem::replace(&mut unit.investment_proportional, rate);
    Ok(Inverse::of(Edit::Investment {
        unit: name,
        fix: old_once,
        proportional: old_rate,
    }))
}

/// Gives a unit another name.
pub(crate) fn rename(parts: &mut Parts, old: &String, new: &String) -> Result<Inverse, LineFault>
    ensures { Answers parts.old
        (rename_unit (string_bytes old.now) (string_bytes new.now))
        parts.new result }
{
    let k = unit_place(parts, old)?;
    refuse_if(unit_place(parts, new).is_ok(), EditKind::DoubleName)?;
    let inverse = Inverse::of(Edit::RenameUnit {
        old: new.clone()?,
        new: old.clone()?,
    });
    let name = new.clone()?;
    let unit = &mut parts.units[k];
    unit.name = name;
    Ok(inverse)
}

/// Inserts a unit of this capacity, lower and upper, and these yearly costs, fixed and
/// proportional, at a place. It costs nothing to build.
pub(crate) fn add(
    alloc: Global,
    parts: &mut Parts,
    at: u32,
    name: &String,
    capacity: (i64, i64),
    costs: (i64, i64),
    inputs: &[NamedTerm],
    outputs: &[NamedTerm],
) -> Result<Inverse, LineFault>
    requires { IsNumbered parts.old }
    ensures { Answers parts.old
        (add_unit at (string_bytes name.now) capacity.0 capacity.1 costs.0 costs.1
        inputs.now
        outputs.now) parts.new result }
{
    let (lower, upper) = capacity;
    let (fix, proportional) = costs;
    let inputs = numbered_terms(alloc, parts, inputs)?;
    let outputs = numbered_terms(alloc, parts, outputs)?;
    refuse_if(unit_place(parts, name).is_ok(), EditKind::DoubleName)?;
    refuse_if(parts.units.len() < at as usize, EditKind::BadPlace)?;
    refuse_if(upper < lower, EditKind::LowAboveHigh)?;
    refuse_if(parts.units.len() >= 128, EditKind::TooMany)?;
    let unit = OperatingUnit {
        name: name.clone()?,
        lower,
        upper,
        fix,
        proportional,
        investment_fix: 0,
        investment_proportional: 0,
        inputs,
        outputs,
    };
    let inverse = Inverse::of(Edit::RemoveUnit {
        unit: name.clone()?,
    });
    put_in(parts, at, unit)?;
    Ok(inverse)
}

/// Removes a unit that no exclusion has.
pub(crate) fn remove(alloc: Global, parts: &mut Parts, name: &String) -> Result<Inverse, LineFault>
    requires { IsNumbered parts.old }
    ensures { Answers parts.old (remove_unit (string_bytes name.now)) parts.new result }
{
    let k = unit_place(parts, name)? as u32;
    refuse_if(any_excludes(&parts.exclusions, k), EditKind::InUse)?;
    let edit = added_back(alloc, parts, k, name)?;
    let investment = invested_back(parts, k, name)?;
    take_out(parts, k);
    Ok(Inverse { edit, investment })
}
