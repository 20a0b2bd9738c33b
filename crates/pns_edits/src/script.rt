//! Edits and whole scripts, applied.
ghost use Rattle.std.specs.Prelude.{◌≡◌, ◌<◌, OnOk, IfOk, IfErr, length, map};
ghost use Rattle.edit_laws.specs.problem_rules.Validity.{IsValid};
ghost use Rattle.edit_laws.specs.edit_rules.Formed.{script_of};
ghost use Rattle.edit_laws.specs.edit_rules.Script.{applied, undoing, CanApply, LeadsTo};
ghost use Rattle.edit_scripts.specs.View.{edit_of};
ghost use Rattle.pns_edits.specs.Answer.{Answers, TellsFirst};
ghost use Rattle.pns_edits.specs.Terms.{IsNumbered};

use crate::inverse::{Inverse, push_inverse};
use crate::{exclusion, material, unit};
use edit_laws::scripts_are_undone;
use edit_scripts::{Edit, EditFault, LineFault, Parts, Problem, Script};
use std::alloc::Global;

/// Applies one edit, and gives the edits that undo it.
fn apply_edit(alloc: Global, parts: &mut Parts, edit: &Edit) -> Result<Inverse, LineFault>
    requires { IsNumbered parts.old }
    ensures { Answers parts.old (edit_of edit.now) parts.new result }
{
    match edit {
        Edit::Price { material, value } => material::set_price(parts, material, *value),
        Edit::Bounds {
            material,
            lower,
            upper,
        } => material::set_bounds(parts, material, *lower, *upper),
        Edit::Kind { material, kind } => material::set_kind(parts, material, *kind),
        Edit::Capacity { unit, lower, upper } => unit::set_capacity(parts, unit, *lower, *upper),
        Edit::Fix { unit, value } => unit::set_fix(parts, unit, *value),
        Edit::Proportional { unit, value } => unit::set_proportional(parts, unit, *value),
        Edit::RenameMaterial { old, new } => material::rename(parts, old, new),
        Edit::RenameUnit { old, new } => unit::rename(parts, old, new),
        Edit::AddMaterial {
            at,
            name,
            kind,
            price,
            lower,
            upper,
        } => material::add(parts, *at, name, *kind, *price, *lower, *upper),
        Edit::RemoveMaterial { material } => material::remove(parts, material),
        Edit::AddUnit {
            at,
            name,
            lower,
            upper,
            fix,
            proportional,
            inputs,
            outputs,
        } => {
            let capacity = (*lower, *upper);
            let costs = (*fix, *proportional);
            unit::add(alloc, parts, *at, name, capacity, costs, inputs, outputs)
        }
        Edit::RemoveUnit { unit } => unit::remove(alloc, parts, unit),
        Edit::Exclude { at, name, units } => exclusion::add(alloc, parts, *at, name, units),
        Edit::Unexclude { name } => exclusion::remove(alloc, parts, name),
        Edit::Investment {
            unit,
            fix,
            proportional,
        } => unit::set_investment(parts, unit, *fix, *proportional),
        Edit::Payout { years } => Ok(exclusion::set_payout(parts, *years)),
    }
}

fn apply_edits(alloc: Global, parts: &mut Parts, script: &Script) -> Result<Vec<Edit>, EditFault>
    requires valid { IsValid parts.old }
    requires few { length script.now.edits < 2147483647 }
    ensures done { OnOk result (parts.new ≡ applied parts.old script.now.edits) }
    ensures back { IfOk result
        (λ back. map edit_of back.items ≡ undoing parts.old script.now.edits) }
    ensures few_back { IfOk result (λ back. length back.items < 4294967295) }
    ensures clear { OnOk result (CanApply parts.old script.now.edits) }
    ensures fault { IfErr result (TellsFirst parts.old script.now) }
{
    script.is_formed();
    let edits = script.edits();
    let lines = script.lines();
    let mut back = Vec::new(alloc);
    'applying: for (at, edit) in edits.iter().enumerate() {
        match apply_edit(alloc, parts, edit) {
            Ok(inverse) => push_inverse(&mut back, inverse)?,
            Err(LineFault::Memory) => return Err(EditFault::Memory),
            Err(LineFault::Kind(kind)) => {
                return Err(EditFault::At {
                    line: lines[at],
                    kind,
                });
            }
        }
    }
    back.reverse();
    Ok(back)
}

/// The problem after the edits of a script, each applied to what those before it left. With it
/// comes the script, at lines 2, 3 and so on, that leads back to the problem, with its items at
/// their old places. Or the first fault of meaning, at the line of the first edit that has one. The
/// problem that is lent stays as it is. Each edit takes at most time linear in the problem, and so
/// do the first and the last step.
pub fn apply(
    alloc: Global,
    problem: &Problem,
    script: &Script,
) -> Result<(Problem, Script), EditFault>
    requires { length script.now.edits < 2147483647 }
    ensures applied { IfOk result (λ edited. edited.0 ≡ applied problem.now script.now.edits) }
    ensures inverse { IfOk result
        (λ edited. edited.1 ≡ script_of (undoing problem.now script.now.edits)) }
    ensures back { IfOk result (λ edited. LeadsTo edited.0 edited.1.edits problem.now) }
    ensures clear { OnOk result (CanApply problem.now script.now.edits) }
    ensures fault { IfErr result (TellsFirst problem.now script.now) }
{
    scripts_are_undone();
    problem.is_valid();
    script.is_formed();
    let mut parts = problem.parts(alloc)?;
    let back = apply_edits(alloc, &mut parts, script)?;
    let inverse = Script::of(alloc, back)?;
    match Problem::build(alloc, parts) {
        Ok(edited) => Ok((edited, inverse)),
        Err(fault) => {
            let memory = fault.is_memory();
            prove!(memory);
            Err(EditFault::Memory)
        }
    }
}
