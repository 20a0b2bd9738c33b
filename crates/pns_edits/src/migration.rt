//! The script that turns yearly costs into investment costs.
ghost use Rattle.std.specs.Prelude.{◌≡◌, ◌≤◌, ◌*ℤ◌, ◌++◌, not, false, None, OnOk, IfOk, IfErr};
ghost use Rattle.std.specs.Prelude.{length, map, pos};
ghost use Rattle.std.specs.List.{list_any, position_from};
ghost use Rattle.edit_laws.specs.problem_rules.Problem.{OperatingUnit};
ghost use Rattle.edit_laws.specs.problem_rules.WellFormed.{IsInRange};
ghost use Rattle.edit_laws.specs.edit_rules.Edit.{investment};
ghost use Rattle.edit_laws.specs.edit_rules.Formed.{script_of};
ghost use Rattle.edit_laws.specs.edit_rules.Inverse.{costs_no_investment};
ghost use Rattle.edit_laws.specs.edit_rules.Migration.{has_payout, costs_nothing_yearly};
ghost use Rattle.edit_laws.specs.edit_rules.Migration.{migrates_out_of_range, out_of_range_at};
ghost use Rattle.edit_laws.specs.edit_rules.Migration.{unit_migration, migration};
ghost use Rattle.edit_laws.specs.edit_rules.Script.{applied, CanApply};
ghost use Rattle.edit_scripts.specs.View.{edit_of};
ghost use Rattle.edit_laws.specs.MigrationLaws.{IsMigrated};
ghost use Rattle.pns_edits.specs.Migrate.{TellsMigration};
ghost use Rattle.pns_edits.specs.Terms.{AreYearlyInRange, AreAllYearlyInRange};

use crate::unit::costs_no_investment;
use edit_laws::{migration_keeps_flows, migrations_apply, migrations_are_formed};
use edit_scripts::{Edit, OperatingUnit, Problem, Script};
use std::alloc::{AllocError, Global};

/// Why a problem is not migrated.
#[derive(Clone, Copy, Debug, PartialEq, Eq)]
pub enum MigrateFault {
    /// The payout period is not 1, or an investment cost is not 0.
    HasPayout,
    /// Years times a cost of this unit is above 10^15 millionths in absolute value; it is the first
    /// such unit.
    OutOfRange { unit: u32 },
    /// Out of memory, at any moment.
    Memory,
}

impl From<AllocError> for MigrateFault {
    ghost use Rattle.std.specs.Prelude.{◌≡◌};
    ghost use Rattle.pns_edits.specs.declared.migration.MigrateFault.TheVariants.{Memory};

    ghost from_gives = { λ _ e. e ≡ Memory };

    fn from(_e: AllocError) -> MigrateFault {
        MigrateFault::Memory
    }
}

fn any_invests(units: &[OperatingUnit]) -> bool
    ensures { result ≡ list_any (λ (u : OperatingUnit). not (costs_no_investment u)) units.now }
{
    units.iter().any(|unit| !costs_no_investment(unit))
}

fn has_payout(problem: &Problem) -> bool
    ensures { result ≡ has_payout problem.now }
{
    problem.payout() != 1 || any_invests(problem.units())
}

/// Years times a cost. It fits, since the cost is in range.
fn over_years(years: u32, cost: i64) -> i64
    requires years { years ≤ 100 }
    requires cost { IsInRange cost }
    ensures { result ≡ pos years *ℤ cost }
{
    years as i64 * cost
}

fn is_out_of_range(years: u32, unit: &OperatingUnit) -> bool
    requires years { years ≤ 100 }
    requires costs { AreYearlyInRange unit.now }
    ensures { result ≡ migrates_out_of_range (pos years) unit.now }
{
    let fix = over_years(years, unit.fix);
    let proportional = over_years(years, unit.proportional);
    fix.unsigned_abs() > 1_000_000_000_000_000
        || proportional.unsigned_abs() > 1_000_000_000_000_000
}

fn first_out_of_range(years: u32, units: &[OperatingUnit]) -> Option<u32>
    requires years { years ≤ 100 }
    requires few { length units.now ≤ 128 }
    requires costs { AreAllYearlyInRange units.now }
    ensures { result ≡ position_from (migrates_out_of_range (pos years)) 0 units.now }
{
    'looking: for (at, unit) in units.iter().enumerate() {
        if is_out_of_range(years, unit) {
            return Some(at as u32);
        }
    }
    None
}

fn costs_nothing_yearly(unit: &OperatingUnit) -> bool
    ensures { result ≡ costs_nothing_yearly unit.now }
{
    unit.fix.unsigned_abs() == 0 && unit.proportional.unsigned_abs() == 0
}

fn invested(years: u32, unit: &OperatingUnit) -> Result<Edit, AllocError>
    requires years { years ≤ 100 }
    requires costs { AreYearlyInRange unit.now }
    ensures { let u = unit.now in
        IfOk result
        (λ e. edit_of e ≡ investment u.name (pos years *ℤ u.fix) (pos years *ℤ u.proportional)) }
{
    Ok(Edit::Investment {
        unit: unit.name.clone()?,
        fix: over_years(years, unit.fix),
        proportional: over_years(years, unit.proportional),
    })
}

/// Puts the edits of a unit at the end of a list; there are none if it costs nothing yearly.
fn push_unit(edits: &mut Vec<Edit>, years: u32, unit: &OperatingUnit) -> Result<(), AllocError>
    requires years { years ≤ 100 }
    requires costs { AreYearlyInRange unit.now }
    ensures { OnOk result
        (map edit_of edits.new.items ≡ map edit_of edits.old.items
        ++ unit_migration (pos years) unit.now) }
{
    if costs_nothing_yearly(unit) {
        return Ok(());
    }
    edits.push(Edit::Fix {
        unit: unit.name.clone()?,
        value: 0,
    })?;
    edits.push(Edit::Proportional {
        unit: unit.name.clone()?,
        value: 0,
    })?;
    edits.push(invested(years, unit)?)?;
    Ok(())
}

fn migration_edits(alloc: Global, problem: &Problem, years: u32) -> Result<Vec<Edit>, AllocError>
    requires years { years ≤ 100 }
    requires costs { AreAllYearlyInRange problem.now.units }
    ensures { IfOk result (λ edits. map edit_of edits.items ≡ migration (pos years) problem.now) }
{
    let mut edits = Vec::new(alloc);
    edits.push(Edit::Payout {
        years: years as i64,
    })?;
    let units = problem.units();
    'migrating: for unit in units {
        push_unit(&mut edits, years, unit)?;
    }
    Ok(edits)
}

/// The script, at lines 2, 3 and so on, that sets the payout period to so many years. It also turns
/// the yearly costs of each unit that has some into investment costs of years times them. The
/// problem takes it, and has the same flows after it, with cost numerators that are years times the
/// old ones. A refusal names a payout period or an investment cost first, and then the first unit
/// whose cost would be out of range. The time is linear in the problem.
pub fn migrate(alloc: Global, problem: &Problem, years: u32) -> Result<Script, MigrateFault>
    requires { (1 ≤ years) × (years ≤ 100) }
    ensures script { IfOk result
        (λ script. script ≡ script_of (migration (pos years) problem.now)) }
    ensures once { OnOk result (has_payout problem.now ≡ false) }
    ensures in_range { OnOk result (out_of_range_at (pos years) problem.now ≡ None) }
    ensures taken { OnOk result (CanApply problem.now (migration (pos years) problem.now)) }
    ensures same_flows { OnOk result
        (IsMigrated (pos years) problem.now
        (applied problem.now (migration (pos years) problem.now))) }
    ensures fault { IfErr result (TellsMigration years problem.now) }
{
    migrations_are_formed();
    migrations_apply();
    migration_keeps_flows();
    problem.is_valid();
    if has_payout(problem) {
        return Err(MigrateFault::HasPayout);
    }
    if let Some(unit) = first_out_of_range(years, problem.units()) {
        return Err(MigrateFault::OutOfRange { unit });
    }
    let edits = migration_edits(alloc, problem, years)?;
    Ok(Script::of(alloc, edits)?)
}
