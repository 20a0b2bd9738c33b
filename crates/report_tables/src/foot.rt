//! The lines after the tables.
ghost use Rattle.std.specs.Prelude.{◌≡◌, ◌<◌, ◌≤◌, ◌++◌, ◌∷◌, [], ℕ, true, OnOk, flat_map};
ghost use Rattle.std.specs.Prelude.{length};
ghost use Rattle.std.specs.Prelude.{string_bytes};
ghost use Rattle.text_lines.specs.number_sets.Sets.{has};
ghost use Rattle.cert_check.specs.pns_problem.Printing.{printed};
ghost use Rattle.report_amounts.specs.report_rules.Report.{once_line, left_out, name_behind};
ghost use Rattle.report_amounts.specs.report_rules.Report.{names_or_none};
ghost use Rattle.report_amounts.specs.report_rules.Report.{left_out_line, foot_lines};

use crate::cells::push_digits;
use cert_check::{Network, Problem, UnitSet};
use report_amounts::{UnitAmount, unit_sum};
use std::alloc::AllocError;

fn push_once(text: &mut String, problem: &Problem, network: &Network) -> Result<(), AllocError>
    requires { (u : ℕ) → has network.now.units u ≡ true → u < length problem.now.units }
    ensures { OnOk result
        (string_bytes text.new ≡ string_bytes text.old ++ once_line problem.now network.now) }
{
    text.push_str("Investment, paid once: ")?;
    push_digits(text, &unit_sum(UnitAmount::Once, problem, network))?;
    Ok(())
}

/// The number of units, at most 128.
fn unit_count(problem: &Problem) -> u32
    ensures count { result ≡ length problem.now.units }
    ensures few { result ≤ 128 }
{
    problem.is_valid();
    problem.units().len() as u32
}

/// The units of the problem that are not in the network.
pub fn left_out(problem: &Problem, network: &Network) -> UnitSet
    ensures { result ≡ left_out problem.now network.now }
{
    let all = UnitSet::below(unit_count(problem));
    all.rises();
    all.minus(network.units())
}

fn push_names(text: &mut String, problem: &Problem, units: UnitSet) -> Result<(), AllocError>
    ensures { OnOk result
        (string_bytes text.new ≡ string_bytes text.old
        ++ flat_map (name_behind problem.now) units) }
{
    for u in units {
        text.push(' ')?;
        text.push_str(problem.unit_name(u))?;
    }
    Ok(())
}

/// Appends the names of the units, each after a space, or ` none` if there is none.
pub fn push_names_or_none(
    text: &mut String,
    problem: &Problem,
    units: UnitSet,
) -> Result<(), AllocError>
    ensures { OnOk result
        (string_bytes text.new ≡ string_bytes text.old ++ names_or_none problem.now units) }
{
    if units.is_empty() {
        text.push_str(" none")
    } else {
        push_names(text, problem, units)
    }
}

fn push_left_out(text: &mut String, problem: &Problem, network: &Network) -> Result<(), AllocError>
    ensures { OnOk result
        (string_bytes text.new ≡ string_bytes text.old ++ left_out_line problem.now network.now) }
{
    text.push_str("Units left out:")?;
    push_names_or_none(text, problem, left_out(problem, network))?;
    Ok(())
}

/// Appends the foot.
pub(crate) fn push_foot(
    text: &mut String,
    problem: &Problem,
    network: &Network,
) -> Result<(), AllocError>
    requires { (u : ℕ) → has network.now.units u ≡ true → u < length problem.now.units }
    ensures { OnOk result
        (string_bytes text.new ≡ string_bytes text.old
        ++ printed (foot_lines problem.now network.now)) }
{
    push_once(text, problem, network)?;
    text.push('\n')?;
    push_left_out(text, problem, network)?;
    text.push('\n')?;
    Ok(())
}
