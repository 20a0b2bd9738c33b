//! The lines of units, each before those of its arcs.
ghost use Rattle.std.specs.Prelude.{◌≡◌, ◌++◌, ◌<◌, ℕ, true, Some, OnOk, string_bytes, length};
ghost use Rattle.std.specs.Prelude.{flat_map};
ghost use Rattle.report_amounts.specs.number_sets.Sets.{has};
ghost use Rattle.report_amounts.specs.problem_rules.Problem.{unit_at};
ghost use Rattle.report_amounts.specs.pns_problem.Printing.{printed};
ghost use Rattle.report_amounts.specs.tree_rules.Claim.{IsFeasible};
ghost use Rattle.report_amounts.specs.report_rules.Drawn.{size_label, unit_size};
ghost use Rattle.report_amounts.specs.report_rules.Graph.{costs_tip, unit_tip, unit_line};
ghost use Rattle.report_amounts.specs.report_rules.Graph.{unit_lines};
ghost use Rattle.graph_text.specs.Kept.{picture_of};

use crate::arcs::{push_inputs, push_outputs};
use crate::nodes::push_node;
use crate::numbers::push_told;
use crate::picture::Picture;
use crate::role::{is_in, look, role_of};
use report_amounts::{
    Network, OperatingUnit, Problem, UnitAmount, UnitSet, amount, size, unit_of, valid_is_proper,
};
use std::alloc::AllocError;

/// Appends the size and the cost of a unit of the network.
fn push_size_of(
    text: &mut String,
    problem: &Problem,
    network: &Network,
    u: u32,
) -> Result<(), AllocError>
    requires { u < length problem.now.units }
    ensures { OnOk result
        (string_bytes text.new ≡ string_bytes text.old ++ size_label problem.now network.now u) }
{
    text.push_str("\\nsize ")?;
    size(network, u).push(text)?;
    text.push_str("\\ncost ")?;
    amount(UnitAmount::Total, problem, network, u).push(text)
}

fn push_size_in(
    text: &mut String,
    problem: &Problem,
    network: &Network,
    u: u32,
) -> Result<(), AllocError>
    requires { u < length problem.now.units }
    ensures { OnOk result
        (string_bytes text.new ≡ string_bytes text.old
        ++ unit_size problem.now (Some network.now) u) }
{
    if is_in(problem, network, u) {
        push_size_of(text, problem, network, u)
    } else {
        Ok(())
    }
}

/// Appends the size and the cost of a unit, if it is in a network.
fn push_size(text: &mut String, picture: &Picture<'_>, u: u32) -> Result<(), AllocError>
    requires { u < length picture.now.problem.units }
    ensures { OnOk result
        (string_bytes text.new ≡ string_bytes text.old
        ++ unit_size picture.now.problem picture.now.network u) }
{
    match picture.network() {
        None => Ok(()),
        Some(network) => push_size_in(text, picture.problem(), network, u),
    }
}

fn push_costs(text: &mut String, unit: &OperatingUnit) -> Result<(), AllocError>
    ensures { OnOk result (string_bytes text.new ≡ string_bytes text.old ++ costs_tip unit.now) }
{
    push_told(text, ", fixed cost ", unit.fix)?;
    push_told(text, ", proportional cost ", unit.proportional)?;
    push_told(text, ", investment ", unit.investment_fix)?;
    push_told(text, " and ", unit.investment_proportional)
}

/// Appends what a pointer on the unit shows.
fn push_tip(text: &mut String, unit: &OperatingUnit) -> Result<(), AllocError>
    ensures { OnOk result (string_bytes text.new ≡ string_bytes text.old ++ unit_tip unit.now) }
{
    text.push_str(&unit.name)?;
    push_told(text, ": size from ", unit.lower)?;
    push_told(text, " to ", unit.upper)?;
    push_costs(text, unit)
}

/// Appends the line of a unit.
fn push_unit(text: &mut String, picture: &Picture<'_>, u: u32) -> Result<(), AllocError>
    requires { u < length picture.now.problem.units }
    ensures { OnOk result
        (string_bytes text.new ≡ string_bytes text.old ++ unit_line (picture_of picture.now) u) }
{
    let problem = picture.problem();
    let name = problem.unit_name(u);
    let unit = unit_of(problem, u);
    text.push_str("  ")?;
    push_node(text, "unit", name)?;
    text.push_str(" [label=\"")?;
    text.push_str(name)?;
    push_size(text, picture, u)?;
    text.push_str("\", tooltip=\"")?;
    push_tip(text, unit)?;
    text.push_str("\", ")?;
    text.push_str(look(role_of(picture, u)))?;
    text.push_str("];")?;
    Ok(())
}

/// Appends the line of a unit and those of its arcs.
fn push_unit_lines(text: &mut String, picture: &Picture<'_>, u: u32) -> Result<(), AllocError>
    requires { u < length picture.now.problem.units }
    ensures { OnOk result
        (string_bytes text.new ≡ string_bytes text.old
        ++ printed (unit_lines (picture_of picture.now) u)) }
{
    let problem = picture.problem();
    valid_is_proper();
    let unit = unit_of(problem, u);
    push_unit(text, picture, u)?;
    text.push('\n')?;
    push_inputs(text, picture, u, &unit.inputs)?;
    push_outputs(text, picture, u, &unit.outputs)
}

/// Appends the lines of the units of a set.
pub(crate) fn push_units(
    text: &mut String,
    picture: &Picture<'_>,
    units: UnitSet,
) -> Result<(), AllocError>
    requires known { (u : ℕ) → has units u ≡ true → u < length picture.now.problem.units }
    ensures { OnOk result
        (string_bytes text.new ≡ string_bytes text.old
        ++ printed (flat_map (unit_lines (picture_of picture.now)) units)) }
{
    for u in units {
        push_unit_lines(text, picture, u)?;
    }
    Ok(())
}
