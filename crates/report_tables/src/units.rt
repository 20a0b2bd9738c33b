//! The table of units.
ghost use Rattle.std.specs.Prelude.{◌≡◌, ◌<◌, ◌++◌, ◌∷◌, [], ℕ, true, IfOk, OnOk, map};
ghost use Rattle.std.specs.Prelude.{length};
ghost use Rattle.std.specs.Prelude.{string_bytes};
ghost use Rattle.text_lines.specs.number_sets.Sets.{has};
ghost use Rattle.cert_check.specs.pns_problem.Printing.{printed};
ghost use Rattle.report_amounts.specs.report_rules.Report.{share_cell, unit_limit, number_cell};
ghost use Rattle.report_amounts.specs.report_rules.Report.{marginal_cell};
ghost use Rattle.report_amounts.specs.report_rules.Report.{unit_heading};
ghost use Rattle.report_amounts.specs.report_rules.Report.{unit_row, all_units_row, unit_rows};
ghost use Rattle.report_amounts.specs.report_rules.Report.{unit_lines};
ghost use Rattle.report_amounts.specs.report_rules.Amounts.{size, amount, unit_sum};
ghost use Rattle.report_amounts.specs.report_rules.Marginal.{unit_marginal};
ghost use Rattle.report_amounts.specs.report_rules.declared.amount.UnitAmount.TheVariants.{Fixed};
ghost use Rattle.report_amounts.specs.report_rules.declared.amount.UnitAmount.TheVariants.{Proportional};
ghost use Rattle.report_amounts.specs.report_rules.declared.amount.UnitAmount.TheVariants.{Investment};
ghost use Rattle.report_amounts.specs.report_rules.declared.amount.UnitAmount.TheVariants.{Total};
ghost use Rattle.text_lines.specs.problem_rules.Problem.{unit_at};

use crate::cells::{push_headings, push_marginal, push_number, push_numbers, push_words};
use crate::limits::{limit_words, unbounded_or};
use crate::measures::Measures;
use crate::plant::Plant;
use crate::row::Row;
use crate::tables::push_table_and_gap;
use cert_check::{Network, Problem};
use report_amounts::{
    Marginals, Sort, UnitAmount, amount, share_of, size, size_at, unit_of, unit_sum,
};
use std::alloc::{AllocError, Global};

/// 1000000000 in millionths: a bound that stands for none.
pub const NO_BOUND: i64 = 1_000_000_000_000_000;

/// The share of the upper bound, or `-` if that is 0 or stands for none.
fn push_share(
    alloc: Global,
    row: &mut Row,
    problem: &Problem,
    network: &Network,
    u: u32,
) -> Result<(), AllocError>
    requires { u < length problem.now.units }
    ensures { OnOk result (row.new ≡ row.old ++ share_cell problem.now network.now u ∷ []) }
{
    let upper = unit_of(problem, u).upper;
    if upper <= 0 || upper == NO_BOUND {
        return push_words(alloc, row, "-");
    }
    let mut cell = String::new(alloc);
    share_of(network, u, upper).push_share(&mut cell)?;
    row.push(cell)
}

/// The word for the bound, if any, that the size of the unit is at.
pub fn unit_limit(problem: &Problem, network: &Network, u: u32) -> &'static str
    requires { u < length problem.now.units }
    ensures { result.now ≡ unit_limit problem.now network.now u }
{
    let unit = unit_of(problem, u);
    let size = size_at(network, u);
    let words = limit_words(
        size == 0,
        i128::from(unit.lower),
        i128::from(unit.upper),
        size,
        network.d(),
    );
    unbounded_or(i128::from(NO_BOUND), size, network.d(), words)
}

/// The four costs of a unit.
fn push_costs(
    alloc: Global,
    row: &mut Row,
    problem: &Problem,
    network: &Network,
    u: u32,
) -> Result<(), AllocError>
    requires { u < length problem.now.units }
    ensures { OnOk result
        (row.new ≡ row.old ++ number_cell (amount Fixed problem.now network.now u)
        ∷ number_cell (amount Proportional problem.now network.now u)
        ∷ number_cell (amount Investment problem.now network.now u)
        ∷ number_cell (amount Total problem.now network.now u) ∷ []) }
{
    let costs = [
        amount(UnitAmount::Fixed, problem, network, u),
        amount(UnitAmount::Proportional, problem, network, u),
        amount(UnitAmount::Investment, problem, network, u),
        amount(UnitAmount::Total, problem, network, u),
    ];
    push_numbers(alloc, row, &costs)
}

/// What one more of the size of the unit saves.
fn push_unit_marginal(
    alloc: Global,
    row: &mut Row,
    problem: &Problem,
    marginals: &Marginals,
    u: u32,
) -> Result<(), AllocError>
    requires { u < length problem.now.units }
    ensures { OnOk result
        (row.new
        ≡ row.old ++ marginal_cell marginals.now (unit_marginal problem.now marginals.now u)
        ∷ []) }
{
    push_marginal(alloc, row, marginals, &marginals.of_unit(problem, u))
}

fn unit_row(
    alloc: Global,
    problem: &Problem,
    network: &Network,
    marginals: &Marginals,
    u: u32,
) -> Result<Row, AllocError>
    requires { u < length problem.now.units }
    ensures { IfOk result (λ row. row ≡ unit_row problem.now network.now marginals.now u) }
{
    let mut row = Row::of_words(alloc, &[problem.unit_name(u)])?;
    push_number(alloc, &mut row, &size(network, u))?;
    push_share(alloc, &mut row, problem, network, u)?;
    push_words(alloc, &mut row, unit_limit(problem, network, u))?;
    push_costs(alloc, &mut row, problem, network, u)?;
    push_unit_marginal(alloc, &mut row, problem, marginals, u)?;
    Ok(row)
}

/// The sums of the four costs.
fn push_sums(
    alloc: Global,
    row: &mut Row,
    problem: &Problem,
    network: &Network,
) -> Result<(), AllocError>
    requires { (u : ℕ) → has network.now.units u ≡ true → u < length problem.now.units }
    ensures { OnOk result
        (row.new ≡ row.old ++ number_cell (unit_sum Fixed problem.now network.now)
        ∷ number_cell (unit_sum Proportional problem.now network.now)
        ∷ number_cell (unit_sum Investment problem.now network.now)
        ∷ number_cell (unit_sum Total problem.now network.now) ∷ []) }
{
    let sums = [
        unit_sum(UnitAmount::Fixed, problem, network),
        unit_sum(UnitAmount::Proportional, problem, network),
        unit_sum(UnitAmount::Investment, problem, network),
        unit_sum(UnitAmount::Total, problem, network),
    ];
    push_numbers(alloc, row, &sums)
}

fn all_units_row(alloc: Global, problem: &Problem, network: &Network) -> Result<Row, AllocError>
    requires { (u : ℕ) → has network.now.units u ≡ true → u < length problem.now.units }
    ensures { IfOk result (λ row. row ≡ all_units_row problem.now network.now) }
{
    let mut row = Row::of_words(alloc, &["all units", "", "", ""])?;
    push_sums(alloc, &mut row, problem, network)?;
    push_words(alloc, &mut row, "")?;
    Ok(row)
}

fn unit_rows(
    alloc: Global,
    problem: &Problem,
    network: &Network,
    marginals: &Marginals,
) -> Result<Vec<Row>, AllocError>
    requires { (u : ℕ) → has network.now.units u ≡ true → u < length problem.now.units }
    ensures { IfOk result
        (λ rows. rows.items
        ≡ map (unit_row problem.now network.now marginals.now) network.now.units) }
{
    let mut rows = Vec::new(alloc);
    for u in network.units() {
        rows.push(unit_row(alloc, problem, network, marginals, u)?)?;
    }
    Ok(rows)
}

/// The rows of the units, and that of their sums.
fn all_rows(
    alloc: Global,
    problem: &Problem,
    network: &Network,
    marginals: &Marginals,
) -> Result<Vec<Row>, AllocError>
    requires { (u : ℕ) → has network.now.units u ≡ true → u < length problem.now.units }
    ensures { IfOk result
        (λ rows. rows.items ≡ unit_rows problem.now network.now marginals.now) }
{
    let mut rows = unit_rows(alloc, problem, network, marginals)?;
    rows.push(all_units_row(alloc, problem, network)?)?;
    Ok(rows)
}

fn unit_heading(alloc: Global, measures: &Measures) -> Result<Row, AllocError>
    ensures { IfOk result (λ row. row ≡ unit_heading measures.now) }
{
    let costs = ["fixed", "proportional", "investment", "total", "marginal"];
    let mut row = Row::of_words(alloc, &["unit", "size", "share %", "limit"])?;
    push_headings(alloc, &mut row, &costs, measures.money())?;
    Ok(row)
}

/// Appends the table of units and an empty line.
pub(crate) fn push_units(
    alloc: Global,
    text: &mut String,
    plant: &Plant<'_>,
    network: &Network,
    marginals: &Marginals,
) -> Result<(), AllocError>
    requires known { (u : ℕ) → has network.now.units u ≡ true
        → u < length plant.now.site.now.units }
    ensures { OnOk result
        (string_bytes text.new ≡ string_bytes text.old
        ++ printed
        (unit_lines plant.now.measures.now plant.now.site.now network.now marginals.now)) }
{
    let heading = unit_heading(alloc, plant.measures)?;
    let rows = all_rows(alloc, plant.site.problem(), network, marginals)?;
    let sorts = [
        Sort::Words,
        Sort::Numbers,
        Sort::Numbers,
        Sort::Words,
        Sort::Numbers,
        Sort::Numbers,
        Sort::Numbers,
        Sort::Numbers,
        Sort::Numbers,
    ];
    push_table_and_gap(alloc, text, &sorts, &heading, &rows)?;
    Ok(())
}
