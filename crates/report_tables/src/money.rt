//! The table of money.
ghost use Rattle.std.specs.Prelude.{◌≡◌, ◌<◌, ◌++◌, ◌∷◌, [], ℕ, true, IfOk, OnOk, length};
ghost use Rattle.std.specs.Prelude.{string_bytes};
ghost use Rattle.text_lines.specs.number_sets.Sets.{has};
ghost use Rattle.cert_check.specs.pns_problem.Printing.{printed};
ghost use Rattle.cert_check.specs.tree_rules.Claim.{IsFeasible};
ghost use Rattle.report_amounts.specs.report_rules.declared.amount.UnitAmount.TheVariants.{Fixed};
ghost use Rattle.report_amounts.specs.report_rules.declared.amount.UnitAmount.TheVariants.{Proportional};
ghost use Rattle.report_amounts.specs.report_rules.declared.amount.UnitAmount.TheVariants.{Investment};
ghost use Rattle.report_amounts.specs.report_rules.declared.cost_part.CostPart.TheVariants.{Costs};
ghost use Rattle.report_amounts.specs.report_rules.declared.cost_part.CostPart.TheVariants.{Incomes};
ghost use Rattle.report_amounts.specs.report_rules.Amounts.{unit_sum, cost_sum};
ghost use Rattle.report_amounts.specs.report_rules.Lower.{low_cell};
ghost use Rattle.report_amounts.specs.report_rules.Report.{money_heading, money_row, total_cell};
ghost use Rattle.report_amounts.specs.report_rules.Report.{total_words};
ghost use Rattle.report_amounts.specs.report_rules.Report.{total_row, money_rows, money_lines};

use crate::cells::{push_heading, push_number};
use crate::measures::Measures;
use crate::plant::Plant;
use crate::row::Row;
use crate::tables::push_table_and_gap;
use cert_check::{Network, Problem, Site};
use report_amounts::{
    CostPart, LowerBound, Number, Sort, UnitAmount, cost_sum, push_six_digits,
    push_six_digits_down, unit_sum,
};
use std::alloc::{AllocError, Global};

fn money_row(alloc: Global, words: &str, number: &Number) -> Result<Row, AllocError>
    ensures { IfOk result (λ row. row ≡ money_row words.now number.now) }
{
    let mut row = Row::of_words(alloc, &[words])?;
    push_number(alloc, &mut row, number)?;
    Ok(row)
}

fn unit_money(
    alloc: Global,
    words: &str,
    what: UnitAmount,
    problem: &Problem,
    network: &Network,
) -> Result<Row, AllocError>
    requires { (u : ℕ) → has network.now.units u ≡ true → u < length problem.now.units }
    ensures { IfOk result
        (λ row. row ≡ money_row words.now (unit_sum what problem.now network.now)) }
{
    money_row(alloc, words, &unit_sum(what, problem, network))
}

fn material_money(
    alloc: Global,
    words: &str,
    part: CostPart,
    site: &Site<'_>,
    network: &Network,
) -> Result<Row, AllocError>
    requires feasible { IsFeasible site.now network.now }
    ensures { IfOk result (λ row. row ≡ money_row words.now (cost_sum part site.now network.now)) }
{
    money_row(alloc, words, &cost_sum(part, site, network))
}

/// The cost of the network in one year, with six digits if it has more.
#[tactic(auto, unfolding(crate::specs::Unfolded::total_cell))]
pub fn push_total(text: &mut String, problem: &Problem, network: &Network) -> Result<(), AllocError>
    ensures { OnOk result
        (string_bytes text.new ≡ string_bytes text.old ++ total_cell problem.now network.now) }
{
    problem.is_valid();
    network.is_sized();
    let half = 500_000_000_000 * problem.payout().unsigned_abs();
    push_six_digits(text, half, network.cost(), network.d())
}

/// The lower bound for one year, rounded down, with six digits if it has more.
#[tactic(auto, unfolding(crate::specs::Unfolded::low_cell))]
pub fn push_low(text: &mut String, problem: &Problem, low: &LowerBound) -> Result<(), AllocError>
    ensures { OnOk result
        (string_bytes text.new ≡ string_bytes text.old ++ low_cell problem.now low.now) }
{
    problem.is_valid();
    let half = 500_000_000_000 * problem.payout().unsigned_abs();
    push_six_digits_down(text, half, low.cost, low.d)
}

fn total_words(cost: i128) -> &'static str
    ensures { result.now ≡ total_words cost }
{
    if cost < 0 {
        "total (an income)"
    } else {
        "total (a cost)"
    }
}

fn total_row(alloc: Global, problem: &Problem, network: &Network) -> Result<Row, AllocError>
    ensures { IfOk result (λ row. row ≡ total_row problem.now network.now) }
{
    let mut row = Row::of_words(alloc, &[total_words(network.cost())])?;
    let mut cell = String::new(alloc);
    push_total(&mut cell, problem, network)?;
    row.push(cell)?;
    Ok(row)
}

fn money_rows(alloc: Global, site: &Site<'_>, network: &Network) -> Result<Vec<Row>, AllocError>
    requires feasible { IsFeasible site.now network.now }
    ensures { IfOk result (λ rows. rows.items ≡ money_rows site.now network.now) }
{
    let problem = site.problem();
    let mut rows = Vec::new(alloc);
    rows.push(unit_money(alloc, "fixed costs", UnitAmount::Fixed, problem, network)?)?;
    rows.push(unit_money(
        alloc,
        "proportional costs",
        UnitAmount::Proportional,
        problem,
        network,
    )?)?;
    rows.push(unit_money(
        alloc,
        "investment costs",
        UnitAmount::Investment,
        problem,
        network,
    )?)?;
    rows.push(material_money(alloc, "material costs", CostPart::Costs, site, network)?)?;
    rows.push(material_money(alloc, "material incomes", CostPart::Incomes, site, network)?)?;
    rows.push(total_row(alloc, problem, network)?)?;
    Ok(rows)
}

fn money_heading(alloc: Global, measures: &Measures) -> Result<Row, AllocError>
    ensures { IfOk result (λ row. row ≡ money_heading measures.now) }
{
    let mut time = String::from_str(alloc, "in ")?;
    measures.time().push_time(&mut time)?;
    let mut row = Row::new(alloc);
    row.push(time)?;
    push_heading(alloc, &mut row, "money", measures.money())?;
    Ok(row)
}

/// Appends the table of money and an empty line.
pub(crate) fn push_money(
    alloc: Global,
    text: &mut String,
    plant: &Plant<'_>,
    network: &Network,
) -> Result<(), AllocError>
    requires feasible { IsFeasible plant.now.site.now network.now }
    ensures { OnOk result
        (string_bytes text.new ≡ string_bytes text.old
        ++ printed (money_lines plant.now.measures.now plant.now.site.now network.now)) }
{
    let heading = money_heading(alloc, plant.measures)?;
    let rows = money_rows(alloc, plant.site, network)?;
    let sorts = [Sort::Words, Sort::Sums];
    push_table_and_gap(alloc, text, &sorts, &heading, &rows)?;
    Ok(())
}
