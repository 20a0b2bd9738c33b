//! The table of materials.
ghost use Rattle.std.specs.Prelude.{◌≡◌, ◌<◌, ◌++◌, ◌∷◌, [], ◌*ℤ◌, ℕ, true, IfOk, OnOk, map};
ghost use Rattle.std.specs.Prelude.{length, string_bytes};
ghost use Rattle.cert_check.specs.integer_laws.Range.{InRange};
ghost use Rattle.text_lines.specs.number_sets.Sets.{has};
ghost use Rattle.text_lines.specs.problem_rules.Problem.{material_at, is_raw_material};
ghost use Rattle.cert_check.specs.pns_problem.Kind.{kind_of};
ghost use Rattle.cert_check.specs.pns_problem.Printing.{printed};
ghost use Rattle.text_lines.specs.text_rules.Canonical.{kind_word};
ghost use Rattle.cert_check.specs.flow_rules.Net.{net_of, materials_of, million};
ghost use Rattle.cert_check.specs.tree_rules.Claim.{IsFeasible};
ghost use Rattle.report_amounts.specs.report_rules.declared.amount.UnitAmount.TheVariants.{Made};
ghost use Rattle.report_amounts.specs.report_rules.declared.amount.UnitAmount.TheVariants.{Used};
ghost use Rattle.report_amounts.specs.report_rules.declared.cost_part.CostPart.TheVariants.{All};
ghost use Rattle.report_amounts.specs.report_rules.Amounts.{unit_sum, net, price, cost, cost_sum};
ghost use Rattle.report_amounts.specs.report_rules.Marginal.{marginal};
ghost use Rattle.report_amounts.specs.report_rules.Report.{number_cell, bought_or_left};
ghost use Rattle.report_amounts.specs.report_rules.Report.{turned_flow, no_bound};
ghost use Rattle.report_amounts.specs.report_rules.Report.{marginal_cell};
ghost use Rattle.report_amounts.specs.report_rules.Report.{material_limit, material_heading};
ghost use Rattle.report_amounts.specs.report_rules.Report.{material_row};
ghost use Rattle.report_amounts.specs.report_rules.Report.{all_materials_row, material_rows};
ghost use Rattle.report_amounts.specs.report_rules.Report.{material_lines};

use crate::cells::{
    push_heading, push_headings, push_marginal, push_number, push_numbers, push_words,
};
use crate::limits::{limit_words, unbounded_or};
use crate::measures::Measures;
use crate::plant::Plant;
use crate::row::Row;
use crate::tables::push_table_and_gap;
use cert_check::{Kind, Network, Problem, Site};
use report_amounts::{
    CostPart, Marginals, Sort, UnitAmount, cost, cost_sum, flow_at, kind_word, material_of,
    materials_in, net, price, unit_sum,
};
use std::alloc::{AllocError, Global};

/// 1000000000 in 10^-12: a bound that stands for none.
const NO_BOUND: i128 = 1_000_000_000_000_000_000_000;

fn push_kind(alloc: Global, row: &mut Row, problem: &Problem, j: u32) -> Result<(), AllocError>
    requires { j < length problem.now.materials }
    ensures { OnOk result (row.new ≡ row.old ++ kind_word (material_at problem.now j).kind ∷ []) }
{
    push_words(alloc, row, kind_word(material_of(problem, j).kind))?;
    Ok(())
}

fn bought_or_left(kind: Kind, flow: i128) -> i128
    requires { InRange flow }
    ensures value { result ≡ bought_or_left (is_raw_material (kind_of kind)) flow }
    ensures in_range { InRange result }
{
    match kind {
        Kind::RawMaterial => -flow,
        Kind::Intermediate | Kind::Product => flow,
    }
}

fn times_million(bound: i64) -> i128
    ensures { result ≡ million *ℤ bound }
{
    1_000_000 * i128::from(bound)
}

/// What is left over of the material, or of a raw material what is bought.
fn turned_flow(problem: &Problem, network: &Network, j: u32) -> i128
    requires feasible { IsFeasible problem.now network.now }
    requires material { has (materials_of (net_of problem.now) (has network.now.units)) j ≡ true }
    requires known { j < length problem.now.materials }
    ensures value { result ≡ turned_flow problem.now network.now j }
    ensures in_range { InRange result }
{
    bought_or_left(material_of(problem, j).kind, flow_at(problem, network, j))
}

/// The word for the bound, if any, that the net amount of the material is at.
pub fn material_limit(problem: &Problem, network: &Network, j: u32) -> &'static str
    requires feasible { IsFeasible problem.now network.now }
    requires material { has (materials_of (net_of problem.now) (has network.now.units)) j ≡ true }
    requires known { j < length problem.now.materials }
    ensures { result.now ≡ material_limit problem.now network.now j }
{
    let material = material_of(problem, j);
    let flow = turned_flow(problem, network, j);
    let words = limit_words(
        false,
        times_million(material.lower),
        times_million(material.upper),
        flow,
        network.d(),
    );
    unbounded_or(NO_BOUND, flow, network.d(), words)
}

/// What is made, what is used, and what is left over of a material.
fn push_flows(
    alloc: Global,
    row: &mut Row,
    problem: &Problem,
    network: &Network,
    j: u32,
) -> Result<(), AllocError>
    requires feasible { IsFeasible problem.now network.now }
    requires material { has (materials_of (net_of problem.now) (has network.now.units)) j ≡ true }
    ensures { OnOk result
        (row.new ≡ row.old ++ number_cell (unit_sum (Made j) problem.now network.now)
        ∷ number_cell (unit_sum (Used j) problem.now network.now)
        ∷ number_cell (net problem.now network.now j) ∷ []) }
{
    let flows = [
        unit_sum(UnitAmount::Made(j), problem, network),
        unit_sum(UnitAmount::Used(j), problem, network),
        net(problem, network, j),
    ];
    push_numbers(alloc, row, &flows)
}

/// What one more of the net amount of the material costs.
fn push_material_marginal(
    alloc: Global,
    row: &mut Row,
    problem: &Problem,
    marginals: &Marginals,
    j: u32,
) -> Result<(), AllocError>
    ensures { OnOk result
        (row.new
        ≡ row.old ++ marginal_cell marginals.now (marginal problem.now marginals.now j) ∷ []) }
{
    push_marginal(alloc, row, marginals, &marginals.of_material(problem, j))
}

fn material_row(
    alloc: Global,
    problem: &Problem,
    network: &Network,
    marginals: &Marginals,
    j: u32,
) -> Result<Row, AllocError>
    requires feasible { IsFeasible problem.now network.now }
    requires material { has (materials_of (net_of problem.now) (has network.now.units)) j ≡ true }
    requires known { j < length problem.now.materials }
    ensures { IfOk result (λ row. row ≡ material_row problem.now network.now marginals.now j) }
{
    let mut row = Row::of_words(alloc, &[problem.material_name(j)])?;
    push_kind(alloc, &mut row, problem, j)?;
    push_flows(alloc, &mut row, problem, network, j)?;
    push_words(alloc, &mut row, material_limit(problem, network, j))?;
    push_number(alloc, &mut row, &price(problem, j))?;
    push_number(alloc, &mut row, &cost(problem, network, j))?;
    push_material_marginal(alloc, &mut row, problem, marginals, j)?;
    Ok(row)
}

fn all_materials_row(alloc: Global, site: &Site<'_>, network: &Network) -> Result<Row, AllocError>
    requires feasible { IsFeasible site.now network.now }
    ensures { IfOk result (λ row. row ≡ all_materials_row site.now network.now) }
{
    let mut row = Row::of_words(alloc, &["all materials", "", "", "", "", "", ""])?;
    push_number(alloc, &mut row, &cost_sum(CostPart::All, site, network))?;
    push_words(alloc, &mut row, "")?;
    Ok(row)
}

fn material_rows(
    alloc: Global,
    site: &Site<'_>,
    network: &Network,
    marginals: &Marginals,
) -> Result<Vec<Row>, AllocError>
    requires feasible { IsFeasible site.now network.now }
    ensures { IfOk result
        (λ rows. rows.items ≡ map (material_row site.now network.now marginals.now)
        (materials_of (net_of site.now) (has network.now.units))) }
{
    let mut rows = Vec::new(alloc);
    for j in materials_in(site, network) {
        rows.push(material_row(alloc, site.problem(), network, marginals, j)?)?;
    }
    Ok(rows)
}

/// The rows of the materials, and that of their sums.
fn all_rows(
    alloc: Global,
    site: &Site<'_>,
    network: &Network,
    marginals: &Marginals,
) -> Result<Vec<Row>, AllocError>
    requires feasible { IsFeasible site.now network.now }
    ensures { IfOk result
        (λ rows. rows.items ≡ material_rows site.now network.now marginals.now) }
{
    let mut rows = material_rows(alloc, site, network, marginals)?;
    rows.push(all_materials_row(alloc, site, network)?)?;
    Ok(rows)
}

fn material_heading(alloc: Global, measures: &Measures) -> Result<Row, AllocError>
    ensures { IfOk result (λ row. row ≡ material_heading measures.now) }
{
    let price = measures.price(alloc)?;
    let mut row = Row::of_words(alloc, &["material", "kind"])?;
    push_headings(alloc, &mut row, &["made", "used", "net"], measures.mass())?;
    push_words(alloc, &mut row, "limit")?;
    push_heading(alloc, &mut row, "price", &price)?;
    push_heading(alloc, &mut row, "cost", measures.money())?;
    push_heading(alloc, &mut row, "marginal", &price)?;
    Ok(row)
}

/// Appends the table of materials and an empty line.
pub(crate) fn push_materials(
    alloc: Global,
    text: &mut String,
    plant: &Plant<'_>,
    network: &Network,
    marginals: &Marginals,
) -> Result<(), AllocError>
    requires feasible { IsFeasible plant.now.site.now network.now }
    ensures { OnOk result
        (string_bytes text.new ≡ string_bytes text.old
        ++ printed
        (material_lines plant.now.measures.now plant.now.site.now network.now marginals.now)) }
{
    let heading = material_heading(alloc, plant.measures)?;
    let rows = all_rows(alloc, plant.site, network, marginals)?;
    let sorts = [
        Sort::Words,
        Sort::Words,
        Sort::Numbers,
        Sort::Numbers,
        Sort::Numbers,
        Sort::Words,
        Sort::Numbers,
        Sort::Numbers,
        Sort::Numbers,
    ];
    push_table_and_gap(alloc, text, &sorts, &heading, &rows)?;
    Ok(())
}
