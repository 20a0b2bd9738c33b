//! The table of a ranking.
ghost use Rattle.std.specs.Prelude.{◌≡◌, ◌<◌, ◌+◌, ◌^◌, ◌++◌, ◌∷◌, [], IfOk, OnOk, length};
ghost use Rattle.std.specs.Prelude.{decimal, string_bytes};
ghost use Rattle.cert_check.specs.pns_problem.Printing.{printed};
ghost use Rattle.cert_check.specs.tree_rules.Claim.{IsFeasible};
ghost use Rattle.report_amounts.specs.report_rules.Report.{total_cell, report_lines};
ghost use Rattle.report_amounts.specs.report_rules.Ranked.{share_above_cell, change_cell};
ghost use Rattle.report_amounts.specs.report_rules.Ranked.{with_idle, idle_names, idle_cell};
ghost use Rattle.report_amounts.specs.report_rules.Ranked.{ranking_row};
ghost use Rattle.report_amounts.specs.report_rules.Ranked.{ranking_heading, ranking_rows};
ghost use Rattle.report_amounts.specs.report_rules.Ranked.{ranking_table, ranking_lines};
ghost use Rattle.report_tables.specs.First.{IsFirstFeasible};

use crate::cells::{push_headings, push_number, push_words};
use crate::measures::Measures;
use crate::money::push_total;
use crate::plant::Plant;
use crate::row::Row;
use crate::tables::push_table_and_gap;
use crate::text::push_report;
use cert_check::{Network, Problem, UnitSet};
use report_amounts::{
    Marginals, Sort, above_first, change_of, place_of, push_word, share_above, size_at,
};
use std::alloc::{AllocError, Global};

fn push_place(alloc: Global, row: &mut Row, place: u32) -> Result<(), AllocError>
    ensures { OnOk result (row.new ≡ row.old ++ decimal place ∷ []) }
{
    let cell = format!(in alloc; "{place}")?;
    row.push(cell)
}

fn push_cost(
    alloc: Global,
    row: &mut Row,
    problem: &Problem,
    network: &Network,
) -> Result<(), AllocError>
    ensures { OnOk result (row.new ≡ row.old ++ total_cell problem.now network.now ∷ []) }
{
    let mut cell = String::new(alloc);
    push_total(&mut cell, problem, network)?;
    row.push(cell)
}

/// What the network costs more than the first in per cent, or `-` if that costs nothing.
#[tactic(auto, unfolding(crate::specs::Unfolded::share_above_cell))]
fn push_share_above(
    alloc: Global,
    row: &mut Row,
    first: &Network,
    network: &Network,
) -> Result<(), AllocError>
    ensures { OnOk result (row.new ≡ row.old ++ share_above_cell first.now network.now ∷ []) }
{
    if first.cost() == 0 {
        return push_words(alloc, row, "-");
    }
    let mut cell = String::new(alloc);
    share_above(first, network).push_share(&mut cell)?;
    row.push(cell)
}

/// The units that the network takes in and leaves out against the first.
fn push_change(
    alloc: Global,
    row: &mut Row,
    problem: &Problem,
    first: &Network,
    network: &Network,
) -> Result<(), AllocError>
    ensures { OnOk result
        (row.new ≡ row.old ++ change_cell problem.now first.now network.now ∷ []) }
{
    let cell = change_of(alloc, problem, first, network)?;
    row.push(cell)
}

/// Appends the name of the unit if its size is 0.
#[tactic(auto, unfolding(crate::specs::Unfolded::with_idle))]
fn push_if_idle(
    text: &mut String,
    problem: &Problem,
    network: &Network,
    u: u32,
) -> Result<(), AllocError>
    ensures { OnOk result
        (string_bytes text.new ≡ with_idle problem.now network.now (string_bytes text.old) u) }
{
    if size_at(network, u) == 0 {
        push_word(text, "", problem.unit_name(u))
    } else {
        Ok(())
    }
}

/// Appends the names of those units whose size is 0.
fn push_idle_of(
    text: &mut String,
    problem: &Problem,
    network: &Network,
    units: UnitSet,
) -> Result<(), AllocError>
    ensures { OnOk result
        (string_bytes text.new ≡ idle_names problem.now network.now (string_bytes text.old)
        units) }
{
    for u in units {
        push_if_idle(text, problem, network, u)?;
    }
    Ok(())
}

/// The units of size 0.
fn push_idle(
    alloc: Global,
    row: &mut Row,
    problem: &Problem,
    network: &Network,
) -> Result<(), AllocError>
    ensures { OnOk result (row.new ≡ row.old ++ idle_cell problem.now network.now ∷ []) }
{
    let mut cell = String::new(alloc);
    push_idle_of(&mut cell, problem, network, network.units())?;
    row.push(cell)
}

fn ranking_row(
    alloc: Global,
    problem: &Problem,
    first: &Network,
    place: u32,
    network: &Network,
) -> Result<Row, AllocError>
    ensures { IfOk result (λ row. row ≡ ranking_row problem.now first.now place network.now) }
{
    let mut row = Row::new(alloc);
    push_place(alloc, &mut row, place)?;
    push_cost(alloc, &mut row, problem, network)?;
    push_number(alloc, &mut row, &above_first(problem, first, network))?;
    push_share_above(alloc, &mut row, first, network)?;
    push_change(alloc, &mut row, problem, first, network)?;
    push_idle(alloc, &mut row, problem, network)?;
    Ok(row)
}

fn ranking_rows(
    alloc: Global,
    problem: &Problem,
    first: &Network,
    networks: &[Network],
) -> Result<Vec<Row>, AllocError>
    requires { length networks.now < 2 ^ 32 }
    ensures { IfOk result
        (λ rows. rows.items ≡ ranking_rows problem.now first.now 1 networks.now) }
{
    let mut rows = Vec::new(alloc);
    'rows: for i in 0..networks.len() {
        let row = ranking_row(alloc, problem, first, place_of(i), &networks[i])?;
        rows.push(row)?;
    }
    Ok(rows)
}

fn ranking_heading(alloc: Global, measures: &Measures) -> Result<Row, AllocError>
    ensures { IfOk result (λ row. row ≡ ranking_heading measures.now) }
{
    let mut row = Row::of_words(alloc, &["place"])?;
    push_headings(alloc, &mut row, &["cost", "above"], measures.money())?;
    push_words(alloc, &mut row, "above %")?;
    push_words(alloc, &mut row, "change")?;
    push_words(alloc, &mut row, "idle")?;
    Ok(row)
}

/// Appends the table and an empty line.
fn push_ranking(
    alloc: Global,
    text: &mut String,
    plant: &Plant<'_>,
    first: &Network,
    networks: &[Network],
) -> Result<(), AllocError>
    requires { length networks.now < 2 ^ 32 }
    ensures { OnOk result
        (string_bytes text.new ≡ string_bytes text.old
        ++ printed
        (ranking_table plant.now.measures.now plant.now.site.now first.now networks.now)) }
{
    let heading = ranking_heading(alloc, plant.measures)?;
    let rows = ranking_rows(alloc, plant.site.problem(), first, networks)?;
    let sorts = [
        Sort::Numbers,
        Sort::Sums,
        Sort::Numbers,
        Sort::Numbers,
        Sort::Words,
        Sort::Words,
    ];
    push_table_and_gap(alloc, text, &sorts, &heading, &rows)?;
    Ok(())
}

/// The table, and after it the report of the first network.
fn ranked_text(
    alloc: Global,
    plant: &Plant<'_>,
    first: &Network,
    networks: &[Network],
    marginals: &Marginals,
) -> Result<Vec<u8>, AllocError>
    requires few { length networks.now < 2 ^ 32 }
    requires feasible { IsFeasible plant.now.site.now first.now }
    ensures { IfOk result
        (λ bytes. bytes.items
        ≡ printed
        (ranking_table plant.now.measures.now plant.now.site.now first.now networks.now
        ++ report_lines plant.now.measures.now plant.now.site.now first.now marginals.now)) }
{
    let mut text = String::new(alloc);
    push_ranking(alloc, &mut text, plant, first, networks)?;
    push_report(alloc, &mut text, plant, first, marginals)?;
    Ok(text.into_bytes())
}

/// The table of the networks, best first, and the report of the first with its marginals; nothing
/// if there is none.
pub fn ranking_of(
    alloc: Global,
    plant: &Plant<'_>,
    networks: &[Network],
    marginals: &Marginals,
) -> Result<Vec<u8>, AllocError>
    requires few { length networks.now < 2 ^ 32 }
    requires feasible { IsFirstFeasible plant.now.site.now networks.now }
    ensures { IfOk result
        (λ bytes. bytes.items
        ≡ printed
        (ranking_lines plant.now.measures.now plant.now.site.now marginals.now networks.now)) }
{
    match networks.split_first() {
        Some((first, _)) => ranked_text(alloc, plant, first, networks, marginals),
        None => Ok(Vec::new(alloc)),
    }
}
