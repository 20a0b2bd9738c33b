//! The table of the ranges of a network.
ghost use Rattle.std.specs.Prelude.{◌≡◌, ◌≤◌, ◌++◌, ℕ, List, IfOk, IfErr, OnOk, string_bytes};
ghost use Rattle.stability.specs.problem_rules.Each.{Each};
ghost use Rattle.stability.specs.tree_rules.Claim.{IsFeasible};
ghost use Rattle.stability.specs.report_rules.Spot.{KnowsSpot};
ghost use Rattle.network_commands.specs.studio_rules.Lines.{text_of};
ghost use Rattle.network_commands.specs.studio_rules.StableTable.{spots_of, AreRangeRows, has_open};
ghost use Rattle.network_commands.specs.studio_rules.StableTable.{range_table};
ghost use Rattle.network_commands.specs.studio_rules.StableTable.{RangesLines, open_lines};
ghost use Rattle.stability_commands.specs.Table.{IsTableFault};

use crate::cells::{TableFault, row_of};
use crate::spots::spots_of;
use network_commands::{Row, push_table};
use stability::{Effort, Network, Site, Sort, Spot, Watch};
use std::alloc::{AllocError, Global};

const HEADING: [&str; 5] = ["kind", "name", "from", "now", "to"];

/// A row for each of these. Each has the whole budget.
fn rows_for<W: Watch>(
    alloc: Global,
    site: &Site<'_>,
    network: &Network,
    spots: &[Spot],
    effort: Effort<W>,
) -> Result<Vec<Row>, TableFault>
    requires passes { IsFeasible site.now network.now }
    requires known { Each (KnowsSpot site.now) spots.now }
    requires some { 1 ≤ effort.budget }
    ensures rows { IfOk result
        (λ rows. AreRangeRows effort.budget site.now network.now spots.now rows.items) }
    ensures fault { IfErr result (IsTableFault site.now network.now) }
{
    let mut watch = effort.watch;
    let mut rows = Vec::new(alloc);
    'finding: for spot in spots {
        let effort = Effort {
            budget: effort.budget,
            watch: &mut watch,
        };
        let row = row_of(alloc, site, network, *spot, effort)?;
        let Ok(()) = rows.push(row) else {
            return Err(TableFault::Memory);
        };
    }
    Ok(rows)
}

/// A row for each price and each cost of the network.
fn rows_of<W: Watch>(
    alloc: Global,
    site: &Site<'_>,
    network: &Network,
    effort: Effort<W>,
) -> Result<Vec<Row>, TableFault>
    requires passes { IsFeasible site.now network.now }
    requires some { 1 ≤ effort.budget }
    ensures rows { IfOk result
        (λ rows. AreRangeRows effort.budget site.now network.now
        (spots_of site.now network.now) rows.items) }
    ensures fault { IfErr result (IsTableFault site.now network.now) }
{
    let spots = spots_of(alloc, site, network)?;
    rows_for(alloc, site, network, &spots, effort)
}

/// Whether some row has no range.
fn has_open(rows: &[Row]) -> bool
    ensures { result ≡ has_open rows.now }
{
    'rows: for row in rows {
        if row.cell(2) == "?" {
            return true;
        }
    }
    false
}

/// Appends what to do if some row has no range.
fn push_open(text: &mut String, rows: &[Row]) -> Result<(), AllocError>
    ensures { OnOk result
        (string_bytes text.new ≡ string_bytes text.old ++ text_of (open_lines rows.now)) }
{
    if has_open(rows) {
        text.push_str("\n?: a search stopped; call again with a greater BUDGET, up to 1M\n")?;
    }
    Ok(())
}

/// Appends the table of the rows.
fn push_ranges(alloc: Global, text: &mut String, rows: &[Row]) -> Result<(), AllocError>
    ensures { OnOk result
        (string_bytes text.new ≡ string_bytes text.old ++ text_of (range_table rows.now)) }
{
    let heading = Row::of_words(alloc, &HEADING)?;
    let sorts = [Sort::Words, Sort::Words, Sort::Sums, Sort::Sums, Sort::Sums];
    push_table(alloc, text, &sorts, &heading, rows)?;
    push_open(text, rows)?;
    Ok(())
}

/// The text of the rows.
fn text_with(alloc: Global, rows: &[Row]) -> Result<Vec<u8>, AllocError>
    ensures { IfOk result (λ bytes. bytes.items ≡ text_of (range_table rows.now)) }
{
    let mut text = String::new(alloc);
    push_ranges(alloc, &mut text, rows)?;
    Ok(text.into_bytes())
}

/// The table of the ranges of all prices and costs of the network.
pub(crate) fn table_of<W: Watch>(
    alloc: Global,
    site: &Site<'_>,
    network: &Network,
    effort: Effort<W>,
) -> Result<Vec<u8>, TableFault>
    requires passes { IsFeasible site.now network.now }
    requires some { 1 ≤ effort.budget }
    ensures table { IfOk result
        (λ bytes. (lines : List (List ℕ)) × RangesLines effort.budget site.now network.now lines
        × (bytes.items ≡ text_of lines)) }
    ensures fault { IfErr result (IsTableFault site.now network.now) }
{
    let rows = rows_of(alloc, site, network, effort)?;
    let text = text_with(alloc, &rows)?;
    Ok(text)
}
