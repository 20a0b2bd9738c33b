//! A row of the table: what is varied, and its range.
ghost use Rattle.std.specs.Prelude.{◌≡◌, ◌≤◌, ℕ, IfOk, IfErr, codes, string_bytes};
ghost use Rattle.stability.specs.problem_rules.Problem.{Problem};
ghost use Rattle.stability.specs.problem_rules.Validity.{IsValid};
ghost use Rattle.stability.specs.tree_rules.Claim.{Network, IsFeasible};
ghost use Rattle.stability.specs.report_rules.declared.spot.Spot.{Spot};
ghost use Rattle.stability.specs.report_rules.Spot.{KnowsSpot};
ghost use Rattle.stability.specs.Refusal.{IsRefusal};
ghost use Rattle.network_commands.specs.studio_rules.StableTable.{kind_cell, name_cell, end_cell};
ghost use Rattle.network_commands.specs.studio_rules.StableTable.{HasEnds};
ghost use Rattle.network_commands.specs.studio_rules.StableTable.{range_row, IsRangeRow};
ghost use Rattle.stability_commands.specs.Table.{IsTableFault};

use network_commands::{Row, push_words};
use stability::{
    Effort, Network, Problem, Range, RangeFault, Site, Spot, Watch, accepted_is_optimal,
    amount_text, range, value_at, valued_is_valid,
};
use std::alloc::{AllocError, Global};

/// The two ends of a range, as cells.
#[derive(Drop)]
pub(crate) struct EndCells {
    from: String,
    to: String,
}

/// Why there is no table.
#[derive(Drop)]
pub(crate) enum TableFault {
    /// This network of least cost is cheaper now.
    NotBest(Network),
    /// There is no memory.
    Memory,
}

impl From<AllocError> for TableFault {
    ghost use Rattle.std.specs.Prelude.{◌≡◌};
    ghost use Rattle.stability_commands.specs.declared.cells.TableFault.TheVariants.{Memory};

    ghost from_gives = { λ _ e. e ≡ Memory };

    fn from(_e: AllocError) -> TableFault {
        TableFault::Memory
    }
}

/// An end of a range, which is the limit of the values if no network is beyond it.
fn end_text(alloc: Global, value: i64, beyond: &Option<Network>) -> Result<String, AllocError>
    ensures { IfOk result (λ text. string_bytes text ≡ end_cell value beyond.now) }
{
    match beyond {
        Some(_) => amount_text(alloc, value),
        None => String::from_str(alloc, "limit"),
    }
}

/// The ends of a range that was found.
fn found_ends(alloc: Global, found: &Range) -> Result<EndCells, AllocError>
    ensures from { IfOk result
        (λ ends. string_bytes ends.from ≡ end_cell found.now.from found.now.below) }
    ensures to { IfOk result
        (λ ends. string_bytes ends.to ≡ end_cell found.now.to found.now.above) }
{
    let from = end_text(alloc, found.from, &found.below)?;
    let to = end_text(alloc, found.to, &found.above)?;
    Ok(EndCells { from, to })
}

/// The ends of a range that was not found.
fn open_ends(alloc: Global) -> Result<EndCells, AllocError>
    ensures from { IfOk result (λ ends. string_bytes ends.from ≡ codes "?") }
    ensures to { IfOk result (λ ends. string_bytes ends.to ≡ codes "?") }
{
    let from = String::from_str(alloc, "?")?;
    let to = String::from_str(alloc, "?")?;
    Ok(EndCells { from, to })
}

/// The ends if there is no range, but if a network is cheaper now.
fn refused_ends(alloc: Global, fault: RangeFault) -> Result<EndCells, TableFault>
    ensures cells { (p : Problem) (spot : Spot) (w : Network) (budget : ℕ) → IsValid p
        → KnowsSpot p spot → IsRefusal p spot w budget fault
        → IfOk result
        (λ ends. HasEnds budget p w spot (string_bytes ends.from) (string_bytes ends.to)) }
    ensures fault { (p : Problem) (spot : Spot) (w : Network) (budget : ℕ)
        → IsRefusal p spot w budget fault → IfErr result (IsTableFault p w) }
{
    valued_is_valid();
    accepted_is_optimal();
    match fault {
        RangeFault::NotBest(cheaper) => Err(TableFault::NotBest(cheaper)),
        RangeFault::Spent { .. } => Ok(open_ends(alloc)?),
        RangeFault::Past { .. } => Ok(open_ends(alloc)?),
        RangeFault::PastCost { .. } => Ok(open_ends(alloc)?),
        RangeFault::Memory => Err(TableFault::Memory),
    }
}

/// The ends of the range of a price or cost.
fn ends_of<W: Watch>(
    alloc: Global,
    site: &Site<'_>,
    network: &Network,
    spot: Spot,
    effort: Effort<W>,
) -> Result<EndCells, TableFault>
    requires passes { IsFeasible site.now network.now }
    requires known { KnowsSpot site.now spot }
    requires some { 1 ≤ effort.budget }
    ensures cells { IfOk result
        (λ ends. HasEnds effort.budget site.now network.now spot (string_bytes ends.from)
        (string_bytes ends.to)) }
    ensures fault { IfErr result (IsTableFault site.now network.now) }
{
    site.problem().is_valid();
    match range(alloc, site, network, spot, effort) {
        Ok(found) => Ok(found_ends(alloc, &found)?),
        Err(fault) => refused_ends(alloc, fault),
    }
}

fn kind_word(spot: Spot) -> &'static str
    ensures { result.now ≡ kind_cell spot }
{
    match spot {
        Spot::Price(_) => "price",
        Spot::Fix(_) => "fix",
        Spot::Proportional(_) => "proportional",
    }
}

fn name_in(problem: &Problem, spot: Spot) -> &str
    ensures { result.now ≡ name_cell problem.now spot }
{
    match spot {
        Spot::Price(x) => problem.material_name(x),
        Spot::Fix(u) => problem.unit_name(u),
        Spot::Proportional(u) => problem.unit_name(u),
    }
}

/// The row of a price or cost, with its present value between the ends.
fn row_with(alloc: Global, problem: &Problem, spot: Spot, ends: EndCells) -> Result<Row, AllocError>
    requires known { KnowsSpot problem.now spot }
    ensures { IfOk result
        (λ row. row ≡ range_row problem.now spot (string_bytes ends.from) (string_bytes ends.to)) }
{
    let EndCells { from, to } = ends;
    let mut row = Row::new(alloc);
    push_words(alloc, &mut row, kind_word(spot))?;
    push_words(alloc, &mut row, name_in(problem, spot))?;
    row.push(from)?;
    row.push(amount_text(alloc, value_at(problem, spot))?)?;
    row.push(to)?;
    Ok(row)
}

/// The row of a price or cost.
pub(crate) fn row_of<W: Watch>(
    alloc: Global,
    site: &Site<'_>,
    network: &Network,
    spot: Spot,
    effort: Effort<W>,
) -> Result<Row, TableFault>
    requires passes { IsFeasible site.now network.now }
    requires known { KnowsSpot site.now spot }
    requires some { 1 ≤ effort.budget }
    ensures row { IfOk result (IsRangeRow effort.budget site.now network.now spot) }
    ensures fault { IfErr result (IsTableFault site.now network.now) }
{
    let ends = ends_of(alloc, site, network, spot, effort)?;
    let row = row_with(alloc, site.problem(), spot, ends)?;
    Ok(row)
}
