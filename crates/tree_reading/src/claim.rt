//! Claims.
ghost use Rattle.std.specs.Prelude.{◌≡◌, ◌<◌, ◌-◌, ◌^◌, Ok, IfOk, IfErr, length};
ghost use Rattle.branch_tree.specs.View.{claim_of};
ghost use Rattle.tree_text_rules.specs.tree_rules.Known.{AreUnits, KnowsClaim};
ghost use Rattle.tree_text_rules.specs.Read.{sizes_taken, network_taken, claim_taken};
ghost use Rattle.tree_reading.specs.Gives.{GivesAt};
ghost use Rattle.tree_reading.specs.Place.{IsCut, IsBehind, lines_at};
ghost use Rattle.tree_reading.specs.Taken.{taken};
ghost use Rattle.text_lines.specs.Tells.{Tells};

use crate::apart::parts_of;
use crate::claim_line::{cost_line, network_line, opening_line, sizes_line};
use crate::cut::{Cut, next_line};
use crate::fault::{TreeFault, at_line};
use crate::opening::Opening;
use branch_tree::{Claim, Network, Problem, UnitSet};
use std::alloc::Global;

// Sizes and cost of a network with these units.
fn read_sizes(
    alloc: Global,
    units: UnitSet,
    bytes: &[u8],
    cut: Cut,
) -> Result<(Network, Cut), TreeFault>
    requires cut { IsCut bytes.now cut }
    requires few { length bytes.now < 2 ^ 32 - 1 }
    ensures { GivesAt (λ w. w) (λ w. w.units ≡ units) (sizes_taken units) bytes.now cut result }
{
    let (line, first) = next_line(bytes, cut)?;
    let read = sizes_line(alloc, units.count(), &parts_of(&line));
    let (d, sizes) = read.map_err(|fault| fault.at(cut.line))?;
    let (line, behind) = next_line(bytes, first)?;
    let cost = at_line(first, cost_line(&parts_of(&line)))?;
    Ok((Network::of(units, sizes, d, cost), behind))
}

/// The network whose first line is at this place, and the place after its three lines. `At` comes
/// with the first fault of these lines, and only then; `Memory` says that there was no memory.
pub fn read_network(
    alloc: Global,
    problem: &Problem,
    bytes: &[u8],
    cut: Cut,
) -> Result<(Network, Cut), TreeFault>
    requires cut { IsCut bytes.now cut }
    requires few { length bytes.now < 2 ^ 32 - 1 }
    ensures read { IfOk result
        (λ found. network_taken problem.now cut.line (lines_at bytes.now cut)
        ≡ Ok (taken found.0 bytes.now found.1)) }
    ensures behind { IfOk result (λ found. IsBehind bytes.now cut found.1) }
    ensures known { IfOk result (λ found. AreUnits problem.now found.0.units) }
    ensures fault { IfErr result
        (Tells (network_taken problem.now cut.line (lines_at bytes.now cut))) }
{
    let (line, first) = next_line(bytes, cut)?;
    let units = at_line(cut, network_line(problem, &parts_of(&line)))?;
    read_sizes(alloc, units, bytes, first)
}

/// The claim whose first line is at this place, and the place after it.
pub fn read_claim(
    alloc: Global,
    problem: &Problem,
    bytes: &[u8],
    cut: Cut,
) -> Result<(Claim, Cut), TreeFault>
    requires cut { IsCut bytes.now cut }
    requires few { length bytes.now < 2 ^ 32 - 1 }
    ensures { GivesAt claim_of (KnowsClaim problem.now) (claim_taken problem.now) bytes.now cut
        result }
{
    let (line, first) = next_line(bytes, cut)?;
    match at_line(cut, opening_line(problem, &parts_of(&line)))? {
        Opening::Network(units) => {
            let (network, behind) = read_sizes(alloc, units, bytes, first)?;
            Ok((Claim::Network(network), behind))
        }
        Opening::Infeasible => Ok((Claim::Infeasible, first)),
        Opening::Unknown => Ok((Claim::Unknown, first)),
    }
}
