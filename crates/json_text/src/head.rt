//! The head: counts and the payout period.
ghost use Rattle.std.specs.Prelude.{◌≡◌, ◌<◌, ◌++◌, ◌∷◌, [], ℕ, true, IfOk, OnOk, map, length};
ghost use Rattle.std.specs.Prelude.{unsigned_abs};
ghost use Rattle.report_rules.specs.number_sets.Sets.{has};
ghost use Rattle.tree_reading.specs.pns_problem.Printing.{printed};
ghost use Rattle.report_rules.specs.flow_rules.Net.{net_of, materials_of};
ghost use Rattle.report_rules.specs.Facts as facts;

use crate::members::count_member;
use crate::{Json, push_line, push_with_commas};
use report_tables::materials_in;
use std::alloc::{AllocError, Global};
use tree_reading::{Network, Problem, Site};

fn units_in(network: &Network) -> u64
    ensures { result ≡ length network.now.units }
{
    u64::from(network.units().count())
}

fn materials_count(site: &Site<'_>, network: &Network) -> u64
    requires known { (u : ℕ) → has network.now.units u ≡ true → u < length site.now.units }
    ensures { result ≡ length (materials_of (net_of site.now) (has network.now.units)) }
{
    u64::from(materials_in(site, network).count())
}

fn all_units(problem: &Problem) -> u64
    ensures { result ≡ length problem.now.units }
{
    problem.units().len() as u64
}

fn all_materials(problem: &Problem) -> u64
    ensures { result ≡ length problem.now.materials }
{
    problem.materials().len() as u64
}

fn counts_member(alloc: Global, site: &Site<'_>, network: &Network) -> Result<Json, AllocError>
    requires known { (u : ℕ) → has network.now.units u ≡ true → u < length site.now.units }
    ensures { IfOk result (λ json. json ≡ facts.counts_member site.now network.now) }
{
    let problem = site.problem();
    let units = count_member(alloc, "units", units_in(network))?;
    let of_units = count_member(alloc, "all_units", all_units(problem))?;
    let materials = count_member(alloc, "materials", materials_count(site, network))?;
    let of_materials = count_member(alloc, "all_materials", all_materials(problem))?;
    let members = [units, of_units, materials, of_materials];
    let counts = Json::object(alloc, &members)?;
    let member = Json::member(alloc, "counts", &counts)?;
    Ok(member)
}

fn years(problem: &Problem) -> u64
    ensures { result ≡ unsigned_abs problem.now.payout }
{
    problem.payout().unsigned_abs()
}

fn payout_member(alloc: Global, site: &Site<'_>) -> Result<Json, AllocError>
    ensures { IfOk result (λ json. json ≡ facts.payout_member site.now) }
{
    let years = years(site.problem());
    let member = count_member(alloc, "payout_period", years)?;
    Ok(member)
}

/// Appends the lines of the given members, and then those before the units.
pub(crate) fn push_head(
    alloc: Global,
    text: &mut Vec<u8>,
    head: &[Json],
    site: &Site<'_>,
    network: &Network,
) -> Result<(), AllocError>
    requires known { (u : ℕ) → has network.now.units u ≡ true → u < length site.now.units }
    ensures { OnOk result
        (text.new.items ≡ text.old.items
        ++ printed (facts.head_lines head.now site.now network.now)) }
{
    push_line(text, b"{")?;
    push_with_commas(text, head)?;
    let counts = counts_member(alloc, site, network)?;
    let payout = payout_member(alloc, site)?;
    let members = [counts, payout];
    push_with_commas(text, &members)?;
    Ok(())
}
