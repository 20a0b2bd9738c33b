//! The networks of a ranking.
ghost use Rattle.std.specs.Prelude.{◌≡◌, ◌<◌, ◌+◌, ◌^◌, ◌++◌, IfOk, OnOk, length, codes};
ghost use Rattle.tree_reading.specs.pns_problem.Printing.{printed};
ghost use Rattle.report_rules.specs.Json.{member};
ghost use Rattle.report_rules.specs.JsonRanked as rules;
ghost use Rattle.report_tables.specs.First.{IsFirstFeasible};

use crate::Json;
use crate::foot::{names, total_member};
use crate::members::{count_member, number_member};
use crate::text::{bare_of, facts_of};
use report_tables::{Marginals, above_first, share_above, size_at};
use std::alloc::{AllocError, Global};
use tree_reading::{Network, Problem, Site, UnitSet};

/// What the network costs more than the first as a share of that, or `null` if that costs nothing.
#[tactic(auto, unfolding(crate::specs::Unfolded::share_above_json))]
fn share_above_json(alloc: Global, first: &Network, network: &Network) -> Result<Json, AllocError>
    ensures { IfOk result (λ json. json ≡ rules.share_above_json first.now network.now) }
{
    if first.cost() == 0 {
        Json::null(alloc)
    } else {
        Json::number(alloc, share_above(first, network).fraction())
    }
}

fn share_member(alloc: Global, first: &Network, network: &Network) -> Result<Json, AllocError>
    ensures { IfOk result
        (λ json. json
        ≡ member (codes "share_above") (rules.share_above_json first.now network.now)) }
{
    let share = share_above_json(alloc, first, network)?;
    Json::member(alloc, "share_above", &share)
}

/// The names of the units, under the key.
fn names_member(
    alloc: Global,
    key: &str,
    problem: &Problem,
    units: UnitSet,
) -> Result<Json, AllocError>
    ensures { IfOk result (λ json. json ≡ rules.names_member key.now problem.now units) }
{
    let names = names(alloc, problem, units)?;
    let array = Json::array(alloc, &names)?;
    Json::member(alloc, key, &array)
}

/// Appends the name of the unit if its size is 0.
#[tactic(auto, unfolding(crate::specs::Unfolded::idle_json))]
fn push_if_idle(
    alloc: Global,
    values: &mut Vec<Json>,
    problem: &Problem,
    network: &Network,
    u: u32,
) -> Result<(), AllocError>
    ensures { OnOk result
        (values.new.items ≡ values.old.items ++ rules.idle_json problem.now network.now u) }
{
    if size_at(network, u) == 0 {
        values.push(Json::string(alloc, problem.unit_name(u))?)?;
    }
    Ok(())
}

/// The names of those units whose size is 0.
fn idle_values(
    alloc: Global,
    problem: &Problem,
    network: &Network,
    units: UnitSet,
) -> Result<Vec<Json>, AllocError>
    ensures { IfOk result
        (λ values. values.items ≡ rules.idle_values problem.now network.now units) }
{
    let mut values = Vec::new(alloc);
    for u in units {
        push_if_idle(alloc, &mut values, problem, network, u)?;
    }
    Ok(values)
}

fn idle_member(alloc: Global, problem: &Problem, network: &Network) -> Result<Json, AllocError>
    ensures { IfOk result (λ json. json ≡ rules.idle_member problem.now network.now) }
{
    let values = idle_values(alloc, problem, network, network.units())?;
    let array = Json::array(alloc, &values)?;
    Json::member(alloc, "idle", &array)
}

fn network_json(
    alloc: Global,
    problem: &Problem,
    first: &Network,
    place: u32,
    network: &Network,
) -> Result<Json, AllocError>
    ensures { IfOk result
        (λ json. json ≡ rules.network_json problem.now first.now place network.now) }
{
    let place = count_member(alloc, "place", u64::from(place))?;
    let cost = total_member(alloc, "cost", problem, network)?;
    let above = number_member(alloc, "above", &above_first(problem, first, network))?;
    let share = share_member(alloc, first, network)?;
    let taken = names_member(
        alloc,
        "taken_in",
        problem,
        network.units().minus(first.units()),
    )?;
    let left = names_member(
        alloc,
        "left_out",
        problem,
        first.units().minus(network.units()),
    )?;
    let idle = idle_member(alloc, problem, network)?;
    let members = [place, cost, above, share, taken, left, idle];
    let json = Json::object(alloc, &members)?;
    Ok(json)
}

/// The place of the network of this number, counted from 0.
fn place_of(at: usize) -> u32
    requires { at + 1 < 2 ^ 32 }
    ensures { result ≡ at + 1 }
{
    at as u32 + 1
}

fn network_values(
    alloc: Global,
    problem: &Problem,
    first: &Network,
    networks: &[Network],
) -> Result<Vec<Json>, AllocError>
    requires { length networks.now < 2 ^ 32 }
    ensures { IfOk result
        (λ values. values.items ≡ rules.network_values problem.now first.now 1 networks.now) }
{
    let mut values = Vec::new(alloc);
    'values: for i in 0..networks.len() {
        let value = network_json(alloc, problem, first, place_of(i), &networks[i])?;
        values.push(value)?;
    }
    Ok(values)
}

fn values_of(
    alloc: Global,
    problem: &Problem,
    networks: &[Network],
) -> Result<Vec<Json>, AllocError>
    requires { length networks.now < 2 ^ 32 }
    ensures { IfOk result (λ values. values.items ≡ rules.values_of problem.now networks.now) }
{
    match networks.split_first() {
        Some((first, _)) => network_values(alloc, problem, first, networks),
        None => Ok(Vec::new(alloc)),
    }
}

/// The networks, best first, under their key.
pub fn networks_member(
    alloc: Global,
    problem: &Problem,
    networks: &[Network],
) -> Result<Json, AllocError>
    requires { length networks.now < 2 ^ 32 }
    ensures { IfOk result (λ json. json ≡ rules.networks_member problem.now networks.now) }
{
    let values = values_of(alloc, problem, networks)?;
    let array = Json::array(alloc, &values)?;
    Json::member(alloc, "networks", &array)
}

/// The object that begins with the members of the head, and has the facts of the first network with
/// its marginals if there is one.
pub fn first_of(
    alloc: Global,
    head: &[Json],
    site: &Site<'_>,
    networks: &[Network],
    marginals: &Marginals,
) -> Result<Vec<u8>, AllocError>
    requires { IsFirstFeasible site.now networks.now }
    ensures { IfOk result
        (λ bytes. bytes.items
        ≡ printed (rules.lines_behind head.now site.now marginals.now networks.now)) }
{
    match networks.split_first() {
        Some((first, _)) => facts_of(alloc, head, site, first, marginals),
        None => bare_of(alloc, head),
    }
}
