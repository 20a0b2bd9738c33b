//! The units of a network.
ghost use Rattle.std.specs.Prelude.{◌≡◌, ◌<◌, ◌++◌, ℕ, true, IfOk, OnOk, map, length, codes};
ghost use Rattle.report_rules.specs.number_sets.Sets.{has};
ghost use Rattle.tree_reading.specs.pns_problem.Printing.{printed};
ghost use Rattle.report_rules.specs.Json.{member};
ghost use Rattle.report_rules.specs.Facts as facts;

use crate::members::{limit_member, number_member, text_member};
use crate::{Json, push_array};
use report_rules::UnitAmount;
use report_tables::{Marginals, NO_BOUND, amount, share_of, size, unit_limit, unit_of};
use std::alloc::{AllocError, Global};
use tree_reading::{Network, Problem};

/// The share of the upper bound. It is `null` if that bound is not above 0, or stands for none.
#[tactic(auto, unfolding(crate::specs::Unfolded::share_json))]
fn share_json(
    alloc: Global,
    problem: &Problem,
    network: &Network,
    u: u32,
) -> Result<Json, AllocError>
    requires { u < length problem.now.units }
    ensures { IfOk result (λ json. json ≡ facts.share_json problem.now network.now u) }
{
    let upper = unit_of(problem, u).upper;
    if upper <= 0 || upper == NO_BOUND {
        Json::null(alloc)
    } else {
        Json::number(alloc, share_of(network, u, upper).fraction())
    }
}

fn share_member(
    alloc: Global,
    problem: &Problem,
    network: &Network,
    u: u32,
) -> Result<Json, AllocError>
    requires { u < length problem.now.units }
    ensures { IfOk result
        (λ json. json ≡ member (codes "share") (facts.share_json problem.now network.now u)) }
{
    Json::member(alloc, "share", &share_json(alloc, problem, network, u)?)
}

fn unit_json(
    alloc: Global,
    problem: &Problem,
    network: &Network,
    marginals: &Marginals,
    u: u32,
) -> Result<Json, AllocError>
    requires { u < length problem.now.units }
    ensures { IfOk result
        (λ json. json ≡ facts.unit_json problem.now network.now marginals.now u) }
{
    let name = text_member(alloc, "name", problem.unit_name(u))?;
    let sized = number_member(alloc, "size", &size(network, u))?;
    let share = share_member(alloc, problem, network, u)?;
    let limit = limit_member(alloc, unit_limit(problem, network, u))?;
    let cost = amount(UnitAmount::Fixed, problem, network, u);
    let fixed = number_member(alloc, "fixed", &cost)?;
    let cost = amount(UnitAmount::Proportional, problem, network, u);
    let proportional = number_member(alloc, "proportional", &cost)?;
    let cost = amount(UnitAmount::Investment, problem, network, u);
    let investment = number_member(alloc, "investment", &cost)?;
    let cost = amount(UnitAmount::Total, problem, network, u);
    let total = number_member(alloc, "total", &cost)?;
    let saved = number_member(alloc, "marginal", &marginals.of_unit(problem, u))?;
    let members = [
        name,
        sized,
        share,
        limit,
        fixed,
        proportional,
        investment,
        total,
        saved,
    ];
    let json = Json::object(alloc, &members)?;
    Ok(json)
}

fn unit_values(
    alloc: Global,
    problem: &Problem,
    network: &Network,
    marginals: &Marginals,
) -> Result<Vec<Json>, AllocError>
    requires { (u : ℕ) → has network.now.units u ≡ true → u < length problem.now.units }
    ensures { IfOk result
        (λ values. values.items
        ≡ map (facts.unit_json problem.now network.now marginals.now) network.now.units) }
{
    let mut values = Vec::new(alloc);
    for u in network.units() {
        values.push(unit_json(alloc, problem, network, marginals, u)?)?;
    }
    Ok(values)
}

/// Appends the lines of the units.
pub(crate) fn push_units(
    alloc: Global,
    text: &mut Vec<u8>,
    problem: &Problem,
    network: &Network,
    marginals: &Marginals,
) -> Result<(), AllocError>
    requires { (u : ℕ) → has network.now.units u ≡ true → u < length problem.now.units }
    ensures { OnOk result
        (text.new.items ≡ text.old.items
        ++ printed (facts.unit_lines problem.now network.now marginals.now)) }
{
    let values = unit_values(alloc, problem, network, marginals)?;
    push_array(text, "units", &values)
}
