//! What follows units and materials: the money of one year, the investment, and the units left out.
ghost use Rattle.std.specs.Prelude.{◌≡◌, ◌*ℤ◌, pos, ◌<◌, ◌++◌, ◌∷◌, [], ℕ, true, IfOk, OnOk, map};
ghost use Rattle.std.specs.Prelude.{length, codes};
ghost use Rattle.report_rules.specs.number_sets.Sets.{has};
ghost use Rattle.tree_reading.specs.pns_problem.Printing.{printed};
ghost use Rattle.report_rules.specs.tree_rules.Claim.{IsFeasible};
ghost use Rattle.report_rules.specs.Json.{with_comma};
ghost use Rattle.report_rules.specs.Facts as facts;
ghost use Rattle.report_rules.specs.Amounts.{quotient, unit_sum, cost_sum};
ghost use Rattle.report_rules.specs.Report.{left_out};

use crate::members::number_member;
use crate::{Json, push_line, push_with_commas};
use report_rules::{CostPart, UnitAmount};
use report_tables::{Number, cost_sum, left_out, unit_sum};
use std::alloc::{AllocError, Global};
use tree_reading::{Network, Problem, Site, UnitSet};

/// The cost of the network in 10^-18, not yet divided by the payout period.
#[tactic(auto, unfolding(crate::specs::Unfolded::quotient))]
fn claimed(network: &Network) -> Number
    ensures { result ≡ quotient network.now.cost network.now.d }
{
    network.is_sized();
    Number::of(network.cost(), network.d())
}

/// 1 over 10^18 and the payout period.
#[tactic(auto, unfolding(crate::specs::Unfolded::quotient))]
pub(crate) fn year(problem: &Problem) -> Number
    ensures { result ≡ quotient (pos 1) (pos 1000000000000000000 *ℤ problem.now.payout) }
{
    problem.is_valid();
    let scale = 1_000_000_000_000_000_000 * i128::from(problem.payout());
    Number::of(1, scale)
}

/// The cost of the network for one year.
fn total(problem: &Problem, network: &Network) -> Number
    ensures { result ≡ facts.total problem.now network.now }
{
    claimed(network).times(&year(problem))
}

/// The cost of the network for one year, under the key.
pub(crate) fn total_member(
    alloc: Global,
    key: &str,
    problem: &Problem,
    network: &Network,
) -> Result<Json, AllocError>
    ensures { IfOk result
        (λ json. json ≡ facts.number_member key.now (facts.total problem.now network.now)) }
{
    let total = total(problem, network);
    let member = number_member(alloc, key, &total)?;
    Ok(member)
}

/// The sum of a number of the units.
fn units_member(
    alloc: Global,
    key: &str,
    what: UnitAmount,
    site: &Site<'_>,
    network: &Network,
) -> Result<Json, AllocError>
    requires { (u : ℕ) → has network.now.units u ≡ true → u < length site.now.units }
    ensures { IfOk result
        (λ json. json ≡ facts.number_member key.now (unit_sum what site.now network.now)) }
{
    let problem = site.problem();
    let sum = unit_sum(what, problem, network);
    let member = number_member(alloc, key, &sum)?;
    Ok(member)
}

/// The sum of the costs of the materials, or of a part of them.
fn materials_member(
    alloc: Global,
    key: &str,
    part: CostPart,
    site: &Site<'_>,
    network: &Network,
) -> Result<Json, AllocError>
    requires feasible { IsFeasible site.now network.now }
    ensures { IfOk result
        (λ json. json ≡ facts.number_member key.now (cost_sum part site.now network.now)) }
{
    let sum = cost_sum(part, site, network);
    let member = number_member(alloc, key, &sum)?;
    Ok(member)
}

fn money_member(alloc: Global, site: &Site<'_>, network: &Network) -> Result<Json, AllocError>
    requires feasible { IsFeasible site.now network.now }
    ensures { IfOk result (λ json. json ≡ facts.money_member site.now network.now) }
{
    let fixed = units_member(alloc, "fixed", UnitAmount::Fixed, site, network)?;
    let what = UnitAmount::Proportional;
    let proportional = units_member(alloc, "proportional", what, site, network)?;
    let what = UnitAmount::Investment;
    let investment = units_member(alloc, "investment", what, site, network)?;
    let costs = materials_member(alloc, "material_costs", CostPart::Costs, site, network)?;
    let incomes = materials_member(alloc, "material_incomes", CostPart::Incomes, site, network)?;
    let total = total_member(alloc, "total", site.problem(), network)?;
    let members = [fixed, proportional, investment, costs, incomes, total];
    let money = Json::object(alloc, &members)?;
    let member = Json::member(alloc, "money", &money)?;
    Ok(member)
}

pub(crate) fn names(
    alloc: Global,
    problem: &Problem,
    units: UnitSet,
) -> Result<Vec<Json>, AllocError>
    ensures { IfOk result (λ names. names.items ≡ map (facts.unit_name problem.now) units) }
{
    let mut names = Vec::new(alloc);
    for u in units {
        names.push(Json::string(alloc, problem.unit_name(u))?)?;
    }
    Ok(names)
}

fn left_out_member(alloc: Global, site: &Site<'_>, network: &Network) -> Result<Json, AllocError>
    ensures { IfOk result (λ json. json ≡ facts.left_out_member site.now network.now) }
{
    let problem = site.problem();
    let units = left_out(problem, network);
    let names = names(alloc, problem, units)?;
    let array = Json::array(alloc, &names)?;
    let member = Json::member(alloc, "left_out", &array)?;
    Ok(member)
}

/// Appends the lines after the materials.
pub(crate) fn push_foot(
    alloc: Global,
    text: &mut Vec<u8>,
    site: &Site<'_>,
    network: &Network,
) -> Result<(), AllocError>
    requires feasible { IsFeasible site.now network.now }
    ensures { OnOk result
        (text.new.items ≡ text.old.items ++ printed (facts.foot_lines site.now network.now)) }
{
    let money = money_member(alloc, site, network)?;
    let once = units_member(alloc, "paid_once", UnitAmount::Once, site, network)?;
    let members = [money, once];
    push_with_commas(text, &members)?;
    let left_out = left_out_member(alloc, site, network)?;
    push_line(text, left_out.bytes())?;
    push_line(text, b"}")?;
    Ok(())
}
