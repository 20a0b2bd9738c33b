//! The numbers of a network's materials, and the sums of their costs.
ghost use Rattle.std.specs.Prelude.{◌≡◌, ◌<◌, ◌<ℤ◌, pos, neg_ℤ, true, length};
ghost use Rattle.report_rules.specs.integer_laws.Range.{InRange};
ghost use Rattle.report_rules.specs.number_sets.Sets.{has};
ghost use Rattle.report_rules.specs.problem_rules.Problem.{material_at};
ghost use Rattle.report_rules.specs.flow_rules.Net.{net_of, materials_of};
ghost use Rattle.report_rules.specs.flow_rules.Flows.{balance};
ghost use Rattle.report_rules.specs.tree_rules.Claim.{IsFeasible, size_in};
ghost use Rattle.report_rules.specs.Amounts.{flowing, net, price, cost, part_of, cost_sum};

use crate::amounts::{millionths, quotient};
use crate::number::Number;
use crate::{flow_of, materials_in};
use flow_evaluator::{Material, Network, Problem, Site};
use report_rules::CostPart;

pub fn material_of(problem: &Problem, j: u32) -> &Material
    requires { j < length problem.now.materials }
    ensures { result.now ≡ material_at problem.now j }
{
    &problem.materials()[j as usize]
}

/// What the network makes of a material of its own less what it uses of it, in 10^-12 over its `d`.
pub fn flow_at(problem: &Problem, network: &Network, j: u32) -> i128
    requires feasible { IsFeasible problem.now network.now }
    requires material { has (materials_of (net_of problem.now) (has network.now.units)) j ≡ true }
    ensures value { result ≡ balance (net_of problem.now) (has network.now.units)
        (size_in network.now) j }
    ensures in_range { InRange result }
{
    flow_of(problem, network, j)
}

/// What the network leaves over of the material, over its `d`, times num / den.
fn flowing(problem: &Problem, network: &Network, j: u32, num: i128, den: i128) -> Number
    requires feasible { IsFeasible problem.now network.now }
    requires material { has (materials_of (net_of problem.now) (has network.now.units)) j ≡ true }
    requires num_in_range { InRange num }
    requires den_in_range { InRange den }
    requires positive { pos 0 <ℤ den }
    ensures { result ≡ flowing problem.now network.now j num den }
{
    network.is_sized();
    let flow = quotient(flow_at(problem, network, j), network.d());
    flow.times(&quotient(num, den))
}

/// What is left over of the material, or below 0 what is bought of it.
pub fn net(problem: &Problem, network: &Network, j: u32) -> Number
    requires feasible { IsFeasible problem.now network.now }
    requires material { has (materials_of (net_of problem.now) (has network.now.units)) j ≡ true }
    ensures { result ≡ net problem.now network.now j }
{
    flowing(problem, network, j, 1, 1_000_000_000_000)
}

/// The price of the material.
pub fn price(problem: &Problem, j: u32) -> Number
    requires { j < length problem.now.materials }
    ensures { result ≡ price problem.now j }
{
    millionths(material_of(problem, j).price)
}

fn turned(price: i64) -> i128
    ensures value { result ≡ neg_ℤ price }
    ensures in_range { InRange result }
{
    -i128::from(price)
}

/// What the material costs, or below 0 what it brings in.
pub fn cost(problem: &Problem, network: &Network, j: u32) -> Number
    requires feasible { IsFeasible problem.now network.now }
    requires material { has (materials_of (net_of problem.now) (has network.now.units)) j ≡ true }
    requires known { j < length problem.now.materials }
    ensures { result ≡ cost problem.now network.now j }
{
    let price = turned(material_of(problem, j).price);
    flowing(problem, network, j, price, 1_000_000_000_000_000_000)
}

fn part_of(part: CostPart, cost: Number) -> Number
    ensures { result ≡ part_of part cost }
{
    match part {
        CostPart::All => cost,
        CostPart::Costs => cost.above(),
        CostPart::Incomes => cost.below(),
    }
}

/// The sum of the costs, or of these parts of them, over the network's materials.
pub fn cost_sum(part: CostPart, site: &Site<'_>, network: &Network) -> Number
    requires feasible { IsFeasible site.now network.now }
    ensures { result ≡ cost_sum part site.now network.now }
{
    let mut sum = Number::nothing();
    for j in materials_in(site, network) {
        sum = sum.plus(&part_of(part, cost(site.problem(), network, j)));
    }
    sum
}
