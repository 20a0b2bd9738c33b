//! The numbers of units and rows at a node. None of them can leave the range.
ghost use Rattle.std.specs.Prelude.{◌≡◌, ◌<◌, ◌≤◌, ◌*◌, ◌^◌, ◌+ℤ◌, ◌*ℤ◌, ◌≤ℤ◌, pos, cond, int_div};
ghost use Rattle.std.specs.Prelude.{length, unsigned_abs};
ghost use Rattle.std.specs.Ordering.{int_eq};
ghost use Rattle.pgraph.specs.pns_rules.Shape.{shape_of};
ghost use Rattle.pgraph.specs.View.{node_of};
ghost use Rattle.pgraph.specs.flow_rules.Net.{net_of, million, low_end, high_end};
ghost use Rattle.pgraph.specs.flow_rules.Relaxed.{row_low, row_high, unit_low, unit_cost};
ghost use Rattle.flow_program.specs.NodeSets.{AreNeeded};
ghost use Rattle.flow_program.specs.Rates.{AreRates};

use crate::costs::{fixed_cost, size_cost, slope};
use crate::ranges::{Range, range_of};
use pgraph::{MatSet, Node, Problem};

/// The range of the row of a material.
pub fn row_range(problem: &Problem, node: &Node, needed: MatSet, j: u32) -> Range
    requires known { j < length problem.now.materials }
    requires needed { AreNeeded (shape_of problem.now) (node_of node.now) needed }
    ensures low { result.low ≡ row_low (net_of problem.now) (node_of node.now) j }
    ensures high { result.high ≡ row_high (net_of problem.now) (node_of node.now) j }
    ensures low_small { unsigned_abs result.low ≤ 10 ^ 21 }
    ensures high_small { unsigned_abs result.high ≤ 10 ^ 21 }
{
    problem.is_valid();
    let material = &problem.materials()[j as usize];
    if needed.has(j) {
        range_of(problem, j, material.lower)
    } else {
        range_of(problem, j, 0)
    }
}

/// The range of what a material leaves over if it is there.
pub fn full_range(problem: &Problem, j: u32) -> Range
    requires known { j < length problem.now.materials }
    ensures low { result.low ≡ low_end (net_of problem.now) j ((net_of problem.now).lower j) }
    ensures high { result.high ≡ high_end (net_of problem.now) j ((net_of problem.now).lower j) }
    ensures low_small { unsigned_abs result.low ≤ 10 ^ 21 }
    ensures high_small { unsigned_abs result.high ≤ 10 ^ 21 }
{
    problem.is_valid();
    let material = &problem.materials()[j as usize];
    range_of(problem, j, material.lower)
}

/// What a free unit of size 1 pays instead of its fixed cost.
fn slope_cost(fixed: i128, upper: i64) -> i128
    requires { unsigned_abs fixed ≤ 2 * 10 ^ 17 }
    ensures value { result ≡ cond (int_eq upper (pos 0)) (pos 0) (int_div (fixed *ℤ million) upper)
        *ℤ million }
    ensures small { unsigned_abs result ≤ 2 * 10 ^ 29 }
{
    slope(fixed, upper) * 1_000_000
}

fn with_slope(each: i128, slope: i128) -> i128
    requires each { unsigned_abs each ≤ 10 ^ 35 }
    requires slope { unsigned_abs slope ≤ 2 * 10 ^ 29 }
    ensures value { result ≡ each +ℤ slope }
    ensures small { unsigned_abs result ≤ 10 ^ 36 }
{
    each + slope
}

/// What a unit of size 1 costs at the node.
fn unit_cost(problem: &Problem, node: &Node, u: u32, materials: MatSet, rates: &[i64]) -> i128
    requires unit { u < length problem.now.units }
    requires rates { AreRates problem.now u materials rates.now }
    ensures value { result ≡ unit_cost (net_of problem.now) (node_of node.now) u }
    ensures small { unsigned_abs result ≤ 10 ^ 36 }
{
    problem.is_valid();
    let unit = &problem.units()[u as usize];
    let each = size_cost(problem, u, materials, rates);
    if node.inside.has(u) {
        each
    } else {
        with_slope(each, slope_cost(fixed_cost(problem, u), unit.upper))
    }
}

/// What a unit of size 1 costs at the node, and the range of its size.
#[derive(Clone, Copy)]
pub struct UnitNumbers {
    pub cost: i128,
    pub low: i128,
    pub high: i128,
}

/// The numbers of a unit at a node, from its materials and rates.
pub fn unit_numbers(
    problem: &Problem,
    node: &Node,
    u: u32,
    materials: MatSet,
    rates: &[i64],
) -> UnitNumbers
    requires unit { u < length problem.now.units }
    requires rates { AreRates problem.now u materials rates.now }
    ensures cost { result.cost ≡ unit_cost (net_of problem.now) (node_of node.now) u }
    ensures low { result.low ≡ unit_low (net_of problem.now) (node_of node.now) u }
    ensures high { result.high ≡ (net_of problem.now).most u }
    ensures cost_small { unsigned_abs result.cost ≤ 10 ^ 36 }
    ensures low_small { unsigned_abs result.low ≤ 10 ^ 15 }
    ensures high_small { unsigned_abs result.high ≤ 10 ^ 15 }
    ensures ordered { result.low ≤ℤ result.high }
{
    problem.is_valid();
    let unit = &problem.units()[u as usize];
    let cost = unit_cost(problem, node, u, materials, rates);
    if node.inside.has(u) {
        UnitNumbers {
            cost,
            low: unit.lower as i128,
            high: unit.upper as i128,
        }
    } else {
        UnitNumbers {
            cost,
            low: 0,
            high: unit.upper as i128,
        }
    }
}
