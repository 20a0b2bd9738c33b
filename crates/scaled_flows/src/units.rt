//! The scaled sizes of units and what they cost.
ghost use Rattle.std.specs.Prelude.{◌≡◌, ◌<◌, ◌≤ℤ◌, ◌-ℤ◌, ◌*ℤ◌, ℕ, pos, true, length, int_div};
ghost use Rattle.std.specs.Prelude.{IfSome};
ghost use Rattle.tree_rules.specs.integer_laws.Total.{total};
ghost use Rattle.tree_rules.specs.integer_laws.Range.{InRange};
ghost use Rattle.tree_rules.specs.number_sets.Sets.{has};
ghost use Rattle.tree_rules.specs.pns_rules.Shape.{shape_of};
ghost use Rattle.flow_program.specs.pgraph.Tables.{shape};
ghost use Rattle.flow_program.specs.pgraph.View.{node_of};
ghost use Rattle.tree_rules.specs.flow_rules.Net.{net_of};
ghost use Rattle.tree_rules.specs.flow_rules.Relaxed.{units};
ghost use Rattle.flow_program.specs.Entry.{entry};
ghost use Rattle.scaled_flows.specs.Divisors.{Divides, AreDivisors, HasDivisors, rate_divisor};
ghost use Rattle.scaled_flows.specs.Scaled.{size_costs};
ghost use Rattle.scaled_flows.specs.Settled.{IsSettled, IsSizeSettled};

use crate::Scales;
use crate::settled::{is_settled, scaled, scaled_rate};
use flow_program::{
    Graph, MatSet, Node, Problem, Range, UnitNumbers, UnitSet, checked_difference, checked_product,
    checked_sum, put_rates, unit_numbers,
};

/// A cost less what the multipliers of the materials pay for it at scaled rates.
fn price_of(
    cost: i128,
    scales: &Scales,
    materials: MatSet,
    rates: &[i64],
    y_at: &[i128],
) -> Option<i128>
    requires divisors { HasDivisors scales.now materials }
    requires all_rates { length rates.now ≡ 256 }
    requires all_ys { length y_at.now ≡ 256 }
    ensures { IfSome result
        (λ e. e ≡ cost -ℤ total
        (λ j. entry y_at.now j *ℤ int_div (entry rates.now j) (rate_divisor scales.now j))
        materials) }
{
    let mut rest = cost;
    for j in materials {
        let rate = scaled_rate(rates[j as usize], scales.rate(j));
        let paid = checked_product(y_at[j as usize], rate)?;
        rest = checked_difference(rest, paid)?;
    }
    Some(rest)
}

/// The numbers of a unit, scaled.
fn scaled_unit(unit: UnitNumbers, sizes: i64, costs: i128) -> UnitNumbers
    requires sizes { pos 1 ≤ℤ sizes }
    requires costs { pos 1 ≤ℤ costs }
    requires ordered { unit.low ≤ℤ unit.high }
    requires low_divided { Divides sizes unit.low }
    requires high_divided { Divides sizes unit.high }
    ensures cost { result.cost ≡ int_div unit.cost costs }
    ensures low { result.low ≡ int_div unit.low sizes }
    ensures high { result.high ≡ int_div unit.high sizes }
    ensures ordered { result.low ≤ℤ result.high }
{
    UnitNumbers {
        cost: scaled(unit.cost, costs),
        low: scaled(unit.low, sizes as i128),
        high: scaled(unit.high, sizes as i128),
    }
}

/// What the scaled size of a unit costs, if it is in its range at the place that its price needs.
fn settled_cost(
    unit: UnitNumbers,
    size: i128,
    d: i128,
    scale: i128,
    scales: &Scales,
    materials: MatSet,
    rates: &[i64],
    y_at: &[i128],
) -> Option<i128>
    requires divisors { HasDivisors scales.now materials }
    requires all_rates { length rates.now ≡ 256 }
    requires all_ys { length y_at.now ≡ 256 }
    requires positive { pos 1 ≤ℤ d }
    requires ordered { unit.low ≤ℤ unit.high }
    ensures settled { IfSome result
        (λ c. IsSettled unit.low unit.high d size
        (scale *ℤ unit.cost -ℤ total
        (λ j. entry y_at.now j *ℤ int_div (entry rates.now j) (rate_divisor scales.now j))
        materials)) }
    ensures cost { IfSome result (λ c. c ≡ unit.cost *ℤ size) }
{
    let cost = checked_product(scale, unit.cost)?;
    let price = price_of(cost, scales, materials, rates, y_at)?;
    let range = Range {
        low: unit.low,
        high: unit.high,
    };
    if is_settled(size, d, range, price) {
        checked_product(unit.cost, size)
    } else {
        None
    }
}

/// What the scaled sizes cost, if each is in its range at the place that its price needs.
pub(crate) fn settled_costs(
    problem: &Problem,
    graph: &Graph,
    scales: &Scales,
    node: &Node,
    set: UnitSet,
    size_at: &[i128],
    d: i128,
    scale: i128,
    y_at: &[i128],
) -> Option<i128>
    requires graph { shape graph.now ≡ shape_of problem.now }
    requires scales { AreDivisors (net_of problem.now) scales.now }
    requires units { set ≡ units (net_of problem.now) (node_of node.now) }
    requires all_sizes { length size_at.now ≡ 128 }
    requires all_ys { length y_at.now ≡ 256 }
    requires positive { pos 1 ≤ℤ d }
    ensures settled { IfSome result
        (λ c. (i : ℕ) → has set i ≡ true
        → IsSizeSettled (net_of problem.now) scales.now (node_of node.now) (entry size_at.now) d
        scale (entry y_at.now) i) }
    ensures cost { IfSome result
        (λ c. c ≡ size_costs (net_of problem.now) scales.now (node_of node.now)
        (entry size_at.now)) }
    ensures in_range { IfSome result (λ c. InRange c) }
{
    problem.is_valid();
    let (sizes, costs) = (scales.sizes(), scales.costs());
    let mut rates = [0; 256];
    let mut sum = 0;
    for u in set {
        let materials = put_rates(&mut rates, problem, graph, u);
        materials.rises();
        let unit = scaled_unit(
            unit_numbers(problem, node, u, materials, &rates),
            sizes,
            costs,
        );
        let size = size_at[u as usize];
        let cost = settled_cost(unit, size, d, scale, scales, materials, &rates, y_at)?;
        sum = checked_sum(sum, cost)?;
    }
    Some(sum)
}
