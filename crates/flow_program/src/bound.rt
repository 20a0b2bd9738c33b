//! Bounds and refutations of a node.
ghost use Rattle.std.specs.Prelude.{◌≡◌, ◌<◌, ◌≤◌, ◌+◌, ◌-◌, ◌*◌, ◌^◌, ◌↔◌, ◌+ℤ◌, ◌*ℤ◌, ◌≤ℤ◌, ℕ};
ghost use Rattle.std.specs.Prelude.{pos, true, length, SomeIff, IfOk, IfErr, OnOk, IsTrue};
ghost use Rattle.exact_numbers.specs.integer_laws.Range.{InRange};
ghost use Rattle.exact_numbers.specs.integer_laws.Total.{total};
ghost use Rattle.pgraph.specs.number_sets.Sets.{has};
ghost use Rattle.pgraph.specs.pns_rules.Shape.{shape_of};
ghost use Rattle.pgraph.specs.Tables.{shape};
ghost use Rattle.pgraph.specs.View.{node_of};
ghost use Rattle.pgraph.specs.flow_rules.Net.{net_of, beside};
ghost use Rattle.pgraph.specs.flow_rules.Relaxed.{units, rows, row_part, unit_part, bound, Refutes};
ghost use Rattle.pgraph.specs.flow_rules.Steps.{AreInRange, IsFirstPast};
ghost use Rattle.pgraph.specs.flow_rules.BoundSteps.{least_steps, rows_steps, reduced_steps};
ghost use Rattle.pgraph.specs.flow_rules.BoundSteps.{units_steps};
ghost use Rattle.pgraph.specs.flow_rules.BoundSteps.{bound_steps};
ghost use Rattle.flow_program.specs.Columns.{left_of, least_of, column_steps};
ghost use Rattle.flow_program.specs.Entry.{entry};
ghost use Rattle.flow_program.specs.NodeSets.{AreNeeded};

use crate::PastSum;
use crate::costs::fixed_costs;
use crate::node_numbers::{UnitNumbers, row_range, unit_numbers};
use crate::node_sets::{NodeSets, sets_of};
use crate::products::quick_product;
use crate::rates::put_rates;
use crate::tables::by_material;
use exact_numbers::{checked_difference, checked_sum};
use pgraph::{Graph, MatSet, Node, Problem, UnitSet};

/// The lesser of `factor * low` and `factor * high`, if it is in range. The greater is not formed.
fn lesser_product(factor: i128, low: i128, high: i128) -> Option<i128>
    requires { low ≤ℤ high }
    ensures { SomeIff result (InRange (least_of factor low high)) (least_of factor low high) }
{
    if factor < 0 {
        quick_product(factor, high)
    } else {
        quick_product(factor, low)
    }
}

/// The sum with the lesser of `factor * low` and `factor * high`. Its first step has the number
/// `start`.
fn with_least(start: u32, sum: i128, factor: i128, low: i128, high: i128) -> Result<i128, PastSum>
    requires room { start + 2 < 2 ^ 32 }
    requires ordered { low ≤ℤ high }
    ensures value { IfOk result (λ total. total ≡ sum +ℤ least_of factor low high) }
    ensures in_range { OnOk result (AreInRange (least_steps factor low high sum)) }
    ensures from_start { IfErr result (λ e. start ≤ e.at) }
    ensures past { IfErr result
        (λ e. IsFirstPast (least_steps factor low high sum) (e.at - start)) }
{
    let Some(least) = lesser_product(factor, low, high) else {
        return Err(PastSum { at: start });
    };
    match checked_sum(sum, least) {
        Some(total) => Ok(total),
        None => Err(PastSum { at: start + 1 }),
    }
}

/// What is left of a cost after the rows of the materials have paid, and the number of the next
/// step.
fn reduced(
    start: u32,
    cost: i128,
    materials: MatSet,
    rates: &[i64],
    ys: &[i128],
) -> Result<(i128, u32), PastSum>
    requires all_rates { length rates.now ≡ 256 }
    requires all_ys { length ys.now ≡ 256 }
    requires room { start ≤ 100000 }
    ensures value { IfOk result
        (λ p. p.0 ≡ left_of (entry ys.now) (entry rates.now) materials cost) }
    ensures in_range { OnOk result
        (AreInRange (reduced_steps (entry ys.now) (entry rates.now) materials cost)) }
    ensures count { IfOk result (λ p. p.1 ≡ start + 2 * length materials) }
    ensures from_start { IfErr result (λ e. start ≤ e.at) }
    ensures past { IfErr result
        (λ e. IsFirstPast (reduced_steps (entry ys.now) (entry rates.now) materials cost)
        (e.at - start)) }
{
    let mut rest = cost;
    let mut at = start;
    for j in materials {
        let Some(paid) = quick_product(ys[j as usize], rates[j as usize] as i128) else {
            return Err(PastSum { at });
        };
        let Some(difference) = checked_difference(rest, paid) else {
            return Err(PastSum { at: at + 1 });
        };
        rest = difference;
        at += 2;
    }
    Ok((rest, at))
}

/// The sum with the part of one unit, and the number of the next step.
fn with_unit(
    start: u32,
    sum: i128,
    d: i128,
    unit: UnitNumbers,
    materials: MatSet,
    rates: &[i64],
    ys: &[i128],
) -> Result<(i128, u32), PastSum>
    requires all_rates { length rates.now ≡ 256 }
    requires all_ys { length ys.now ≡ 256 }
    requires room { start ≤ 90000 }
    requires ordered { unit.low ≤ℤ unit.high }
    ensures value { IfOk result
        (λ p. p.0 ≡ sum +ℤ least_of
        (left_of (entry ys.now) (entry rates.now) materials (d *ℤ unit.cost)) unit.low unit.high) }
    ensures in_range { OnOk result
        (AreInRange
        (column_steps d unit.cost unit.low unit.high (entry ys.now) (entry rates.now) materials
        sum)) }
    ensures count { IfOk result (λ p. p.1 ≡ start + (3 + 2 * length materials)) }
    ensures from_start { IfErr result (λ e. start ≤ e.at) }
    ensures past { IfErr result
        (λ e. IsFirstPast
        (column_steps d unit.cost unit.low unit.high (entry ys.now) (entry rates.now) materials
        sum)
        (e.at - start)) }
{
    materials.rises();
    let Some(cost) = quick_product(d, unit.cost) else {
        return Err(PastSum { at: start });
    };
    match reduced(start + 1, cost, materials, rates, ys) {
        Err(past) => Err(past),
        Ok((left, at)) => match with_least(at, sum, left, unit.low, unit.high) {
            Err(past) => Err(past),
            Ok(total) => Ok((total, at + 2)),
        },
    }
}

/// The sum with the parts of the rows.
fn with_rows(
    sum: i128,
    problem: &Problem,
    node: &Node,
    rows: MatSet,
    needed: MatSet,
    ys: &[i128],
) -> Result<i128, PastSum>
    requires known { (j : ℕ) → has rows j ≡ true → j < length problem.now.materials }
    requires needed { AreNeeded (shape_of problem.now) (node_of node.now) needed }
    requires all_ys { length ys.now ≡ 256 }
    ensures value { IfOk result
        (λ t. t ≡ sum +ℤ total (row_part (net_of problem.now) (node_of node.now) (entry ys.now))
        rows) }
    ensures in_range { OnOk result
        (AreInRange (rows_steps (net_of problem.now) (node_of node.now) (entry ys.now) rows sum)) }
    ensures from_start { IfErr result (λ e. 1 ≤ e.at) }
    ensures past { IfErr result
        (λ e. IsFirstPast
        (rows_steps (net_of problem.now) (node_of node.now) (entry ys.now) rows sum) (e.at - 1)) }
{
    problem.is_valid();
    let mut total = sum;
    let mut at = 1;
    for j in rows {
        let range = row_range(problem, node, needed, j);
        match with_least(at, total, ys[j as usize], range.low, range.high) {
            Err(past) => return Err(past),
            Ok(next) => total = next,
        }
        at += 2;
    }
    Ok(total)
}

/// The sum with the parts of the units.
fn with_units(
    start: u32,
    sum: i128,
    d: i128,
    problem: &Problem,
    graph: &Graph,
    node: &Node,
    set: UnitSet,
    ys: &[i128],
) -> Result<i128, PastSum>
    requires graph { shape graph.now ≡ shape_of problem.now }
    requires units { set ≡ units (net_of problem.now) (node_of node.now) }
    requires all_ys { length ys.now ≡ 256 }
    requires room { start ≤ 1000 }
    ensures value { IfOk result
        (λ t. t
        ≡ sum +ℤ total (unit_part (net_of problem.now) (node_of node.now) d (entry ys.now))
        set) }
    ensures in_range { OnOk result
        (AreInRange
        (units_steps (net_of problem.now) (node_of node.now) d (entry ys.now) set sum)) }
    ensures from_start { IfErr result (λ e. start ≤ e.at) }
    ensures past { IfErr result
        (λ e. IsFirstPast
        (units_steps (net_of problem.now) (node_of node.now) d (entry ys.now) set sum)
        (e.at - start)) }
{
    problem.is_valid();
    let mut rates = [0; 256];
    let mut total = sum;
    let mut at = start;
    for u in set {
        let materials = put_rates(&mut rates, problem, graph, u);
        materials.rises();
        let unit = unit_numbers(problem, node, u, materials, &rates);
        match with_unit(at, total, d, unit, materials, &rates, ys) {
            Err(past) => return Err(past),
            Ok((next, next_at)) => {
                total = next;
                at = next_at;
            }
        }
    }
    Ok(total)
}

/// The bound of a node for the multiplier `d` of the cost and one multiplier for each row in rising
/// order, in the measure of costs times `d`. Or the number of the first step of the sum that is out
/// of range. For a `d` of at least 0 no flows at the node cost less, over `d`. Linear in the number
/// of rates of the units that are not left out. It takes no memory.
pub fn bound_of(
    problem: &Problem,
    graph: &Graph,
    node: Node,
    d: i128,
    ys: &[i128],
) -> Result<i128, PastSum>
    requires graph { shape graph.now ≡ shape_of problem.now }
    requires known { (u : ℕ) → has node.inside u ≡ true → u < (shape graph.now).units }
    requires multipliers { length ys.now ≡ length (rows (net_of problem.now) (node_of node)) }
    ensures value { IfOk result
        (λ b. b ≡ bound (net_of problem.now) (node_of node) d
        (beside (rows (net_of problem.now) (node_of node)) ys.now)) }
    ensures in_range { OnOk result
        (AreInRange
        (bound_steps (net_of problem.now) (node_of node) d
        (beside (rows (net_of problem.now) (node_of node)) ys.now))) }
    ensures past { IfErr result
        (λ e. IsFirstPast
        (bound_steps (net_of problem.now) (node_of node) d
        (beside (rows (net_of problem.now) (node_of node)) ys.now)) e.at) }
{
    problem.is_valid();
    node.inside.rises();
    let NodeSets {
        units,
        rows,
        needed,
    } = sets_of(graph, &node);
    rows.rises();
    let y_at = by_material(rows, ys);
    let Some(start) = quick_product(d, fixed_costs(problem, node.inside)) else {
        return Err(PastSum { at: 0 });
    };
    match with_rows(start, problem, &node, rows, needed, &y_at) {
        Err(past) => Err(past),
        Ok(sum) => with_units(
            1 + 2 * rows.count(),
            sum,
            d,
            problem,
            graph,
            &node,
            units,
            &y_at,
        ),
    }
}

/// Whether the multipliers, one for each row in rising order, refute the node, so that no structure
/// of it has flows. Or the number of the first step of their bound that is out of range. It takes
/// no memory.
pub fn refutes(problem: &Problem, graph: &Graph, node: Node, ys: &[i128]) -> Result<bool, PastSum>
    requires graph { shape graph.now ≡ shape_of problem.now }
    requires known { (u : ℕ) → has node.inside u ≡ true → u < (shape graph.now).units }
    requires multipliers { length ys.now ≡ length (rows (net_of problem.now) (node_of node)) }
    ensures value { IfOk result
        (λ b. IsTrue b
        ↔ Refutes (net_of problem.now) (node_of node)
        (beside (rows (net_of problem.now) (node_of node)) ys.now)) }
    ensures in_range { OnOk result
        (AreInRange
        (bound_steps (net_of problem.now) (node_of node) (pos 0)
        (beside (rows (net_of problem.now) (node_of node)) ys.now))) }
    ensures past { IfErr result
        (λ e. IsFirstPast
        (bound_steps (net_of problem.now) (node_of node) (pos 0)
        (beside (rows (net_of problem.now) (node_of node)) ys.now)) e.at) }
{
    match bound_of(problem, graph, node, 0, ys) {
        Err(past) => Err(past),
        Ok(bound) => Ok(bound > 0),
    }
}
