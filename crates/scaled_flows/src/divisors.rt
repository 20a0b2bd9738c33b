//! How the divisors of a problem's numbers are found: from the node with all units taken in, and
//! the node with all free.
ghost use Rattle.std.specs.Prelude.{◌≡◌, ◌<◌, ◌≤ℤ◌, ◌*ℤ◌, ℕ, pos, true, length, int_div};
ghost use Rattle.std.specs.Prelude.{unsigned_abs, slice_index_or, IfOk};
ghost use Rattle.std.specs.Int.{◌∣◌};
ghost use Rattle.tree_rules.specs.integer_laws.Range.{InRange};
ghost use Rattle.tree_rules.specs.number_sets.Sets.{has};
ghost use Rattle.tree_rules.specs.problem_rules.Problem.{rate_of};
ghost use Rattle.tree_rules.specs.pns_rules.Shape.{shape_of};
ghost use Rattle.flow_program.specs.pgraph.Tables.{shape};
ghost use Rattle.flow_program.specs.pgraph.View.{node_of};
ghost use Rattle.tree_rules.specs.flow_rules.Net.{net_of};
ghost use Rattle.tree_rules.specs.flow_rules.Relaxed.{row_low, row_high, unit_low, unit_cost};
ghost use Rattle.flow_program.specs.NodeSets.{AreNeeded};
ghost use Rattle.scaled_flows.specs.Found.{AreRateDivisors, AreUnitDivisors, DividesRow};

use crate::settled::scaled;
use flow_program::{
    Graph, MatSet, Node, Problem, checked_product, gcd, put_rates, rate_at, row_range, unit_numbers,
};
use std::alloc::{AllocError, Global};

/// The greatest common divisor of three numbers.
fn with_both(common: i128, first: i128, second: i128) -> i128
    requires common_in_range { InRange common }
    requires first_in_range { InRange first }
    requires second_in_range { InRange second }
    ensures in_range { InRange result }
    ensures common { unsigned_abs result ∣ unsigned_abs common }
    ensures first { unsigned_abs result ∣ unsigned_abs first }
    ensures second { unsigned_abs result ∣ unsigned_abs second }
{
    let inner = gcd(common, first);
    gcd(inner, second)
}

/// The divisor; or 1, which divides all, if it is below 1 or does not fit an `i64`.
pub(crate) fn narrowed(divisor: i128) -> i64
    ensures positive { pos 1 ≤ℤ result }
    ensures divides { unsigned_abs result ∣ unsigned_abs divisor }
{
    if divisor < 1 || divisor > i64::MAX as i128 {
        1
    } else {
        divisor as i64
    }
}

/// The divisor, or 1 if it is below 1.
fn at_least_one(divisor: i128) -> i128
    ensures positive { pos 1 ≤ℤ result }
    ensures divides { unsigned_abs result ∣ unsigned_abs divisor }
{
    if divisor >= 1 { divisor } else { 1 }
}

/// A common divisor of a material's rates and of the ends of its row.
fn rate_divisor(problem: &Problem, taken: &Node, needed: MatSet, j: u32) -> i64
    requires known { j < length problem.now.materials }
    requires needed { AreNeeded (shape_of problem.now) (node_of taken.now) needed }
    ensures positive { pos 1 ≤ℤ result }
    ensures rates { (i : ℕ) → i < length problem.now.units
        → unsigned_abs result ∣ unsigned_abs (rate_of problem.now j i) }
    ensures low { unsigned_abs result ∣ unsigned_abs
        (row_low (net_of problem.now) (node_of taken.now) j) }
    ensures high { unsigned_abs result ∣ unsigned_abs
        (row_high (net_of problem.now) (node_of taken.now) j) }
{
    problem.is_valid();
    let range = row_range(problem, taken, needed, j);
    let start = gcd(range.low, range.high);
    let mut common = start;
    let units = problem.units().len() as u32;
    'units: for u in 0..units {
        common = gcd(common, rate_at(problem, j, u) as i128);
    }
    narrowed(common)
}

/// A divisor for each material.
pub(crate) fn rate_divisors(
    alloc: Global,
    problem: &Problem,
    taken: &Node,
    needed: MatSet,
) -> Result<Vec<i64>, AllocError>
    requires needed { AreNeeded (shape_of problem.now) (node_of taken.now) needed }
    ensures { IfOk result
        (λ rates. AreRateDivisors (net_of problem.now) (node_of taken.now) rates.items
        (length problem.now.materials)) }
{
    problem.is_valid();
    let mut rates = Vec::new(alloc);
    let materials = problem.materials().len() as u32;
    'materials: for j in 0..materials {
        rates.push(rate_divisor(problem, taken, needed, j))?;
    }
    Ok(rates)
}

/// Common divisors of the numbers of all units: of their sizes, and of what a size of 1 costs. A
/// divisor is 0 if all its numbers are.
#[derive(Clone, Copy)]
pub(crate) struct UnitDivisors {
    pub(crate) sizes: i128,
    pub(crate) costs: i128,
    ghost sizes_in_range: { InRange sizes },
    ghost costs_in_range: { InRange costs },
}

/// The divisors with those of one more unit.
fn with_unit(
    common: UnitDivisors,
    problem: &Problem,
    graph: &Graph,
    taken: &Node,
    free: &Node,
    u: u32,
) -> UnitDivisors
    requires known { u < length problem.now.units }
    requires graph { shape graph.now ≡ shape_of problem.now }
    ensures sizes { unsigned_abs result.sizes ∣ unsigned_abs common.sizes }
    ensures costs { unsigned_abs result.costs ∣ unsigned_abs common.costs }
    ensures low { unsigned_abs result.sizes ∣ unsigned_abs
        (unit_low (net_of problem.now) (node_of taken.now) u) }
    ensures high { unsigned_abs result.sizes ∣ unsigned_abs ((net_of problem.now).most u) }
    ensures taken_cost { unsigned_abs result.costs ∣ unsigned_abs
        (unit_cost (net_of problem.now) (node_of taken.now) u) }
    ensures free_cost { unsigned_abs result.costs ∣ unsigned_abs
        (unit_cost (net_of problem.now) (node_of free.now) u) }
{
    graph.is_proper();
    let mut rates = [0; 256];
    let materials = put_rates(&mut rates, problem, graph, u);
    let kept = unit_numbers(problem, taken, u, materials, &rates);
    let loose = unit_numbers(problem, free, u, materials, &rates);
    UnitDivisors {
        sizes: with_both(common.sizes, kept.low, kept.high),
        costs: with_both(common.costs, kept.cost, loose.cost),
    }
}

/// The divisors of all units.
pub(crate) fn unit_divisors(
    problem: &Problem,
    graph: &Graph,
    taken: &Node,
    free: &Node,
) -> UnitDivisors
    requires graph { shape graph.now ≡ shape_of problem.now }
    ensures { AreUnitDivisors (net_of problem.now) (node_of taken.now) (node_of free.now)
        result.sizes result.costs (length problem.now.units) }
{
    problem.is_valid();
    let mut common = UnitDivisors { sizes: 0, costs: 0 };
    let units = problem.units().len() as u32;
    'units: for u in 0..units {
        common = with_unit(common, problem, graph, taken, free, u);
    }
    common
}

/// A common divisor of a number and of the ends of the rows, each divided by the divisor of its
/// material's rates.
pub(crate) fn with_rows(
    common: i128,
    problem: &Problem,
    taken: &Node,
    rows: MatSet,
    needed: MatSet,
    rates: &[i64],
) -> i128
    requires common_in_range { InRange common }
    requires known { (j : ℕ) → has rows j ≡ true → j < length problem.now.materials }
    requires needed { AreNeeded (shape_of problem.now) (node_of taken.now) needed }
    requires rates { AreRateDivisors (net_of problem.now) (node_of taken.now) rates.now
        (length problem.now.materials) }
    ensures common { unsigned_abs result ∣ unsigned_abs common }
    ensures rows { (j : ℕ) → has rows j ≡ true
        → DividesRow (net_of problem.now) (node_of taken.now) rates.now result j }
{
    let mut all = common;
    for j in rows {
        let range = row_range(problem, taken, needed, j);
        let divisor = rates[j as usize] as i128;
        all = with_both(all, scaled(range.low, divisor), scaled(range.high, divisor));
    }
    all
}

/// The divisor of costs, or 1 if its product with that of sizes is out of range.
pub(crate) fn cost_divisor(costs: i128, sizes: i64) -> i128
    ensures positive { pos 1 ≤ℤ result }
    ensures divides { unsigned_abs result ∣ unsigned_abs costs }
    ensures in_range { InRange (result *ℤ sizes) }
{
    let divisor = at_least_one(costs);
    match checked_product(divisor, sizes as i128) {
        Some(_) => divisor,
        None => 1,
    }
}
