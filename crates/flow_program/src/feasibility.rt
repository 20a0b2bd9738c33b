//! Whether sizes of units are flows.
ghost use Rattle.std.specs.Prelude.{◌≡◌, ◌<◌, ◌≤◌, ◌+◌, ◌-◌, ◌*◌, ◌^◌, ◌↔◌, ◌-ℤ◌, ◌*ℤ◌, ◌≤ℤ◌};
ghost use Rattle.std.specs.Prelude.{◌<ℤ◌};
ghost use Rattle.std.specs.Prelude.{◌||◌, ◌&&◌, ℕ, pos, true, length, IfOk, IfErr, OnOk, IsTrue};
ghost use Rattle.exact_numbers.specs.integer_laws.Total.{total};
ghost use Rattle.pgraph.specs.number_sets.Sets.{has};
ghost use Rattle.pgraph.specs.problem_rules.Problem.{rate_in, rate_of};
ghost use Rattle.pgraph.specs.problem_rules.WellFormed.{IsInRange};
ghost use Rattle.pgraph.specs.pns_rules.Shape.{shape_of};
ghost use Rattle.pgraph.specs.pns_rules.Structure.{mats};
ghost use Rattle.pgraph.specs.Tables.{shape};
ghost use Rattle.pgraph.specs.flow_rules.Net.{net_of, beside, units_of, materials_of};
ghost use Rattle.pgraph.specs.flow_rules.Flows.{balance, IsFlows};
ghost use Rattle.pgraph.specs.flow_rules.Steps.{AreInRange, IsFirstPast};
ghost use Rattle.pgraph.specs.flow_rules.FeasibleSteps.{units_at, balance_steps, materials_steps};
ghost use Rattle.pgraph.specs.flow_rules.FeasibleSteps.{feasible_steps};
ghost use Rattle.flow_program.specs.Entry.{entry};
ghost use Rattle.flow_program.specs.Feasible.{AreInBoxes, AreInRanges};

use crate::PastSum;
use crate::ranges::{Range, range_of};
use crate::tables::by_unit;
use exact_numbers::{checked_product, checked_sum};
use pgraph::{Graph, MatSet, Problem, Term, UnitSet};

/// The rate of the material among the terms; 0 if it is not there.
fn rate_among(terms: &[Term], j: u32) -> i64
    ensures { result ≡ rate_in terms.now j }
{
    'looking: for term in terms {
        if term.material == j {
            return term.rate;
        }
    }
    0
}

fn difference(made: i64, used: i64) -> i64
    requires made { IsInRange made }
    requires used { IsInRange used }
    ensures { result ≡ made -ℤ used }
{
    made - used
}

/// The unit's rate of the material, which is looked up in its terms.
pub fn rate_at(problem: &Problem, j: u32, u: u32) -> i64
    requires { u < length problem.now.units }
    ensures { result ≡ rate_of problem.now j u }
{
    problem.is_valid();
    let unit = &problem.units()[u as usize];
    let made = rate_among(&unit.outputs, j);
    let used = rate_among(&unit.inputs, j);
    difference(made, used)
}

/// Whether the whole number is in the range.
fn is_in(range: Range, number: i128) -> bool
    ensures { IsTrue result ↔ ((range.low ≤ℤ number) × (number ≤ℤ range.high)) }
{
    range.low <= number && number <= range.high
}

/// Whether the range has the whole number and something above it.
fn goes_on_from(range: Range, number: i128) -> bool
    ensures { IsTrue result ↔ ((range.low ≤ℤ number) × (number <ℤ range.high)) }
{
    range.low <= number && number < range.high
}

/// Whether the number over `d` is in the range. The floor of the quotient and the remainder decide
/// it, so no end of the range is multiplied by `d`.
pub fn is_within(number: i128, d: i128, range: Range) -> bool
    requires { pos 1 ≤ℤ d }
    ensures { IsTrue result ↔ (((range.low *ℤ d) ≤ℤ number) × (number ≤ℤ (range.high *ℤ d))) }
{
    let floor = number.div_euclid(d);
    if number.rem_euclid(d) > 0 {
        goes_on_from(range, floor)
    } else {
        is_in(range, floor)
    }
}

fn both(first: bool, second: bool) -> bool
    ensures { IsTrue result ↔ (IsTrue first × IsTrue second) }
{
    first && second
}

/// Whether each unit of the set has a size within its bounds.
fn in_boxes(problem: &Problem, set: UnitSet, d: i128, size_at: &[i128]) -> bool
    requires known { (u : ℕ) → has set u ≡ true → u < length problem.now.units }
    requires all_sizes { length size_at.now ≡ 128 }
    requires positive { pos 1 ≤ℤ d }
    ensures { IsTrue result ↔ AreInBoxes (net_of problem.now) (entry size_at.now) d set }
{
    for u in set {
        let unit = &problem.units()[u as usize];
        let bounds = Range {
            low: unit.lower as i128,
            high: unit.upper as i128,
        };
        if !is_within(size_at[u as usize], d, bounds) {
            return false;
        }
    }
    true
}

/// What the units make of the material less what they use, and the number of the next step.
fn balance_of(
    start: u32,
    problem: &Problem,
    j: u32,
    units: UnitSet,
    size_at: &[i128],
) -> Result<(i128, u32), PastSum>
    requires known { (u : ℕ) → has units u ≡ true → u < length problem.now.units }
    requires all_sizes { length size_at.now ≡ 128 }
    requires room { start ≤ 100000 }
    ensures value { IfOk result
        (λ p. p.0 ≡ total (λ i. rate_of problem.now j i *ℤ entry size_at.now i) units) }
    ensures in_range { OnOk result
        (AreInRange (balance_steps (net_of problem.now) (entry size_at.now) j units (pos 0))) }
    ensures count { IfOk result (λ p. p.1 ≡ start + 2 * length units) }
    ensures from_start { IfErr result (λ e. start ≤ e.at) }
    ensures past { IfErr result
        (λ e. IsFirstPast (balance_steps (net_of problem.now) (entry size_at.now) j units (pos 0))
        (e.at - start)) }
{
    let mut sum = 0;
    let mut at = start;
    for u in units {
        let rate = rate_at(problem, j, u);
        let Some(moved) = checked_product(rate as i128, size_at[u as usize]) else {
            return Err(PastSum { at });
        };
        let Some(next) = checked_sum(sum, moved) else {
            return Err(PastSum { at: at + 1 });
        };
        sum = next;
        at += 2;
    }
    Ok((sum, at))
}

/// The units of the set that make or use the material.
pub fn units_with(graph: &Graph, set: UnitSet, j: u32) -> UnitSet
    requires { j < (shape graph.now).materials }
    ensures { (u : ℕ)
        → has result u
        ≡ (((shape graph.now).makes u j || (shape graph.now).uses u j) && has set u) }
{
    graph.producers(j).union(graph.consumers(j)).meet(set)
}

/// Whether each of the materials leaves over no less and no more than its bounds.
fn in_ranges(
    problem: &Problem,
    graph: &Graph,
    set: UnitSet,
    materials: MatSet,
    d: i128,
    size_at: &[i128],
) -> Result<bool, PastSum>
    requires graph { shape graph.now ≡ shape_of problem.now }
    requires set_known { (u : ℕ) → has set u ≡ true → u < length problem.now.units }
    requires known { (j : ℕ) → has materials j ≡ true → j < length problem.now.materials }
    requires all_sizes { length size_at.now ≡ 128 }
    requires positive { pos 1 ≤ℤ d }
    ensures value { IfOk result
        (λ b. IsTrue b
        ↔ AreInRanges (net_of problem.now) (has set) (entry size_at.now) d materials) }
    ensures in_range { OnOk result
        (AreInRange
        (materials_steps (net_of problem.now) (has set) (entry size_at.now) materials)) }
    ensures past { IfErr result
        (λ e. IsFirstPast
        (materials_steps (net_of problem.now) (has set) (entry size_at.now) materials) e.at) }
{
    problem.is_valid();
    let mut hold = true;
    let mut at = 0;
    for j in materials {
        let material = &problem.materials()[j as usize];
        let range = range_of(problem, j, material.lower);
        let units = units_with(graph, set, j);
        units.rises();
        match balance_of(at, problem, j, units, size_at) {
            Err(past) => return Err(past),
            Ok((balance, next_at)) => {
                hold = both(hold, is_within(balance, d, range));
                at = next_at;
            }
        }
    }
    Ok(hold)
}

/// Whether the sizes are flows for the set: each size is within its unit's bounds, and each
/// material of the set leaves over no less and no more than its bounds. Or the number of the first
/// step that is out of range; all steps are formed before the answer. The sizes are in millionths
/// over `d`, one for each unit of the set in rising order. Only what materials leave over is
/// formed, and nothing is multiplied by `d`. A unit's terms are looked through for each of its
/// materials. It takes no memory.
pub fn feasible(
    problem: &Problem,
    graph: &Graph,
    set: UnitSet,
    sizes: &[i128],
    d: i128,
) -> Result<bool, PastSum>
    requires graph { shape graph.now ≡ shape_of problem.now }
    requires known { (u : ℕ) → has set u ≡ true → u < (shape graph.now).units }
    requires sizes { length sizes.now ≡ length set }
    requires positive { pos 1 ≤ℤ d }
    ensures value { IfOk result
        (λ b. IsTrue b ↔ IsFlows (net_of problem.now) (has set) (beside set sizes.now) d) }
    ensures in_range { OnOk result
        (AreInRange (feasible_steps (net_of problem.now) (has set) (beside set sizes.now) d)) }
    ensures past { IfErr result
        (λ e. IsFirstPast (feasible_steps (net_of problem.now) (has set) (beside set sizes.now) d)
        e.at) }
{
    set.rises();
    graph.is_proper();
    let size_at = by_unit(set, sizes);
    let materials = graph.materials(set);
    materials.rises();
    match in_ranges(problem, graph, set, materials, d, &size_at) {
        Err(past) => Err(past),
        Ok(ranges_hold) => Ok(both(in_boxes(problem, set, d, &size_at), ranges_hold)),
    }
}
