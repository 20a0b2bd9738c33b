//! The cost of flows.
ghost use Rattle.std.specs.Prelude.{◌≡◌, ◌<◌, ◌≤◌, ◌+◌, ◌-◌, ◌^◌, ◌+ℤ◌, ◌*ℤ◌, ℕ, true, length};
ghost use Rattle.std.specs.Prelude.{IfOk, IfErr, OnOk};
ghost use Rattle.pgraph.specs.number_sets.Sets.{has};
ghost use Rattle.pgraph.specs.pns_rules.Shape.{shape_of};
ghost use Rattle.pgraph.specs.Tables.{shape};
ghost use Rattle.pgraph.specs.flow_rules.Net.{net_of, beside};
ghost use Rattle.pgraph.specs.flow_rules.Flows.{cost};
ghost use Rattle.pgraph.specs.flow_rules.Steps.{AreInRange, IsFirstPast};
ghost use Rattle.pgraph.specs.flow_rules.CostSteps.{unit_steps, cost_steps};

use crate::PastSum;
use crate::costs::{fixed_cost, size_cost, trillionfold};
use crate::rates::put_rates;
use crate::tables::by_unit;
use exact_numbers::{checked_product, checked_sum};
use pgraph::{Graph, Problem, UnitSet};

/// The sum with the costs of one unit, whose first step has the number `at`.
fn with_unit(
    at: u32,
    sum: i128,
    fixed: i128,
    each: i128,
    size: i128,
    d: i128,
) -> Result<i128, PastSum>
    requires { at + 4 < 2 ^ 32 }
    ensures value { IfOk result (λ total. total ≡ sum +ℤ fixed *ℤ d +ℤ each *ℤ size) }
    ensures in_range { OnOk result (AreInRange (unit_steps fixed each size d sum)) }
    ensures from_start { IfErr result (λ e. at ≤ e.at) }
    ensures past { IfErr result (λ e. IsFirstPast (unit_steps fixed each size d sum) (e.at - at)) }
{
    let Some(there) = checked_product(fixed, d) else {
        return Err(PastSum { at });
    };
    let Some(with_there) = checked_sum(sum, there) else {
        return Err(PastSum { at: at + 1 });
    };
    let Some(sized) = checked_product(each, size) else {
        return Err(PastSum { at: at + 2 });
    };
    match checked_sum(with_there, sized) {
        Some(total) => Ok(total),
        None => Err(PastSum { at: at + 3 }),
    }
}

/// The cost of the network of these units, over `d`, in 10^-18 of the money unit times the payout
/// period. Or the number of the first step of the sum that is out of range. The sizes are in
/// millionths over `d`, one for each unit in rising order. Linear in the number of the units'
/// rates. It takes no memory.
pub fn cost_of(
    problem: &Problem,
    graph: &Graph,
    set: UnitSet,
    sizes: &[i128],
    d: i128,
) -> Result<i128, PastSum>
    requires graph { shape graph.now ≡ shape_of problem.now }
    requires known { (u : ℕ) → has set u ≡ true → u < (shape graph.now).units }
    requires sizes { length sizes.now ≡ length set }
    ensures value { IfOk result
        (λ total. total ≡ cost (net_of problem.now) (has set) (beside set sizes.now) d) }
    ensures in_range { OnOk result
        (AreInRange (cost_steps (net_of problem.now) (has set) (beside set sizes.now) d)) }
    ensures past { IfErr result
        (λ e. IsFirstPast (cost_steps (net_of problem.now) (has set) (beside set sizes.now) d)
        e.at) }
{
    graph.is_proper();
    let size_at = by_unit(set, sizes);
    let mut rates = [0; 256];
    let mut sum = 0;
    let mut at = 0;
    for u in set {
        let materials = put_rates(&mut rates, problem, graph, u);
        let each = size_cost(problem, u, materials, &rates);
        let fixed = trillionfold(fixed_cost(problem, u));
        match with_unit(at, sum, fixed, each, size_at[u as usize], d) {
            Err(past) => return Err(past),
            Ok(total) => sum = total,
        }
        at += 4;
    }
    Ok(sum)
}
