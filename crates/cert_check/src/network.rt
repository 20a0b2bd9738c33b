//! The network of a claim.
ghost use Rattle.std.specs.Prelude.{◌≡◌, ◌↔◌, ◌≤ℤ◌, pos, Bool, length, IsTrue, OnOk, IfErr};
ghost use Rattle.tree_text_rules.specs.tree_rules.Claim.{network, IsFeasible, ClaimFails};

use charges::{Site, UnitSet, cost_of, feasible};
use tree_text_rules::{Verdict, Why};

/// Whether the costs are the same.
fn are_same(a: i128, b: i128) -> bool
    ensures { IsTrue result ↔ (a ≡ b) }
{
    a == b
}

/// Judges the network of these units, with a size for each in rising order and its cost, all over
/// d. Its units are a clash-free solution structure, the sizes are flows for them, and the cost is
/// theirs. The cause is that of the first line that fails.
pub fn judge_network(
    site: &Site<'_>,
    units: UnitSet,
    sizes: &[i128],
    d: i128,
    cost: i128,
) -> Result<(), Why>
    requires sizes { length sizes.now ≡ length units }
    requires positive { pos 1 ≤ℤ d }
    ensures passes { OnOk result
        (IsFeasible site.now (record { units = units; sizes = sizes.now; d = d; cost = cost })) }
    ensures fails { IfErr result
        (λ why. (partial : Bool)
        → ClaimFails partial site.now
        (network (record { units = units; sizes = sizes.now; d = d; cost = cost })) why) }
{
    let problem = site.problem();
    let graph = site.graph();
    if !units.within(UnitSet::below(graph.unit_count())) {
        return Err(Why::Axiom);
    }
    let Verdict::Meets = graph.judge(units) else {
        return Err(Why::Axiom);
    };
    if let Some(_) = graph.clash(units) {
        return Err(Why::Exclusion);
    }
    let Ok(holds) = feasible(problem, graph, units, sizes, d) else {
        return Err(Why::Sum);
    };
    if !holds {
        return Err(Why::Flows);
    }
    let Ok(total) = cost_of(problem, graph, units, sizes, d) else {
        return Err(Why::Sum);
    };
    if are_same(total, cost) {
        Ok(())
    } else {
        Err(Why::Cost)
    }
}
