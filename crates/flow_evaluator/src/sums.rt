//! The sums over what a bench keeps, each with the place at which it overflows.
ghost use Rattle.std.specs.Prelude.{◌≡◌, pos, true, IfOk, IfErr, OnOk};
ghost use Rattle.dual_simplex.specs.number_sets.Sets.{has};
ghost use Rattle.dual_simplex.specs.integer_laws.Range.{InRange};
ghost use Rattle.dual_simplex.specs.exact_numbers.Number.{numerator, denominator};
ghost use Rattle.dual_simplex.specs.pns_rules.Shape.{shape_of};
ghost use Rattle.dual_simplex.specs.pns_rules.Ends.{IsSound, IsDecided};
ghost use Rattle.dual_simplex.specs.pgraph.View.{node_of};
ghost use Rattle.dual_simplex.specs.flow_rules.Net.{net_of, beside};
ghost use Rattle.dual_simplex.specs.flow_rules.Flows.{cost};
ghost use Rattle.dual_simplex.specs.flow_rules.Program.{program_of};
ghost use Rattle.dual_simplex.specs.flow_rules.Relaxed.{bound};
ghost use Rattle.dual_simplex.specs.flow_rules.Steps.{AreInRange};
ghost use Rattle.dual_simplex.specs.flow_rules.CostSteps.{cost_steps};
ghost use Rattle.dual_simplex.specs.flow_rules.FeasibleSteps.{feasible_steps};
ghost use Rattle.node_evaluation.specs.tree_rules.Leaf.{IsFormed, multiplier};
ghost use Rattle.dual_simplex.specs.Bench.{IsLeastOf, IsNoneOf, AreFlowsOf};
ghost use Rattle.node_evaluation.specs.tree_rules.Past.{IsPastAt};

use dual_simplex::{
    Bench, Mixed, Node, Place, Site, balance_is_past, bound_is_past, bound_of, cost_is_past,
    cost_of, feasible, least_is_least, names_are_of_program, refutation_is_past, refutes,
    split_flows_are_least, sums_are_last,
};

/// After `Least`: the bound of the multipliers over their scale.
pub(crate) fn value_of(site: &Site<'_>, node: &Node, bench: &Bench) -> Result<Mixed, Place>
    requires sound { IsSound (shape_of site.now) (node_of node.now) }
    requires least { IsLeastOf (program_of (net_of site.now) (node_of node.now)) bench.now }
    ensures value { IfOk result
        (λ v.
        (numerator v ≡ bound (net_of site.now) (node_of node.now) bench.now.d
        (multiplier site.now (node_of node.now) bench.now.ys)) × (denominator v ≡ bench.now.d)) }
    ensures formed { OnOk result (IsFormed site.now (node_of node.now) bench.now.d bench.now.ys) }
    ensures past { IfErr result (IsPastAt site.now (node_of node.now) bench.now.nonbasic) }
{
    let (problem, graph) = (site.problem(), site.graph());
    least_is_least();
    bound_is_past();
    names_are_of_program();
    sums_are_last();
    match bound_of(problem, graph, *node, bench.d(), bench.ys()) {
        Err(past) => Err(Place::Bound { at: past.at }),
        Ok(bound) => Ok(Mixed::of(bound, bench.d())),
    }
}

/// After `None`: whether the bound by which the multipliers refute is formed within the range.
pub(crate) fn form_refutation(site: &Site<'_>, node: &Node, bench: &Bench) -> Result<(), Place>
    requires sound { IsSound (shape_of site.now) (node_of node.now) }
    requires none { IsNoneOf (program_of (net_of site.now) (node_of node.now)) bench.now }
    ensures formed { OnOk result (IsFormed site.now (node_of node.now) (pos 0) bench.now.ys) }
    ensures past { IfErr result (IsPastAt site.now (node_of node.now) bench.now.nonbasic) }
{
    let (problem, graph) = (site.problem(), site.graph());
    refutation_is_past();
    names_are_of_program();
    match refutes(problem, graph, *node, bench.ys()) {
        Err(past) => Err(Place::Refute {
            row: bench.row(),
            at: past.at,
        }),
        Ok(_) => Ok(()),
    }
}

/// After `read_flows`, if all is decided: the cost of the flows. All numbers by which they are
/// judged are formed, too.
pub(crate) fn cost_of_flows(site: &Site<'_>, node: &Node, bench: &Bench) -> Result<i128, Place>
    requires sound { IsSound (shape_of site.now) (node_of node.now) }
    requires decided { IsDecided (shape_of site.now) (node_of node.now) }
    requires least { IsLeastOf (program_of (net_of site.now) (node_of node.now)) bench.now }
    requires flows { AreFlowsOf (program_of (net_of site.now) (node_of node.now)) bench.now }
    ensures cost { IfOk result
        (λ total. total ≡ cost (net_of site.now) (has node.now.inside)
        (beside node.now.inside bench.now.flows) bench.now.flow_den) }
    ensures in_range { IfOk result InRange }
    ensures costs { OnOk result
        (AreInRange
        (cost_steps (net_of site.now) (has node.now.inside) (beside node.now.inside bench.now.flows)
        bench.now.flow_den)) }
    ensures balances { OnOk result
        (AreInRange
        (feasible_steps (net_of site.now) (has node.now.inside)
        (beside node.now.inside bench.now.flows) bench.now.flow_den)) }
    ensures past { IfErr result (IsPastAt site.now (node_of node.now) bench.now.nonbasic) }
{
    let (problem, graph) = (site.problem(), site.graph());
    node.inside.rises();
    sums_are_last();
    split_flows_are_least();
    cost_is_past();
    balance_is_past();
    names_are_of_program();
    if let Err(past) = feasible(problem, graph, node.inside, bench.flows(), bench.flow_den()) {
        return Err(Place::FlowSum { at: past.at });
    }
    match cost_of(problem, graph, node.inside, bench.flows(), bench.flow_den()) {
        Err(past) => Err(Place::Cost { at: past.at }),
        Ok(cost) => Ok(cost),
    }
}
