//! The leaves of a tree, judged at their nodes.
ghost use Rattle.std.specs.Prelude.{◌≡◌, ◌↔◌, ◌≤ℤ◌, ℕ, pos, Bool, length, Option, Some, None};
ghost use Rattle.std.specs.Prelude.{IsTrue, OnOk, IfErr};
ghost use Rattle.tree_text_rules.specs.pns_rules.Shape.{shape_of};
ghost use Rattle.tree_text_rules.specs.pns_rules.Structure.{Clashes};
ghost use Rattle.tree_text_rules.specs.flow_rules.Net.{net_of};
ghost use Rattle.tree_text_rules.specs.flow_rules.Relaxed.{rows};
ghost use Rattle.tree_text_rules.specs.tree_rules.Claim as claims;
ghost use Rattle.tree_text_rules.specs.tree_rules.Leaf.{dead, clash, refuted, bounded, untried};
ghost use Rattle.tree_text_rules.specs.tree_rules.Leaf.{IsOneEach};
ghost use Rattle.tree_text_rules.specs.tree_rules.Leaf.{LeafPasses, LeafFails};
ghost use Rattle.charges.specs.pgraph.Tables.{shape};
ghost use Rattle.charges.specs.pgraph.View.{node_of};
ghost use Rattle.cert_check.specs.Known.{KnowsInside};
ghost use Rattle.cert_check.specs.Shown.{cost_over};

use crate::materials::is_dead;
use crate::sets::units_left;
use charges::{CostOver, Graph, Node, Problem, Site, bound_of, refutes};
use tree_text_rules::Why;

/// A leaf that is dead at the material.
pub fn judge_dead(site: &Site<'_>, node: &Node, x: u32) -> Result<(), Why>
    ensures passes { OnOk result
        ((partial : Bool) (claimed : Option claims.CostOver)
        → LeafPasses partial site.now claimed (node_of node.now) (dead x)) }
    ensures fails { IfErr result
        (λ why. (partial : Bool) (claimed : Option claims.CostOver)
        → LeafFails partial site.now claimed (node_of node.now) (dead x) why) }
{
    if is_dead(site.graph(), node, x) {
        Ok(())
    } else {
        Err(Why::Dead)
    }
}

/// Whether the node clashes at the exclusion.
fn clashes(graph: &Graph, node: &Node, k: u32) -> bool
    ensures { IsTrue result ↔ Clashes (shape graph.now) (node_of node.now).inside k }
{
    graph.is_proper();
    if k >= graph.exclusion_count() {
        return false;
    }
    let both = graph.excluded(k).meet(node.inside);
    both.rises();
    both.count() >= 2
}

/// A leaf that clashes at the exclusion.
pub fn judge_clash(site: &Site<'_>, node: &Node, k: u32) -> Result<(), Why>
    ensures passes { OnOk result
        ((partial : Bool) (claimed : Option claims.CostOver)
        → LeafPasses partial site.now claimed (node_of node.now) (clash k)) }
    ensures fails { IfErr result
        (λ why. (partial : Bool) (claimed : Option claims.CostOver)
        → LeafFails partial site.now claimed (node_of node.now) (clash k) why) }
{
    if clashes(site.graph(), node, k) {
        Ok(())
    } else {
        Err(Why::Clash)
    }
}

/// Whether there is one multiplier for each row of the node's program.
pub(crate) fn is_one_each(site: &Site<'_>, node: &Node, ys: &[i128]) -> bool
    ensures { IsTrue result ↔ IsOneEach site.now (node_of node.now) ys.now }
{
    let graph = site.graph();
    let rows = graph.materials(units_left(graph, node));
    rows.rises();
    ys.len() == rows.count() as usize
}

/// A leaf at which the multipliers are to show that no structure has flows.
pub fn judge_refutation(site: &Site<'_>, node: &Node, ys: &[i128]) -> Result<(), Why>
    requires known { KnowsInside (shape_of site.now) (node_of node.now) }
    ensures passes { OnOk result
        ((partial : Bool) (claimed : Option claims.CostOver)
        → LeafPasses partial site.now claimed (node_of node.now) (refuted ys.now)) }
    ensures fails { IfErr result
        (λ why. (partial : Bool) (claimed : Option claims.CostOver)
        → LeafFails partial site.now claimed (node_of node.now) (refuted ys.now) why) }
{
    if !is_one_each(site, node, ys) {
        return Err(Why::Refuted);
    }
    match refutes(site.problem(), site.graph(), *node, ys) {
        Err(_) => Err(Why::Sum),
        Ok(true) => Ok(()),
        Ok(false) => Err(Why::Refuted),
    }
}

/// Whether d is a scale: at least 1.
pub(crate) fn is_scale(d: i128) -> bool
    ensures { IsTrue result ↔ (pos 1 ≤ℤ d) }
{
    d >= 1
}

/// A leaf whose multipliers are to bound the cost from below, over d, by the claimed cost.
pub fn judge_bound(
    site: &Site<'_>,
    node: &Node,
    claimed: Option<CostOver>,
    d: i128,
    ys: &[i128],
) -> Result<(), Why>
    requires known { KnowsInside (shape_of site.now) (node_of node.now) }
    ensures passes { OnOk result
        ((partial : Bool)
        → LeafPasses partial site.now (cost_over claimed) (node_of node.now) (bounded d ys.now)) }
    ensures fails { IfErr result
        (λ why. (partial : Bool)
        → LeafFails partial site.now (cost_over claimed) (node_of node.now) (bounded d ys.now)
        why) }
{
    let Some(least) = claimed else {
        return Err(Why::Bound);
    };
    if !is_scale(d) {
        return Err(Why::Bound);
    }
    if !is_one_each(site, node, ys) {
        return Err(Why::Bound);
    }
    let Ok(bound) = bound_of(site.problem(), site.graph(), *node, d, ys) else {
        return Err(Why::Sum);
    };
    if least.is_reached(bound, d) {
        Ok(())
    } else {
        Err(Why::Bound)
    }
}

/// A leaf that is open, which a partial tree may have.
pub fn judge_open(problem: &Problem, node: &Node, partial: bool) -> Result<(), Why>
    ensures passes { OnOk result
        ((claimed : Option claims.CostOver)
        → LeafPasses partial problem.now claimed (node_of node.now) (untried None)) }
    ensures fails { IfErr result
        (λ why. (claimed : Option claims.CostOver)
        → LeafFails partial problem.now claimed (node_of node.now) (untried None) why) }
{
    if partial { Ok(()) } else { Err(Why::Open) }
}

/// A leaf that is open with a bound, which a partial tree may have. The bound over d is formed, and
/// need reach nothing.
pub fn judge_low(
    site: &Site<'_>,
    node: &Node,
    partial: bool,
    d: i128,
    ys: &[i128],
) -> Result<(), Why>
    requires known { KnowsInside (shape_of site.now) (node_of node.now) }
    ensures passes { OnOk result ((claimed : Option claims.CostOver)
        → LeafPasses partial site.now claimed (node_of node.now)
        (untried (Some (record { d = d; ys = ys.now })))) }
    ensures fails { IfErr result (λ why. (claimed : Option claims.CostOver)
        → LeafFails partial site.now claimed (node_of node.now)
        (untried (Some (record { d = d; ys = ys.now }))) why) }
{
    if !partial {
        return Err(Why::Open);
    }
    if !is_scale(d) {
        return Err(Why::Bound);
    }
    if !is_one_each(site, node, ys) {
        return Err(Why::Bound);
    }
    let Ok(_) = bound_of(site.problem(), site.graph(), *node, d, ys) else {
        return Err(Why::Sum);
    };
    Ok(())
}
