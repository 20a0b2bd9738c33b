//! Charges of a node: of a leaf, or of a line at the head of a tree.
ghost use Rattle.std.specs.Prelude.{◌≡◌, ◌↔◌, ◌<◌, ◌≤ℤ◌, ◌<ℤ◌, pos, Bool, IsTrue, IfSome, IfNone};
ghost use Rattle.std.specs.Prelude.{OnOk, IfErr};
ghost use Rattle.tree_text_rules.specs.pns_rules.Shape.{shape_of};
ghost use Rattle.tree_text_rules.specs.flow_rules.ChargeLeaf.{IsScale, IsOneEach, CoverPasses};
ghost use Rattle.tree_text_rules.specs.flow_rules.ChargeLeaf.{CoversPass, IsFormed};
ghost use Rattle.tree_text_rules.specs.flow_rules.ChargeLeaf.{ChargeReaches, charge_of};
ghost use Rattle.tree_text_rules.specs.flow_rules.ChargeLeaf.{ChargePasses, ChargeFails};
ghost use Rattle.charges.specs.Known.{facts_of};
ghost use Rattle.tree_text_rules.specs.tree_rules.Claim.{IsAtLeast};
ghost use Rattle.tree_text_rules.specs.tree_rules.Leaf.{IsClaimed};
ghost use Rattle.charges.specs.pgraph.Tables.{shape};
ghost use Rattle.charges.specs.pgraph.View.{node_of};
ghost use Rattle.charges.specs.pgraph.CoversView.{cover_of, covers_of};
ghost use Rattle.charges.specs.pgraph.Kept.{AreKept};
ghost use Rattle.cert_check.specs.Known.{KnowsInside};
ghost use Rattle.cert_check.specs.Shown.{cost_over, handed};

use crate::leaves::{is_one_each, is_scale};
use charges::{
    Charge, CostOver, Cover, Facts, Graph, Node, Site, charge_of, covers_node, is_cover,
};
use tree_text_rules::ChargeWhy;

/// Whether the number is not below 0.
fn is_not_negative(number: i128) -> bool
    ensures { IsTrue result ↔ (pos 0 ≤ℤ number) }
{
    number >= 0
}

/// Whether the number is 0.
fn is_zero(number: i128) -> bool
    ensures { IsTrue result ↔ (number ≡ pos 0) }
{
    number == 0
}

/// Whether d counts no cost, or counts it and one is claimed.
fn is_charge_scale(claimed: Option<CostOver>, d: i128) -> bool
    ensures { IsTrue result ↔ IsScale (IsClaimed (cost_over claimed)) d }
{
    match claimed {
        Some(_) => is_not_negative(d),
        None => is_zero(d),
    }
}

/// Whether the set passes at the node.
fn passes(graph: &Graph, node: &Node, cover: &Cover) -> bool
    requires { IfSome cover.now.beside (λ u. u < 128) }
    ensures { IsTrue result
        ↔ CoverPasses (shape graph.now) (node_of node.now) (cover_of cover.now) }
{
    if !is_cover(graph, node, cover) {
        return false;
    }
    if !is_not_negative(cover.weight) {
        return false;
    }
    covers_node(graph, node, cover)
}

/// Whether each of the sets does.
fn all_pass(graph: &Graph, node: &Node, covers: &[Cover]) -> bool
    requires { AreKept (covers_of covers.now) }
    ensures { IsTrue result
        ↔ CoversPass (shape graph.now) (node_of node.now) (covers_of covers.now) }
{
    'covers: for i in 0..covers.len() {
        let cover = &covers[i];
        if !passes(graph, node, cover) {
            return false;
        }
    }
    true
}

/// The charge of the node with these facts, or nothing if a number of its sum overflows.
fn formed_charge(site: &Site<'_>, node: &Node, facts: &Facts, charge: &Charge<'_>) -> Option<i128>
    requires known { KnowsInside (shape_of site.now) (node_of node.now) }
    requires multipliers { IsOneEach site.now (node_of node.now) charge.now.ys.now }
    requires covers { AreKept (covers_of charge.now.covers.now) }
    ensures value { IfSome result (λ x. x
        ≡ charge_of site.now (node_of node.now) (facts_of facts.now)
        (handed charge.now.d charge.now.ys.now charge.now.covers.now)) }
    ensures formed { IfSome result (λ x. IsFormed site.now (node_of node.now) (facts_of facts.now)
        (handed charge.now.d charge.now.ys.now charge.now.covers.now)) }
    ensures past { IfNone result (IsFormed site.now (node_of node.now) (facts_of facts.now)
        (handed charge.now.d charge.now.ys.now charge.now.covers.now) → ⊥) }
{
    match charge_of(site, node, facts, charge) {
        Ok(sum) => Some(sum),
        Err(_) => None,
    }
}

/// Whether the charge counts no cost and is above 0.
fn is_above(charge: i128, d: i128) -> bool
    ensures { IsTrue result ↔ ((d ≡ pos 0) × (pos 0 <ℤ charge)) }
{
    d == 0 && charge > 0
}

/// Whether the charge over d reaches the claimed cost, or is above 0 if it counts no cost.
fn reaches(claimed: Option<CostOver>, charge: i128, d: i128) -> bool
    ensures { IsTrue result ↔ ChargeReaches (IsAtLeast (cost_over claimed)) charge d }
{
    if !is_scale(d) {
        return is_above(charge, d);
    }
    match claimed {
        Some(least) => least.is_reached(charge, d),
        None => false,
    }
}

/// A charge of the node with these facts is to reach the claimed cost, or to be above 0 if it
/// counts no cost.
pub fn judge_charge(
    site: &Site<'_>,
    node: &Node,
    facts: &Facts,
    claimed: Option<CostOver>,
    charge: &Charge<'_>,
) -> Result<(), ChargeWhy>
    requires known { KnowsInside (shape_of site.now) (node_of node.now) }
    requires covers { AreKept (covers_of charge.now.covers.now) }
    ensures passes { OnOk result
        (ChargePasses site.now (IsClaimed (cost_over claimed)) (IsAtLeast (cost_over claimed))
        (node_of node.now) (facts_of facts.now)
        (handed charge.now.d charge.now.ys.now charge.now.covers.now)) }
    ensures fails { IfErr result (λ why.
        ChargeFails site.now (IsClaimed (cost_over claimed)) (IsAtLeast (cost_over claimed))
        (node_of node.now) (facts_of facts.now)
        (handed charge.now.d charge.now.ys.now charge.now.covers.now) why) }
{
    if !is_charge_scale(claimed, charge.d) {
        return Err(ChargeWhy::Bound);
    }
    if !is_one_each(site, node, charge.ys) {
        return Err(ChargeWhy::Bound);
    }
    if !all_pass(site.graph(), node, charge.covers) {
        return Err(ChargeWhy::Cover);
    }
    let Some(sum) = formed_charge(site, node, facts, charge) else {
        return Err(ChargeWhy::Sum);
    };
    if reaches(claimed, sum, charge.d) {
        Ok(())
    } else {
        Err(ChargeWhy::Bound)
    }
}
