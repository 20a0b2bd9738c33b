//! The leaves of a tree.
ghost use Rattle.std.specs.Prelude.{◌≡◌, Bool, Option, OnOk, IfErr};
ghost use Rattle.tree_text_rules.specs.pns_rules.Shape.{shape_of};
ghost use Rattle.tree_text_rules.specs.tree_rules.Tree.{leaf};
ghost use Rattle.tree_text_rules.specs.tree_rules.Claim as claims;
ghost use Rattle.tree_text_rules.specs.tree_rules.Leaf.{Leaf, charged, untried, LeafPasses};
ghost use Rattle.tree_text_rules.specs.tree_rules.Leaf.{LeafFails, why_of};
ghost use Rattle.tree_text_rules.specs.tree_rules.Headed.{LeafPassesBy, LeafFailsBy};
ghost use Rattle.charges.specs.Known.{facts_of};
ghost use Rattle.charges.specs.pgraph.View.{node_of};
ghost use Rattle.branch_tree.specs.View.{end_of};
ghost use Rattle.cert_check.specs.Visits.{leaf_passes, leaf_fails};
ghost use Rattle.cert_check.specs.Known.{KnowsInside};
ghost use Rattle.cert_check.specs.Shown.{cost_over};

use crate::visit::Judge;
use crate::{
    judge_bound, judge_charge, judge_clash, judge_dead, judge_low, judge_open, judge_refutation,
};
use branch_tree::{End, Scaled};
use charges::{Charge, Covers, Node, Site};
use tree_text_rules::{ChargeWhy, Why};

/// The cause of a charge that fails, as that of its leaf.
fn why_of(why: ChargeWhy) -> Why
    ensures { result ≡ why_of why }
{
    match why {
        ChargeWhy::Bound => Why::Bound,
        ChargeWhy::Cover => Why::Cover,
        ChargeWhy::Sum => Why::Sum,
    }
}

/// Judges a leaf that charges the node, with what is known of sizes.
fn judge_charged(
    judge: &Judge<'_>,
    node: &Node,
    scaled: &Scaled,
    covers: &Covers,
) -> Result<(), Why>
    requires known { KnowsInside (shape_of judge.now.site.now) (node_of node.now) }
    ensures passes { OnOk result
        (LeafPassesBy (facts_of judge.now.facts.now) judge.now.partial judge.now.site.now
        (cost_over judge.now.claimed) (node_of node.now)
        (charged (record { d = scaled.now.d; ys = scaled.now.ys; covers = covers.now }))) }
    ensures fails { IfErr result
        (LeafFailsBy (facts_of judge.now.facts.now) judge.now.partial judge.now.site.now
        (cost_over judge.now.claimed) (node_of node.now)
        (charged (record { d = scaled.now.d; ys = scaled.now.ys; covers = covers.now }))) }
{
    covers.are_kept();
    let charge = Charge {
        d: scaled.d(),
        ys: scaled.ys(),
        covers: covers.covers(),
    };
    match judge_charge(judge.site, node, judge.facts, judge.claimed, &charge) {
        Ok(()) => Ok(()),
        Err(why) => Err(why_of(why)),
    }
}

/// Judges an open leaf, with its bound if one is known.
fn judge_untried(
    site: &Site<'_>,
    node: &Node,
    partial: bool,
    low: &Option<Scaled>,
) -> Result<(), Why>
    requires known { KnowsInside (shape_of site.now) (node_of node.now) }
    ensures passes { OnOk result ((claimed : Option claims.CostOver)
        → LeafPasses partial site.now claimed (node_of node.now) (untried low.now)) }
    ensures fails { IfErr result (λ why. (claimed : Option claims.CostOver)
        → LeafFails partial site.now claimed (node_of node.now) (untried low.now) why) }
{
    match low {
        None => judge_open(site.problem(), node, partial),
        Some(low) => judge_low(site, node, partial, low.d(), low.ys()),
    }
}

/// Judges the leaf at the node. A branched node is no leaf, and is not judged.
fn judge_leaf(judge: &Judge<'_>, node: &Node, end: &End) -> Result<(), Why>
    requires known { KnowsInside (shape_of judge.now.site.now) (node_of node.now) }
    ensures passes { OnOk result
        ((l : Leaf) → end_of end.now ≡ leaf l
        → LeafPassesBy (facts_of judge.now.facts.now) judge.now.partial judge.now.site.now
        (cost_over judge.now.claimed) (node_of node.now) l) }
    ensures fails { IfErr result
        (λ why. (l : Leaf) → end_of end.now ≡ leaf l
        → LeafFailsBy (facts_of judge.now.facts.now) judge.now.partial judge.now.site.now
        (cost_over judge.now.claimed) (node_of node.now) l why) }
{
    let site = judge.site;
    match end {
        End::Dead(x) => judge_dead(site, node, *x),
        End::Clash(k) => judge_clash(site, node, *k),
        End::Refuted(ys) => judge_refutation(site, node, ys.numbers()),
        End::Bound(scaled) => judge_bound(site, node, judge.claimed, scaled.d(), scaled.ys()),
        End::Charge { scaled, covers } => judge_charged(judge, node, scaled, covers),
        End::Open(low) => judge_untried(site, node, judge.partial, low),
        End::Branch { .. } | End::Either(_) => Ok(()),
    }
}

/// Judges the leaf at the node, an open one without its bound if bounds are not judged.
pub(crate) fn judge_leaf_by(judge: &Judge<'_>, node: &Node, end: &End) -> Result<(), Why>
    requires known { KnowsInside (shape_of judge.now.site.now) (node_of node.now) }
    ensures passes { OnOk result ((l : Leaf) → end_of end.now ≡ leaf l
        → leaf_passes judge.now (node_of node.now) l) }
    ensures fails { IfErr result (λ why. (l : Leaf) → end_of end.now ≡ leaf l
        → leaf_fails judge.now (node_of node.now) l why) }
{
    if judge.bounds {
        return judge_leaf(judge, node, end);
    }
    match end {
        End::Open(_) => judge_open(judge.site.problem(), node, judge.partial),
        end => judge_leaf(judge, node, end),
    }
}
