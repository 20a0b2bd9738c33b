//! Whole ranked trees.
ghost use Rattle.std.specs.Prelude.{◌≡◌, ◌<◌, ◌^◌, [], ◌∷◌, ℕ, ℤ, true, false, Some, length, OnOk};
ghost use Rattle.std.specs.Prelude.{IfOk, IfErr};
ghost use Rattle.rank_laws.specs.number_sets.Sets.{has};
ghost use Rattle.rank_laws.specs.pns_rules.Shape.{shape_of};
ghost use Rattle.rank_laws.specs.flow_rules.Net.{net_of};
ghost use Rattle.rank_laws.specs.flow_rules.Flows.{IsFlows};
ghost use Rattle.rank_laws.specs.tree_rules.Claim as rules;
ghost use Rattle.rank_laws.specs.tree_rules.Accepted.{first_node};
ghost use Rattle.rank_laws.specs.tree_rules.Costs.{CostsEnough};
ghost use Rattle.rank_laws.specs.tree_text_rules.OpenLeaves.{open_leaves};
ghost use Rattle.cert_check.specs.Shown.{cost_over};
ghost use Rattle.cert_check.specs.OpenLeaves.{leaves_at, AreBefore};
ghost use Rattle.rank_laws.specs.rank_rules.declared.why.RankWhy.{RankWhy};
ghost use Rattle.rank_laws.specs.rank_rules.Networks as ranks;
ghost use Rattle.rank_laws.specs.rank_rules.Networks.{to_undercut, numbered, last_cost, ArePassing};
ghost use Rattle.rank_laws.specs.rank_rules.Alternatives.{IsRight};
ghost use Rattle.rank_laws.specs.rank_rules.Ranked.{IsRanked, NetworkIsFault, NodeIsFault};
ghost use Rattle.rank_laws.specs.rank_rules.Text.{ranking_of};
ghost use Rattle.rank_check.specs.declared.refusal.RankRefusal.TheVariants as refusals;
ghost use Rattle.rank_check.specs.Marks.{AreKnown};
ghost use Rattle.rank_check.specs.Others.{AllOthers};
ghost use Rattle.rank_check.specs.Refusals.{PlainPasses, NamesPlainFault, OpenPass, OpenFails};
ghost use Rattle.rank_check.specs.Refusals.{IsNodeAnswer, Refuses, IsOkOrMemory, IsRefusalOrMemory};

use crate::RankText;
use crate::leaf::cost_of;
use crate::marks::judge_marks;
use crate::networks::judge_networks;
use crate::refusal::RankRefusal;
use cert_check::{CostOver, Network, Node, OpenLeaf, Site, Stop, UnitSet, check_nodes};
use rank_laws::{
    RankWhy, Refusal, alternatives_are_right, listed_are_least, network_has_one_fault,
    others_are_no_better, ranking_has_one_fault,
};
use std::alloc::Global;

/// The cost that is to be undercut: that of the last network, if there are as many as were asked
/// for.
fn cost_to_undercut(count: u32, networks: &[Network]) -> Option<CostOver>
    ensures { cost_over result ≡ to_undercut count networks.now }
{
    let found = networks.len();
    if found == 0 || found != count as usize {
        return None;
    }
    let place = found - 1;
    let last = &networks[place];
    Some(cost_of(last))
}

/// Walks the tree, whose leaves may be open, and gives the open leaves. If a node fails, it gives
/// the open leaves before it.
fn walk_tree(alloc: Global, site: &Site<'_>, text: &RankText) -> Result<Vec<OpenLeaf>, Stop>
    requires few { length text.now.tree < 2 ^ 32 }
    ensures passes { OnOk result (PlainPasses site.now text.now) }
    ensures leaves { IfOk result
        (λ v. leaves_at v.items
        ≡ open_leaves (shape_of site.now) (first_node ∷ []) text.now.tree 0) }
    ensures fault { IfErr result (λ stop. NamesPlainFault site.now text.now stop.refusal) }
    ensures before { IfErr result
        (λ stop. AreBefore (shape_of site.now) (first_node ∷ []) text.now.tree stop.refusal
        (leaves_at stop.leaves.items)) }
{
    let start = Node {
        inside: UnitSet::empty(),
        outside: UnitSet::empty(),
    };
    let undercut = cost_to_undercut(text.count(), text.networks());
    check_nodes(alloc, site, &start, undercut, text.tree())
}

/// Judges open leaves of the tree by their marks. If one fails, the number of its node and the
/// cause are given.
fn judge_open(site: &Site<'_>, text: &RankText, leaves: &[OpenLeaf]) -> Result<(), (u32, RankWhy)>
    requires known { AreKnown site.now (leaves_at leaves.now) }
    ensures passes { OnOk result (OpenPass site.now text.now (leaves_at leaves.now)) }
    ensures fails { IfErr result
        (λ found. OpenFails site.now text.now (leaves_at leaves.now) found.0 found.1) }
{
    judge_marks(
        site,
        text.is_distinct(),
        text.networks(),
        leaves,
        text.marks(),
    )
}

/// Names the node that stopped the walk, or an open leaf before it that fails first.
fn judge_stop(site: &Site<'_>, text: &RankText, stop: &Stop) -> RankRefusal
    requires listed { ArePassing text.now.distinct site.now [] text.now.networks }
    requires fault { NamesPlainFault site.now text.now stop.now.refusal }
    requires before { AreBefore (shape_of site.now) (first_node ∷ []) text.now.tree
        stop.now.refusal
        (leaves_at stop.now.leaves.items) }
    ensures { IsNodeAnswer site.now (ranking_of text.now) result }
{
    let Refusal::Node { node, why } = stop.refusal else {
        return RankRefusal::Memory;
    };
    match judge_open(site, text, &stop.leaves) {
        Err((earlier, cause)) => RankRefusal::Node {
            node: earlier,
            why: cause,
        },
        Ok(()) => RankRefusal::Node {
            node,
            why: RankWhy::Plain(why),
        },
    }
}

/// Judges the open leaves of a tree that passes if leaves may be open.
fn judge_end(site: &Site<'_>, text: &RankText, leaves: &[OpenLeaf]) -> Result<(), RankRefusal>
    requires listed { ArePassing text.now.distinct site.now [] text.now.networks }
    requires walked { PlainPasses site.now text.now }
    requires leaves { leaves_at leaves.now
        ≡ open_leaves (shape_of site.now) (first_node ∷ []) text.now.tree 0 }
    ensures passes { OnOk result (IsRanked site.now (ranking_of text.now)) }
    ensures fails { IfErr result (IsNodeAnswer site.now (ranking_of text.now)) }
{
    match judge_open(site, text, leaves) {
        Ok(()) => Ok(()),
        Err((node, why)) => Err(RankRefusal::Node { node, why }),
    }
}

/// Judges the tree; the networks pass.
fn judge_tree(alloc: Global, site: &Site<'_>, text: &RankText) -> Result<(), RankRefusal>
    requires few { length text.now.tree < 2 ^ 32 }
    requires listed { ArePassing text.now.distinct site.now [] text.now.networks }
    ensures passes { OnOk result (IsRanked site.now (ranking_of text.now)) }
    ensures fails { IfErr result (IsNodeAnswer site.now (ranking_of text.now)) }
{
    match walk_tree(alloc, site, text) {
        Ok(leaves) => judge_end(site, text, &leaves),
        Err(stop) => Err(judge_stop(site, text, &stop)),
    }
}

/// Judges the networks, and then the tree.
fn judge(alloc: Global, site: &Site<'_>, text: &RankText) -> Result<(), RankRefusal>
    requires few { length text.now.tree < 2 ^ 32 }
    ensures ranked { OnOk result (IsRanked site.now (ranking_of text.now)) }
    ensures refused { IfErr result (Refuses site.now (ranking_of text.now)) }
{
    text.is_counted();
    match judge_networks(site, text.is_distinct(), text.networks()) {
        Err((number, why)) => Err(RankRefusal::Network { number, why }),
        Ok(()) => judge_tree(alloc, site, text),
    }
}

/// Judges the networks in turn, each as a claim and then its order. Then it judges the nodes of the
/// tree in preorder. A tree has fewer than 2^32 nodes.
pub fn check_rank(alloc: Global, site: &Site<'_>, text: &RankText) -> Result<(), RankRefusal>
    requires few { length text.now.tree < 2 ^ 32 }
    // `Ok` comes only if it is ranked. If it is ranked, the only other answer is that there is no
    // memory.
    ensures ranked { OnOk result (IsRanked site.now (ranking_of text.now)) }
    ensures accepts { IsRanked site.now (ranking_of text.now) → IsOkOrMemory result }
    // A refusal names the first fault. A first fault is named, unless there is no memory.
    ensures refused { IfErr result (Refuses site.now (ranking_of text.now)) }
    ensures names_network { (k : ℕ) (why : RankWhy)
        → NetworkIsFault site.now (ranking_of text.now) k why
        → IsRefusalOrMemory (refusals.Network k why) result }
    ensures names_node { (k : ℕ) (why : RankWhy)
        → ArePassing text.now.distinct site.now [] text.now.networks
        → NodeIsFault false site.now (ranking_of text.now) k why
        → IsRefusalOrMemory (refusals.Node k why) result }
    // No flows for the units of a listed network cost less than it.
    ensures least { OnOk result
        ((k : ℕ) (w : rules.Network) → numbered k text.now.networks ≡ Some w
        → CostsEnough site.now (Some (ranks.cost_of w)) (has w.units)) }
    // In a ranking that is no list of alternatives: if there are as many networks as were asked
    // for, each clash-free solution structure that is not listed costs at least what the last does,
    // with any flows. If there are fewer, none of them has flows.
    ensures full { OnOk result
        (text.now.distinct ≡ false → length text.now.networks ≡ text.now.count
        → AllOthers site.now text.now.networks
        (CostsEnough site.now (last_cost text.now.networks))) }
    ensures fewer { OnOk result
        (text.now.distinct ≡ false → length text.now.networks < text.now.count
        → AllOthers site.now text.now.networks
        (λ s. (z : ℕ → ℤ) (d : ℤ) → IsFlows (net_of site.now) s z d → ⊥)) }
    // A list of alternatives is right: each network is the best for its units, none contains the
    // units of another that costs no more, and what is left out contains a listed network and costs
    // no less, or costs at least what the last one does.
    ensures alternatives { OnOk result
        (text.now.distinct ≡ true → IsRight site.now text.now.count text.now.networks) }
{
    site.problem();
    network_has_one_fault();
    ranking_has_one_fault();
    listed_are_least();
    others_are_no_better();
    alternatives_are_right();
    text.is_counted();
    judge(alloc, site, text)
}
