//! Leaves that name a network.
ghost use Rattle.std.specs.Prelude.{◌≡◌, ◌⊎◌, ◌↔◌, Some, None, IsTrue, IfSome, IfNone, OnOk};
ghost use Rattle.std.specs.Prelude.{IfErr};
ghost use Rattle.rank_laws.specs.tree_rules.declared.why.Why.TheVariants as causes;
ghost use Rattle.rank_laws.specs.pns_rules.Shape.{shape_of};
ghost use Rattle.cert_check.specs.pgraph.View.{node_of};
ghost use Rattle.cert_check.specs.Known.{KnowsInside};
ghost use Rattle.cert_check.specs.Shown.{cost_over};
ghost use Rattle.rank_laws.specs.rank_rules.Networks as ranks;
ghost use Rattle.rank_laws.specs.rank_rules.Networks.{numbered};
ghost use Rattle.rank_laws.specs.rank_rules.Leaf.{IsOnly, IsTakenIn, MayName, IsNamed, way_why};
ghost use Rattle.rank_laws.specs.rank_rules.declared.why.RankWhy.TheVariants as whys;
ghost use Rattle.rank_check.specs.View.{name_of};
ghost use Rattle.rank_check.specs.Marks.{NamedFails};

use crate::Name;
use crate::order::are_same;
use cert_check::{CostOver, Network, Node, Site, UnitSet, judge_bound};
use rank_laws::{Naming, RankWhy, Why};

/// What the network costs.
pub(crate) fn cost_of(network: &Network) -> CostOver
    ensures { cost_over (Some result) ≡ Some (ranks.cost_of network.now) }
{
    network.is_sized();
    CostOver {
        cost: network.cost(),
        d: network.d(),
    }
}

/// Whether each unit of the graph is taken in or left out at the node, and exactly the units of the
/// network are taken in.
fn is_only(site: &Site<'_>, node: &Node, network: &Network) -> bool
    ensures { IsTrue result ↔ IsOnly site.now (Some network.now) (node_of node.now) }
{
    let graph = site.graph();
    let all = UnitSet::below(graph.unit_count());
    let decided = node.inside.union(node.outside);
    if !all.within(decided) {
        return false;
    }
    are_same(node.inside, network.units())
}

/// Whether the units of the network are taken in at the node.
fn is_taken_in(node: &Node, network: &Network) -> bool
    ensures { IsTrue result ↔ IsTakenIn (Some network.now) (node_of node.now) }
{
    network.units().within(node.inside)
}

/// Whether the node may end with a leaf that names the network this way.
fn may_name(site: &Site<'_>, distinct: bool, node: &Node, way: Naming, network: &Network) -> bool
    ensures { IsTrue result
        ↔ MayName distinct way site.now (Some network.now) (node_of node.now) }
{
    match way {
        Naming::Only => is_only(site, node, network),
        Naming::Within => distinct && is_taken_in(node, network),
    }
}

/// The cause that is given if a leaf that names a network this way does not hold.
fn cause_of(way: Naming) -> RankWhy
    ensures { result ≡ way_why way }
{
    match way {
        Naming::Only => RankWhy::Named,
        Naming::Within => RankWhy::Over,
    }
}

/// The cause that is given for a leaf that names a network.
fn told(way: Naming, why: Why) -> RankWhy
    ensures { ((why ≡ causes.Bound) × (result ≡ way_why way))
        ⊎ ((why ≡ causes.Bound → ⊥) × (result ≡ whys.Plain why)) }
{
    match why {
        Why::Bound => cause_of(way),
        other => RankWhy::Plain(other),
    }
}

/// Judges a leaf that names the network.
fn judge_named(
    site: &Site<'_>,
    distinct: bool,
    node: &Node,
    network: &Network,
    name: &Name,
) -> Result<(), RankWhy>
    requires known { KnowsInside (shape_of site.now) (node_of node.now) }
    ensures passes { OnOk result
        (IsNamed distinct name.now.way site.now (Some network.now) (node_of node.now)
        name.now.scaled.d name.now.scaled.ys) }
    ensures fails { IfErr result
        (NamedFails distinct site.now (Some network.now) (node_of node.now) (name_of name.now)) }
{
    if !may_name(site, distinct, node, name.way, network) {
        return Err(cause_of(name.way));
    }
    let cost = cost_of(network);
    match judge_bound(site, node, Some(cost), name.scaled.d(), name.scaled.ys()) {
        Ok(()) => Ok(()),
        Err(why) => Err(told(name.way, why)),
    }
}

/// The network of a number, counted from 1.
fn find(networks: &[Network], number: u32) -> Option<&Network>
    ensures some { IfSome result (λ w. numbered number networks.now ≡ Some w.now) }
    ensures none { IfNone result (numbered number networks.now ≡ None) }
{
    let at = number as usize;
    if at == 0 {
        return None;
    }
    if at > networks.len() {
        return None;
    }
    let place = at - 1;
    let network = &networks[place];
    Some(network)
}

/// Judges a leaf that names a network by its number.
pub(crate) fn judge_numbered(
    site: &Site<'_>,
    distinct: bool,
    networks: &[Network],
    node: &Node,
    name: &Name,
) -> Result<(), RankWhy>
    requires known { KnowsInside (shape_of site.now) (node_of node.now) }
    ensures passes { OnOk result
        (IsNamed distinct name.now.way site.now (numbered name.now.network networks.now)
        (node_of node.now) name.now.scaled.d name.now.scaled.ys) }
    ensures fails { IfErr result
        (NamedFails distinct site.now (numbered name.now.network networks.now) (node_of node.now)
        (name_of name.now)) }
{
    match find(networks, name.network) {
        Some(network) => judge_named(site, distinct, node, network, name),
        None => Err(cause_of(name.way)),
    }
}
