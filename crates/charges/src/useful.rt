//! What can be used of the materials at a node.
ghost use Rattle.std.specs.Prelude.{◌≡◌, ◌<◌, ◌≤◌, ◌^◌, ◌*◌, ◌*ℤ◌, ◌+ℤ◌, neg_ℤ, ℕ, pos, true};
ghost use Rattle.std.specs.Prelude.{length, unsigned_abs};
ghost use Rattle.std.specs.Int.{int_max, int_min};
ghost use Rattle.structure_list.specs.integer_laws.Total.{total};
ghost use Rattle.structure_list.specs.number_sets.Sets.{has};
ghost use Rattle.structure_list.specs.pns_rules.Shape.{shape_of};
ghost use Rattle.structure_list.specs.pgraph.View.{node_of};
ghost use Rattle.structure_list.specs.flow_rules.Net.{net_of};
ghost use Rattle.structure_list.specs.flow_rules.Relaxed.{units};
ghost use Rattle.flow_program.specs.NodeSets.{AreSetsOf};
ghost use Rattle.structure_list.specs.flow_rules.ChargeFacts.{use_rate};
ghost use Rattle.structure_list.specs.flow_rules.Charge.{users_most, at_most, useful};
ghost use Rattle.charges.specs.Known.{facts_of};
ghost use Rattle.charges.specs.Ground.{AreUseful};

use crate::facts::Facts;
use flow_program::{NodeSets, rate_at, row_range};
use structure_list::{MatSet, Node, Site, UnitSet};

/// The materials that may have knees, and what can be used of each of them, with what has to be
/// left over.
#[derive(Drop)]
pub(crate) struct Useful {
    pub(crate) made: MatSet,
    pub(crate) most: [i128; 256],
}

/// The rate at which a unit uses a material, if it makes it at this rate.
pub(crate) fn use_rate_of(rate: i64) -> i64
    requires { unsigned_abs rate ≤ 2000000000000000 }
    ensures value { result ≡ int_max (pos 0) (neg_ℤ rate) }
    ensures small { unsigned_abs result ≤ 2000000000000000 }
{
    if rate < 0 { -rate } else { 0 }
}

/// An amount for each part of a size.
pub(crate) fn times(rate: i64, size: i64) -> i128
    requires { unsigned_abs rate ≤ 2000000000000000 }
    ensures value { result ≡ rate *ℤ size }
    ensures small { unsigned_abs result ≤ 20000000000000000000000000000000000 }
{
    rate as i128 * size as i128
}

/// The unit's rate of the material.
pub fn rate_of(site: &Site<'_>, j: u32, u: u32) -> i64
    requires { u < length site.now.units }
    ensures value { result ≡ (net_of site.now).rate j u }
    ensures small { unsigned_abs result ≤ 2000000000000000 }
{
    rate_at(site.problem(), j, u)
}

/// What the unit can use of the material at most.
fn use_most(site: &Site<'_>, facts: &Facts, u: u32, j: u32) -> i128
    requires known { u < length site.now.units }
    requires small { u < 128 }
    ensures value { result ≡ use_rate (net_of site.now) j u *ℤ (facts_of facts.now).most u }
    ensures small { unsigned_abs result ≤ 20000000000000000000000000000000000 }
{
    times(use_rate_of(rate_of(site, j, u)), facts.most_of(u))
}

/// What the units of the set can use of the material at most.
fn set_most(site: &Site<'_>, facts: &Facts, set: UnitSet, j: u32) -> i128
    requires { (u : ℕ) → has set u ≡ true → u < length site.now.units }
    ensures value { result
        ≡ total (λ u. use_rate (net_of site.now) j u *ℤ (facts_of facts.now).most u) set }
    ensures small { unsigned_abs result ≤ 256 * 10 ^ 34 }
{
    let mut sum = 0;
    for u in set {
        sum += use_most(site, facts, u, j);
    }
    sum
}

/// What the units of the node can use of the material at most. Only those that use it are read.
fn users_most(site: &Site<'_>, node: &Node, set: UnitSet, facts: &Facts, j: u32) -> i128
    requires known { j < length site.now.materials }
    requires units { set ≡ units (net_of site.now) (node_of node.now) }
    ensures value { result
        ≡ users_most (net_of site.now) (node_of node.now) (facts_of facts.now) j }
    ensures small { unsigned_abs result ≤ 256 * 10 ^ 34 }
{
    site.problem().is_valid();
    set.rises();
    let users = set.meet(site.graph().consumers(j));
    users.rises();
    set_most(site, facts, users, j)
}

/// The lesser number.
fn lesser(a: i128, b: i128) -> i128
    requires first { unsigned_abs a ≤ 20000000000000000000000000000000000 }
    requires second { unsigned_abs b ≤ 256 * 10 ^ 34 }
    ensures value { result ≡ int_min a b }
    ensures small { unsigned_abs result ≤ 256 * 10 ^ 34 }
{
    if a < b { a } else { b }
}

/// The lesser of what is used at most, if that is known, and of what can be used.
fn at_most(used: Option<i64>, most: i128) -> i128
    requires { unsigned_abs most ≤ 256 * 10 ^ 34 }
    ensures value { result ≡ at_most used most }
    ensures small { unsigned_abs result ≤ 256 * 10 ^ 34 }
{
    match used {
        Some(v) => lesser(times(1_000_000, v), most),
        None => most,
    }
}

/// How much is used of the material at most, as far as is known: by the units of the node, or at
/// all. The set is that of the units of the node.
pub fn most_used(site: &Site<'_>, node: &Node, set: UnitSet, facts: &Facts, j: u32) -> i128
    requires known { j < length site.now.materials }
    requires small { j < 256 }
    requires units { set ≡ units (net_of site.now) (node_of node.now) }
    ensures value { result ≡ at_most ((facts_of facts.now).used j)
        (users_most (net_of site.now) (node_of node.now) (facts_of facts.now) j) }
    ensures small { unsigned_abs result ≤ 256 * 10 ^ 34 }
{
    at_most(facts.used_of(j), users_most(site, node, set, facts, j))
}

/// What has to be left over and what can be used.
fn both(low: i128, most: i128) -> i128
    requires low { unsigned_abs low ≤ 10 ^ 21 }
    requires most { unsigned_abs most ≤ 256 * 10 ^ 34 }
    ensures value { result ≡ low +ℤ most }
    ensures small { unsigned_abs result ≤ 10 ^ 37 }
{
    low + most
}

/// What can be used of the material, with what has to be left over.
fn useful_of(site: &Site<'_>, node: &Node, sets: &NodeSets, facts: &Facts, j: u32) -> i128
    requires known { j < length site.now.materials }
    requires small { j < 256 }
    requires sets { AreSetsOf (shape_of site.now) (node_of node.now)
        sets.now.units sets.now.rows sets.now.needed }
    ensures value { result ≡ useful (net_of site.now) (node_of node.now) (facts_of facts.now) j }
    ensures small { unsigned_abs result ≤ 10 ^ 37 }
{
    let range = row_range(site.problem(), node, sets.needed, j);
    let most = at_most(
        facts.used_of(j),
        users_most(site, node, sets.units, facts, j),
    );
    both(range.low, most)
}

/// What can be used of each material that may have a knee: the rows that are no raw materials.
pub(crate) fn useful_at(site: &Site<'_>, node: &Node, sets: &NodeSets, facts: &Facts) -> Useful
    requires { AreSetsOf (shape_of site.now) (node_of node.now)
        sets.now.units sets.now.rows sets.now.needed }
    ensures { AreUseful (net_of site.now) (node_of node.now) (facts_of facts.now) result }
{
    let made = sets.rows.minus(site.graph().raws());
    let mut most = [0; 256];
    for j in made {
        most[j as usize] = useful_of(site, node, sets, facts, j);
    }
    Useful { made, most }
}
