//! The list of networks.
ghost use Rattle.std.specs.Prelude.{◌≡◌, ◌<◌, ◌+◌, ◌-◌, ◌^◌, [], false, length, OnOk, IfErr};
ghost use Rattle.rank_laws.specs.tree_rules.Claim as rules;
ghost use Rattle.rank_laws.specs.tree_rules.Claim.{IsFeasible};
ghost use Rattle.rank_laws.specs.rank_rules.Networks.{IsInOrder, ArePassing, NetworkFails};
ghost use Rattle.rank_laws.specs.rank_rules.Networks.{IsFirstOff};
ghost use Rattle.rank_check.specs.Earlier.{earlier};

use crate::order::judge_order;
use cert_check::{Network, Site, judge_network};
use rank_laws::{RankWhy, Why};

/// Judges a network as a claim.
fn judge_alone(site: &Site<'_>, network: &Network) -> Result<(), Why>
    ensures passes { OnOk result (IsFeasible site.now network.now) }
    ensures fails { IfErr result
        (λ why. rules.ClaimFails false site.now (rules.network network.now) why) }
{
    network.is_sized();
    judge_network(
        site,
        network.units(),
        network.sizes(),
        network.d(),
        network.cost(),
    )
}

/// Judges the network at the place: as a claim, and then its order.
fn judge_at(
    site: &Site<'_>,
    distinct: bool,
    networks: &[Network],
    at: usize,
    network: &Network,
) -> Result<(), RankWhy>
    requires within { at < length networks.now }
    ensures passes { OnOk result
        (IsFeasible site.now network.now
        × IsInOrder distinct (earlier at networks.now) network.now) }
    ensures fails { IfErr result
        (NetworkFails distinct site.now (earlier at networks.now) network.now) }
{
    match judge_alone(site, network) {
        Err(why) => Err(RankWhy::Plain(why)),
        Ok(()) => judge_order(distinct, networks, at, network),
    }
}

/// The number of the network at a place, counted from 1.
fn number(at: usize) -> u32
    requires { at + 1 < 2 ^ 32 }
    ensures { result ≡ at + 1 }
{
    at as u32 + 1
}

/// Judges the networks in turn. If one fails, its number, counted from 1, and the cause are given.
pub fn judge_networks(
    site: &Site<'_>,
    distinct: bool,
    networks: &[Network],
) -> Result<(), (u32, RankWhy)>
    requires few { length networks.now < 2 ^ 32 }
    ensures passes { OnOk result (ArePassing distinct site.now [] networks.now) }
    ensures fails { IfErr result
        (λ found. IsFirstOff distinct site.now [] networks.now found.0 found.1) }
{
    'judging: for i in 0..networks.len() {
        let network = &networks[i];
        match judge_at(site, distinct, networks, i, network) {
            Ok(()) => {}
            Err(why) => return Err((number(i), why)),
        }
    }
    Ok(())
}
