//! The order of the networks.
ghost use Rattle.std.specs.Prelude.{◌≡◌, ◌<◌, ◌↔◌, ◌∷◌, ℕ, [], true, false, length, IsTrue};
ghost use Rattle.std.specs.Prelude.{OnOk, IfErr};
ghost use Rattle.rank_laws.specs.number_sets.Sets.{has};
ghost use Rattle.rank_laws.specs.rank_rules.Networks.{Repeats, AreAlike, RisesFrom, IsNewTo};
ghost use Rattle.rank_laws.specs.rank_rules.Networks.{IsInOrder};
ghost use Rattle.rank_laws.specs.rank_rules.Networks.{like_why, OrderFails};
ghost use Rattle.rank_check.specs.Earlier.{earlier};

use cert_check::{CostOver, Network, UnitSet};
use rank_laws::RankWhy;

/// Whether the two are the same units.
pub(crate) fn are_same(a: UnitSet, b: UnitSet) -> bool
    ensures { IsTrue result ↔ ((u : ℕ) → has a u ≡ has b u) }
{
    a.within(b) && b.within(a)
}

/// Whether the network costs at least what the other does.
fn is_no_cheaper(before: &Network, network: &Network) -> bool
    ensures { IsTrue result ↔ RisesFrom (before.now ∷ []) network.now }
{
    before.is_sized();
    network.is_sized();
    let least = CostOver {
        cost: before.cost(),
        d: before.d(),
    };
    least.is_reached(network.cost(), network.d())
}

/// Whether the network contains the units of the other, which costs no more.
fn repeats(network: &Network, other: &Network) -> bool
    ensures { IsTrue result ↔ Repeats network.now other.now }
{
    other.units().within(network.units()) && is_no_cheaper(other, network)
}

/// Whether one of the networks contains the units of the other, which costs no more.
fn one_repeats(a: &Network, b: &Network) -> bool
    ensures { IsTrue result ↔ AreAlike true a.now b.now }
{
    repeats(a, b) || repeats(b, a)
}

/// Whether the networks have the same units.
fn have_same(a: &Network, b: &Network) -> bool
    ensures { IsTrue result ↔ AreAlike false a.now b.now }
{
    are_same(a.units(), b.units())
}

/// Whether one of the networks is enough.
fn are_alike(distinct: bool, a: &Network, b: &Network) -> bool
    ensures { IsTrue result ↔ AreAlike distinct a.now b.now }
{
    if distinct {
        one_repeats(a, b)
    } else {
        have_same(a, b)
    }
}

/// Whether no network before the place is like it.
fn is_new(distinct: bool, networks: &[Network], at: usize, network: &Network) -> bool
    requires { at < length networks.now }
    ensures { IsTrue result ↔ IsNewTo distinct (earlier at networks.now) network.now }
{
    let mut left = at;
    'looking: while left > 0 {
        left -= 1;
        let other = &networks[left];
        if are_alike(distinct, other, network) {
            return false;
        }
    }
    true
}

/// Whether the network costs at least what the one before the place does, if there is one.
fn is_rising(networks: &[Network], at: usize, network: &Network) -> bool
    requires { at < length networks.now }
    ensures { IsTrue result ↔ RisesFrom (earlier at networks.now) network.now }
{
    if at == 0 {
        return true;
    }
    let place = at - 1;
    let before = &networks[place];
    is_no_cheaper(before, network)
}

/// The cause if an earlier network is like it.
fn cause_of_like(distinct: bool) -> RankWhy
    ensures { result ≡ like_why distinct }
{
    if distinct {
        RankWhy::Contains
    } else {
        RankWhy::Order
    }
}

/// Judges the order of the network at the place.
pub(crate) fn judge_order(
    distinct: bool,
    networks: &[Network],
    at: usize,
    network: &Network,
) -> Result<(), RankWhy>
    requires { at < length networks.now }
    ensures passes { OnOk result (IsInOrder distinct (earlier at networks.now) network.now) }
    ensures fails { IfErr result (OrderFails distinct (earlier at networks.now) network.now) }
{
    if !is_rising(networks, at, network) {
        return Err(RankWhy::Order);
    }
    if !is_new(distinct, networks, at, network) {
        return Err(cause_of_like(distinct));
    }
    Ok(())
}
