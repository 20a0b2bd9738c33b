//! The networks that were found, best first.
ghost use Rattle.std.specs.Prelude.{◌≡◌, ◌≤◌, ◌+◌, ◌<◌, ◌^◌, [], length, take, drop, OnOk, OnErr};
ghost use Rattle.std.specs.Prelude.{option_copied};
ghost use Rattle.abb_search.specs.node_evaluation.Looks.{cost_of};
ghost use Rattle.rank_search.specs.Found.{undercut_by, AreRising};
ghost use Rattle.rank_search.specs.Listed.{IsListed, IsAdded, IsSomeAdded, AreAdded, IsFrontAdded};
ghost use Rattle.rank_search.specs.Listed.{AreScaled, AreNoDearer, AreDearer};

use abb_search::costs_no_more;
use rank_check::Network;
use std::alloc::{AllocError, Global};
use std::marker::Model;

/// A network, and the number of the leaf at which it was found.
#[derive(Drop)]
pub struct FoundAt {
    pub network: Network,
    pub leaf: u32,
}

impl Model for FoundAt {
    ghost use Rattle.rank_search.specs.Found as specs;

    ghost Value = { specs.FoundAt };

    ghost view = { λ f. record { network = f.network; leaf = f.leaf } };
}

/// The place of a network in a list that rises in cost, after all that cost no more.
pub fn place_for(found: &[FoundAt], network: &Network) -> usize
    requires rising { AreRising found.now }
    requires scaled { AreScaled found.now }
    ensures within { result ≤ length found.now }
    ensures low { AreNoDearer (take result found.now) network.now }
    ensures high { AreDearer (drop result found.now) network.now }
{
    network.is_sized();
    found.partition_point(|other| costs_no_more(&other.network, network))
}

/// The best of the networks that were found, best first, and at most as many as are asked for. Of
/// those that cost the same, the earlier one is first.
#[derive(Drop)]
pub struct FoundNetworks {
    count: u32,
    found: Vec<FoundAt>,
}

impl Model for FoundNetworks {
    ghost use Rattle.rank_search.specs.Listed.{Listed, IsListed};

    ghost Value = { Listed };

    ghost view = { λ l. record { count = l.count; found = l.found.items } };

    ghost invariant = { λ l. IsListed (record { count = l.count; found = l.found.items }) };
}

impl FoundNetworks {
    /// None yet, if so many are asked for, at least one.
    pub fn new(alloc: Global, count: u32) -> FoundNetworks
        requires { 1 ≤ count }
        ensures { result ≡ record { count = count; found = [] } }
    {
        FoundNetworks {
            count,
            found: Vec::new(alloc),
        }
    }

    /// How many are asked for.
    pub fn count(&self) -> u32
        ensures { result ≡ self.now.count }
    {
        self.count
    }

    /// The networks of the list, best first.
    pub fn found(&self) -> &[FoundAt]
        ensures { result.now ≡ self.now.found }
    {
        &self.found
    }

    /// The networks of the list, best first.
    pub fn into_found(self) -> Vec<FoundAt>
        ensures { result.items ≡ self.found }
    {
        self.found
    }

    /// The network that is to be undercut: the last one, if the list has as many as are asked for.
    pub fn to_beat(&self) -> Option<&Network>
        ensures { cost_of (option_copied result) ≡ undercut_by self.now.count self.now.found }
    {
        if self.found.len() < self.count as usize {
            return None;
        }
        let last = self.found.last()?;
        Some(&last.network)
    }

    /// At least one is asked for, the list has no more, and they rise in cost. A call proves this,
    /// and does nothing.
    pub fn is_listed(&self)
        ensures { IsListed self.now }
    {
        let _count = self.count;
    }

    /// Adds a network that was found at a leaf, after those that cost no more. If there are then
    /// more than are asked for, the last one drops out. After `Err`, which comes if memory is
    /// refused, all is as before.
    pub fn add(&mut self, network: Network, leaf: u32) -> Result<(), AllocError>
        ensures added { OnOk result
            (IsAdded self.old self.new (record { network = network; leaf = leaf })) }
        ensures same { OnErr result (self.new ≡ self.old) }
    {
        network.is_sized();
        let at = place_for(&self.found, &network);
        let count = self.count as usize;
        if at >= count {
            return Ok(());
        }
        self.found.insert(at, FoundAt { network, leaf })?;
        self.found.truncate(count);
        Ok(())
    }

    /// Adds a network that was found at a leaf, if there is one.
    fn add_some(&mut self, network: Option<Network>, leaf: u32) -> Result<(), AllocError>
        ensures added { OnOk result (IsSomeAdded self.old self.new leaf network) }
        ensures same { OnErr result (self.new ≡ self.old) }
    {
        match network {
            None => Ok(()),
            Some(network) => self.add(network, leaf),
        }
    }

    /// Adds in turn the networks that were found at the leaves of the numbers from `first` on.
    /// After `Err`, which comes if memory is refused, the first few of them are added.
    pub fn add_all(&mut self, networks: Vec<Option<Network>>, first: u32) -> Result<(), AllocError>
        requires { first + length networks.items < 2 ^ 32 }
        ensures added { OnOk result (AreAdded self.old self.new first networks.items) }
        ensures front { OnErr result (IsFrontAdded self.old self.new first networks.items) }
    {
        let mut leaf = first;
        'networks: for network in networks {
            self.add_some(network, leaf)?;
            leaf += 1;
        }
        Ok(())
    }
}
