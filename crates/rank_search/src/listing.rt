//! What a search keeps beside its tree.
ghost use Rattle.std.specs.Prelude.{◌≡◌, ◌<◌, ◌+◌, ◌^◌, OnOk, length};
ghost use Rattle.rank_search.specs.Plants.{AreAdded};
ghost use Rattle.rank_search.specs.Listing.{IsValueFor, IsWithValues};

use crate::plants::{Plants, value_of};
use rank_check::{Mixed, Network};
use std::alloc::AllocError;

/// How many plants are asked for, those that were found, and for each leaf that is bounded by
/// multipliers a cost that these reach.
#[derive(Drop)]
pub struct Listing {
    pub count: u32,
    pub plants: Plants,
    pub reached: Vec<Option<Mixed>>,
}

/// What the network costs, if there is one.
fn value_for(network: &Option<Network>) -> Option<Mixed>
    ensures { IsValueFor network.now result }
{
    match network {
        None => None,
        Some(network) => Some(value_of(network)),
    }
}

/// Adds the costs of the networks that were found at the next leaves.
fn reach_all(
    reached: &mut Vec<Option<Mixed>>,
    networks: &[Option<Network>],
) -> Result<(), AllocError>
    ensures { OnOk result (IsWithValues reached.old.items reached.new.items networks.now) }
{
    'reaching: for network in networks {
        reached.push(value_for(network))?;
    }
    Ok(())
}

/// Takes the networks that were found at the leaves of the numbers from `first` on.
pub(crate) fn take_networks(
    listing: &mut Listing,
    networks: Vec<Option<Network>>,
    first: u32,
) -> Result<(), AllocError>
    requires { first + length networks.items < 2 ^ 32 }
    ensures count { listing.new.count ≡ listing.old.count }
    ensures reached { OnOk result
        (IsWithValues listing.old.reached.items listing.new.reached.items networks.items) }
    ensures added { OnOk result (AreAdded listing.old.plants listing.new.plants networks.items) }
{
    reach_all(&mut listing.reached, &networks)?;
    listing.plants.add_all(networks, first)?;
    Ok(())
}
