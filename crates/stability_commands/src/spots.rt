//! The prices and costs of a network, which may vary.
ghost use Rattle.std.specs.Prelude.{◌≡◌, ◌<◌, ◌++◌, ℕ, true, IfOk, OnOk, map, flat_map, length};
ghost use Rattle.stability.specs.number_sets.Sets.{has};
ghost use Rattle.stability.specs.flow_rules.Net.{net_of, materials_of};
ghost use Rattle.stability.specs.report_rules.declared.spot.Spot.TheVariants.{Price};
ghost use Rattle.network_commands.specs.studio_rules.StableTable.{cost_spots, spots_of};

use network_commands::materials_in;
use stability::{Network, Site, Spot};
use std::alloc::{AllocError, Global};

/// The prices of the network's materials.
fn price_spots(alloc: Global, site: &Site<'_>, network: &Network) -> Result<Vec<Spot>, AllocError>
    requires known { (u : ℕ) → has network.now.units u ≡ true → u < length site.now.units }
    ensures { IfOk result
        (λ spots. spots.items
        ≡ map Price (materials_of (net_of site.now) (has network.now.units))) }
{
    let mut spots = Vec::new(alloc);
    for x in materials_in(site, network) {
        spots.push(Spot::Price(x))?;
    }
    Ok(spots)
}

/// Appends the two costs of a unit.
fn push_costs(spots: &mut Vec<Spot>, u: u32) -> Result<(), AllocError>
    ensures { OnOk result (spots.new.items ≡ spots.old.items ++ cost_spots u) }
{
    spots.push(Spot::Fix(u))?;
    spots.push(Spot::Proportional(u))?;
    Ok(())
}

/// The prices of the network's materials, and then the costs of its units.
pub(crate) fn spots_of(
    alloc: Global,
    site: &Site<'_>,
    network: &Network,
) -> Result<Vec<Spot>, AllocError>
    requires known { (u : ℕ) → has network.now.units u ≡ true → u < length site.now.units }
    ensures { IfOk result (λ spots. spots.items ≡ spots_of site.now network.now) }
{
    let mut spots = price_spots(alloc, site, network)?;
    for u in network.units() {
        push_costs(&mut spots, u)?;
    }
    Ok(spots)
}
