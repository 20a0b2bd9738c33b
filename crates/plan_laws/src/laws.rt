//! The laws.
ghost use Rattle.plan_laws.specs.DesignLaws.{FamiliesAreStructures, StructuresAreFamilies};
ghost use Rattle.plan_laws.specs.DesignLaws.{DesignsAreNetworks, NoNetworkIsNoDesign};
ghost use Rattle.plan_laws.specs.DesignLaws.{LeastNetworkIsLeastDesign};

use crate::expanded_is_valid;

/// A solution structure for each period, and the units that build their union, are a solution
/// structure of the expanded problem.
pub fn families_are_structures()
    ensures { FamiliesAreStructures }
{
    expanded_is_valid();
}

/// Each solution structure of the expanded problem is such a family.
pub fn structures_are_families()
    ensures { StructuresAreFamilies }
{
    expanded_is_valid();
}

/// Each design of a plant over its periods is a network of the expanded problem, at the same cost.
pub fn designs_are_networks()
    ensures { DesignsAreNetworks }
{
    expanded_is_valid();
}

/// If no clash-free solution structure of the expanded problem has flows, the plant has no design
/// over its periods.
pub fn no_network_is_no_design()
    ensures { NoNetworkIsNoDesign }
{
    expanded_is_valid();
}

/// A feasible network of the expanded problem stands for a design at its cost. If no network
/// undercuts it, no design does.
pub fn least_network_is_least_design()
    ensures { LeastNetworkIsLeastDesign }
{
    expanded_is_valid();
}
