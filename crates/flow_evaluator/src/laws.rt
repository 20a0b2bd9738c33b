// Laws of the flows of a solution structure.
ghost use Rattle.flow_evaluator.specs.Laws.{ProvedIsLeast, RefutedHasNone, NodeIsDecided};
ghost use Rattle.flow_evaluator.specs.Laws.{AllowedIsDecided};

use dual_simplex::{refutation, valid_is_proper, weak_duality};

/// Flows whose cost is the bound of multipliers cost the least of all; and if multipliers refute,
/// there are none.
pub fn multipliers_prove()
    ensures least { ProvedIsLeast }
    ensures none { RefutedHasNone }
{
    weak_duality();
    refutation();
}

/// At the node of a set of units each unit is taken in or left out.
pub fn node_is_decided()
    ensures { NodeIsDecided }
{}

/// The node of a clash-free solution structure is sound, no step is possible there, and all is
/// decided.
pub fn allowed_is_decided()
    ensures { AllowedIsDecided }
{
    valid_is_proper();
}
