//! What the answers of a bench mean for the node of a problem. Each law is the contract of a
//! function without a body.
ghost use Rattle.dual_simplex.specs.Laws.{ScaleIsPositive, BoundIsReached, BoundIsLeast};
ghost use Rattle.dual_simplex.specs.Laws.{NoneIsRefuted, FeasibleIsLast, RefutingIsLast};
ghost use Rattle.dual_simplex.specs.Laws.{PastIsLast};
ghost use Rattle.dual_simplex.specs.FlowLaws.{FlowsAreRelaxed, FlowsAreLeast, UnitsAreInside};
ghost use Rattle.dual_simplex.specs.FlowLaws.{SplitIsDecided, SplitFlowsAreFlows};
ghost use Rattle.dual_simplex.specs.FlowLaws.{SplitFlowsAreLeast};

/// After `Least` the bound of the multipliers, over their scale, is the cost of some relaxed flows,
/// and at most that of all.
pub fn least_is_least()
    ensures scale { ScaleIsPositive }
    ensures reached { BoundIsReached }
    ensures least { BoundIsLeast }
{}

/// After `None` the multipliers refute the node.
pub fn none_is_refuted()
    ensures { NoneIsRefuted }
{}

/// Whatever a bench answers, the basis that it keeps is the last of the path.
pub fn kept_basis_is_last()
    ensures feasible { FeasibleIsLast }
    ensures refuting { RefutingIsLast }
    ensures past { PastIsLast }
{}

/// After `read_flows` the flows are relaxed flows of the node, and their cost is the bound of the
/// multipliers.
pub fn flows_are_least()
    ensures relaxed { FlowsAreRelaxed }
    ensures least { FlowsAreLeast }
{}

/// If each unit is either taken in or left out, they are flows for the units that are taken in, of
/// that cost.
pub fn split_flows_are_least()
    ensures units { UnitsAreInside }
    ensures decided { SplitIsDecided }
    ensures flows { SplitFlowsAreFlows }
    ensures least { SplitFlowsAreLeast }
{}
