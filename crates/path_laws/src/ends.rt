//! Laws of what is read off at the end of the path of a node's program: multipliers whose bound is
//! the cost of least flows, these flows, or a refutation. `specs/EndLaws` states them, with the
//! definitions of `specs/Ends`.
ghost use Rattle.path_laws.specs.EndLaws.{ScaleIsPositive, BoundIsReached, BoundIsLeast};
ghost use Rattle.path_laws.specs.EndLaws.{ReadFlowsAreRelaxed, ReadFlowsAreLeast, RelaxedAreFlows};
ghost use Rattle.path_laws.specs.EndLaws.{RelaxedCostIsCost, RowRefutes};

/// At a basis of the path that gives least flows, take the bound of the cost row's multipliers over
/// their scale. It is the cost of some relaxed flows, and at most that of all.
pub fn least_flows()
    ensures scale { ScaleIsPositive }
    ensures reached { BoundIsReached }
    ensures least { BoundIsLeast }
{}

/// The flows that are read off such a basis are relaxed flows of that cost.
pub fn read_flows()
    ensures relaxed { ReadFlowsAreRelaxed }
    ensures least { ReadFlowsAreLeast }
{}

/// If each unit is either taken in or left out, relaxed flows are flows for the units that are
/// taken in, of the same cost.
pub fn split_nodes()
    ensures flows { RelaxedAreFlows }
    ensures cost { RelaxedCostIsCost }
{}

/// The multipliers of a row that can't be met refute the node.
pub fn row_refutes()
    ensures { RowRefutes }
{}
