ghost use Rattle.search_tree.specs.TurnLaws.{BranchingIsKept, ShuttingIsKept, ReachedIsNoDearer};
ghost use Rattle.search_tree.specs.TurnLaws.{ReachedMayUndercut, NetworksCostMore, GrowthBranches};

/// A turn that branches an open leaf which costs no more than any other keeps what a search keeps.
pub fn branching_is_kept()
    ensures { BranchingIsKept }
{}

/// So does one that shuts open leaves.
pub fn shutting_is_kept()
    ensures { ShuttingIsKept }
{}

/// Costs of relaxed flows show that a node costs no more than another.
pub fn reached_is_no_dearer()
    ensures { ReachedIsNoDearer }
{}

/// They show that a node may undercut a cost.
pub fn reached_may_undercut()
    ensures { ReachedMayUndercut }
{}

/// A network costs no less than the relaxed flows of a node at which it is found.
pub fn networks_cost_more()
    ensures { NetworksCostMore }
{}

/// What the call that branches a leaf does to the cells is such a step.
pub fn growth_is_turn()
    ensures { GrowthBranches }
{}
