ghost use Rattle.tree_laws.specs.Laws.{LeavesHaveRules, PassingClaimHasNoFault, ClaimHasOneFault};
ghost use Rattle.tree_laws.specs.Laws.{PassingTreeHasNoFault, TreeHasOneFault};

/// A claim that passes fails for no cause, and one that fails does so for one cause.
pub fn claim_has_one_fault()
    ensures passes { PassingClaimHasNoFault }
    ensures one { ClaimHasOneFault }
{}

/// A leaf that passes fails for no cause, and one that fails does so for one cause.
pub fn leaf_has_one_fault()
    ensures { LeavesHaveRules }
{}

/// A tree that passes has no first fault, and one that has a first fault has one place and cause.
pub fn tree_has_one_fault()
    ensures passes { PassingTreeHasNoFault }
    ensures one { TreeHasOneFault }
{}
