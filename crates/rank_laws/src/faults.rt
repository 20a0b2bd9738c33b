ghost use Rattle.rank_laws.specs.Laws.{PassingNetworksHaveNoFault, NetworksHaveOneFault};
ghost use Rattle.rank_laws.specs.Laws.{LeavesHaveRules, PassingTreeHasNoFault, TreeHasOneFault};

/// Networks that pass have no first fault, and those that have one have one number and cause.
pub fn network_has_one_fault()
    ensures passes { PassingNetworksHaveNoFault }
    ensures one { NetworksHaveOneFault }
{}

/// The leaves of ranked trees have rules. A tree that passes has no first fault, and one that has a
/// first fault has one place and cause.
pub fn ranking_has_one_fault()
    ensures leaves { LeavesHaveRules }
    ensures passes { PassingTreeHasNoFault }
    ensures one { TreeHasOneFault }
{}
