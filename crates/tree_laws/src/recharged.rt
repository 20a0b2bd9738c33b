ghost use Rattle.tree_laws.specs.CappingLaws.{RechargedIsLean, RechargedKnows, RechargedIsTree};
ghost use Rattle.tree_laws.specs.CappingLaws.{RechargedIsAsLong};

/// A tree that proves a claim for a capped plant, and is lean there, is lean for the plant once its
/// leaves charge.
pub fn recharged_is_lean()
    ensures { RechargedIsLean }
{}

/// The plant knows the numbers of the tree, if a capped plant does.
pub fn recharged_knows()
    ensures { RechargedKnows }
{}

/// It is a whole tree with as many nodes.
pub fn recharged_is_tree()
    ensures tree { RechargedIsTree }
    ensures length { RechargedIsAsLong }
{}
