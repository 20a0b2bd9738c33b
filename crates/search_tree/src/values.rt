ghost use Rattle.search_tree.specs.SearchLaws.{BelowIsNoDearer, ChildrenAreBelow, StepsLeadBelow};
ghost use Rattle.search_tree.specs.SearchLaws.{ChildrenAreDearer};

/// If no needed material of a node below another is dead, then for any relaxed flows that it has,
/// the other node has some that cost no more.
pub fn below_is_no_dearer()
    ensures { BelowIsNoDearer }
{}

/// Each child is below its node, and so is each node to which possible steps lead.
pub fn children_are_below()
    ensures children { ChildrenAreBelow }
    ensures steps { StepsLeadBelow }
{}

/// So a node has relaxed flows that cost no more than any of a child after its steps.
pub fn children_are_dearer()
    ensures { ChildrenAreDearer }
{}
