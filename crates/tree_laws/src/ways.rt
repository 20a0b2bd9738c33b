ghost use Rattle.tree_laws.specs.Laws.{ChildrenCover, ChildrenAreWithin, ChildrenAreApart};
ghost use Rattle.tree_laws.specs.Laws.{EitherChildren, ChildrenAreMany};

/// The families of the children split the family of the node, in each way to branch.
pub fn children_part_families()
    ensures cover { ChildrenCover }
    ensures within { ChildrenAreWithin }
    ensures apart { ChildrenAreApart }
{}

/// If a node is branched at a unit, the unit is taken in at the one child and left out at the
/// other.
pub fn children_at_a_unit()
    ensures { EitherChildren }
{}

/// If there is something to decide, a node has two children or more.
pub fn children_are_many()
    ensures { ChildrenAreMany }
{}
