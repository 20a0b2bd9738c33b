ghost use Rattle.tree_parts.specs.Laws.{OpenLeavesStand, GraftIsTree, GraftIsPartial};
ghost use Rattle.tree_parts.specs.Order.{OthersStayOpen, EitherOrder, AnyOrder, EachOrder};

/// The list of the open leaves has just these, each with its number and its node.
pub fn open_leaves_stand()
    ensures { OpenLeavesStand }
{}

/// A part for the node of an open leaf, in the place of the leaf, makes one whole tree. If both
/// prove their claims but for their open leaves, it proves the claim of both but for its own.
pub fn grafts_are_partial()
    ensures tree { GraftIsTree }
    ensures partial { GraftIsPartial }
{}

/// When a part is put back, the other open leaves of the tree stay open, each at its node.
pub fn others_stay_open()
    ensures { OthersStayOpen }
{}

/// Parts that start at different nodes make one tree, in whatever order they are put back, and what
/// is claimed of it costs the same. If each is for an open leaf of the tree itself, and one order
/// of them can be put back, so can each other order.
pub fn order_is_free()
    ensures two { EitherOrder }
    ensures many { AnyOrder }
    ensures each { EachOrder }
{}
