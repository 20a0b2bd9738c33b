ghost use Rattle.search_tree.specs.TurnLaws.{KeptIsLean, WholeIsAccepted, KeptIsSpent};
ghost use Rattle.search_tree.specs.TurnLaws.{OpenCellsStand};

/// The tree of a search is lean between two turns.
pub fn kept_is_lean()
    ensures { KeptIsLean }
{}

/// If no leaf is open, and something is claimed that passes, the tree is accepted.
pub fn whole_is_accepted()
    ensures { WholeIsAccepted }
{}

/// If the children of a least open leaf are too many, the budget is spent.
pub fn kept_is_spent()
    ensures { KeptIsSpent }
{}

/// An open leaf is open at its place in the tree.
pub fn open_cells_stand()
    ensures { OpenCellsStand }
{}
