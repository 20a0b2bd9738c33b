ghost use Rattle.tree_laws.specs.Laws.{LeavesCover, PartialIsLeast, LowerBoundHolds};
ghost use Rattle.tree_laws.specs.Laws.{LowerBoundOfAll, LeavesAreApart, LeavesAreDifferent};
ghost use Rattle.tree_laws.specs.Laws.{AcceptedIsPartial, PartialIsAccepted};

/// The families of the leaves cover that of the start, and no solution structure is in two. If no
/// unit is both taken in and left out at the start, no two leaves are at one node.
pub fn leaves_cover()
    ensures cover { LeavesCover }
    ensures apart { LeavesAreApart }
    ensures different { LeavesAreDifferent }
{}

/// Each clash-free solution structure of the start that no open leaf has costs at least what a
/// partial tree claims, with any flows. If no network is claimed, it has no flows.
pub fn partial_is_least()
    ensures { PartialIsLeast }
{}

/// No clash-free solution structure of the start has flows that cost less than the lower bound of a
/// partial tree, if it has one. From a start at which nothing is decided, this holds of each
/// clash-free solution structure of the problem.
pub fn lower_bound_holds()
    ensures start { LowerBoundHolds }
    ensures all { LowerBoundOfAll }
{}

/// A partial tree that claims something is accepted exactly if no leaf is open.
pub fn open_leaves_decide()
    ensures whole { AcceptedIsPartial }
    ensures closed { PartialIsAccepted }
{}
