ghost use Rattle.tree_laws.specs.Laws.{AcceptedIsLeast, AcceptedIsOptimal, AcceptedHasFlows};

/// Each clash-free solution structure of the start costs at least what an accepted tree claims,
/// with any flows. If the claim is that no network has flows, it has none.
pub fn accepted_is_least()
    ensures { AcceptedIsLeast }
{}

/// From a start at which nothing is decided, this is true of each clash-free solution structure of
/// the problem.
pub fn accepted_is_optimal()
    ensures { AcceptedIsOptimal }
{}

/// What an accepted tree claims is a clash-free solution structure with flows of the claimed cost.
pub fn accepted_has_flows()
    ensures { AcceptedHasFlows }
{}
