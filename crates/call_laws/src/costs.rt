//! The cost of the claim of a proof.
ghost use Rattle.call_laws.specs.Costs.{OneCost, SolvesAgree};

/// Two proofs of one problem claim one cost, or both that there is no network.
pub fn one_cost()
    ensures { OneCost }
{}

/// What `solve` prints of one problem with status 0 within two budgets claims networks of one cost,
/// or both times that no network has flows.
pub fn solves_agree()
    ensures { SolvesAgree }
{}
