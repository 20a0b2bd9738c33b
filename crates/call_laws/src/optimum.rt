//! `list`, `flows`, `solve` and `rank` agree on the optimum of a plant.
ghost use Rattle.call_laws.specs.OptimumLaws.{OneCostIsTold, ListedCostEnough};
ghost use Rattle.call_laws.specs.OptimumLaws.{OptimumIsListed, FirstIsOptimal};
ghost use Rattle.call_laws.specs.OptimumCalls.{CallsAgree};

use studio::valid_is_well_formed;

/// Lines give one cost, if its numbers are in range.
pub fn one_cost_is_told()
    ensures { OneCostIsTold }
{}

/// `flows` of a listed structure costs no less than `solve`. If `solve` says that no network has
/// flows, `flows` says so too.
pub fn listed_cost_enough()
    ensures { ListedCostEnough }
{
    valid_is_well_formed();
}

/// In a whole list one structure costs just what `solve` says. The network that `solve` prints, if
/// any, has a line in the list, and `flows` of its units prints the same cost.
pub fn optimum_is_listed()
    ensures { OptimumIsListed }
{
    valid_is_well_formed();
}

/// The first network of `rank` costs what `solve` says. If `solve` says that no network has flows,
/// `rank` prints none.
pub fn first_is_optimal()
    ensures { FirstIsOptimal }
{}

/// Calls of `list`, `flows` and `solve` agree. For the units of a line that `list` put out, `flows`
/// prints a cost that is at least that of `solve`.
pub fn calls_agree()
    ensures { CallsAgree }
{
    listed_cost_enough();
}
