//! The laws over calls, on shelves that keep the files.
ghost use Rattle.call_laws.specs.PeriodCalls.{CheckCertifiesPeriods};
ghost use Rattle.call_laws.specs.RangeCalls.{StableAgrees};

use crate::period_costs::periods_are_certified;
use crate::ranges::ranges_are_solved;
use studio::check_accepts_solved;

/// Calls of `edit` and `solve` confirm each value in the range of `stable`. What they put out costs
/// what the network of the claim costs at that value.
pub fn stable_agrees()
    ensures { StableAgrees }
{
    ranges_are_solved();
}

/// Calls of `expand`, `solve` and `check` confirm `periods`. What `expand` and `solve` put out has
/// the cost of what `periods` puts out, and `check` accepts it.
pub fn check_certifies_periods()
    ensures { CheckCertifiesPeriods }
{
    periods_are_certified();
    check_accepts_solved();
}
