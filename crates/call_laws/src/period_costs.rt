//! `expand` and `solve` certify `periods`.
ghost use Rattle.call_laws.specs.Periods.{ExpandedIsRead, PeriodsAreCertified, ReadIsPlan};

use crate::costs::one_cost;
use studio::{canonical_reads, expanded_is_valid, valid_is_well_formed};

/// What is read of a plan is a plan for the problem.
pub fn read_is_plan()
    ensures { ReadIsPlan }
{
    valid_is_well_formed();
}

/// What `expand` prints reads as its problem. What `solve` says of a file that keeps the text, it
/// says of the expanded problem, or that the file is too long.
pub fn expanded_is_read()
    ensures { ExpandedIsRead }
{
    read_is_plan();
    expanded_is_valid();
    canonical_reads();
}

/// `solve` of what `expand` prints has the cost of `periods`.
pub fn periods_are_certified()
    ensures { PeriodsAreCertified }
{
    expanded_is_read();
    one_cost();
}
