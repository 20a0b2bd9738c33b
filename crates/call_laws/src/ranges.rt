//! `stable` agrees with `edit` and `solve`.
ghost use Rattle.call_laws.specs.Ranges.{BestIsClaimed, RangesAreSolved, SettingsSetSpots};
ghost use Rattle.call_laws.specs.Ranges.{ValuesAreEdited};

use studio::{canonical_reads, printed_scripts_read, valued_is_valid};

/// An edit to a value puts the value in the spot. A problem takes the edit of a named price or cost
/// to a value within its limits.
pub fn settings_set_spots()
    ensures { SettingsSetSpots }
{}

/// `edit` to a value prints the problem with it in the spot. The script has this one edit, and the
/// text is canonical.
pub fn values_are_edited()
    ensures { ValuesAreEdited }
{
    settings_set_spots();
    printed_scripts_read();
}

/// A proof claims what a network costs that is best. The network is optimal with a value in the
/// spot, and the proof is one of the problem with this value.
pub fn best_is_claimed()
    ensures { BestIsClaimed }
{}

/// `edit` and `solve` confirm each value in the range of `stable`, and one step beyond. In the
/// range what `solve` prints after the edit costs what the network of the claim costs there. One
/// step outside it costs what the network does that `stable` prints for this side.
pub fn ranges_are_solved()
    ensures { RangesAreSolved }
{
    values_are_edited();
    best_is_claimed();
    valued_is_valid();
    canonical_reads();
}
