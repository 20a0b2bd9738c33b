//! Calls of a search in parts.
ghost use Rattle.call_laws.specs.Parts.{MergeTakesPart};

use studio::{
    claim_has_one_fault, open_leaves_decide, open_leaves_stand, parts_are_read_once,
    tree_has_one_fault, valid_is_proper, valid_is_well_formed,
};

/// `merge` takes what `part` prints for a leaf of `split`. The text of `part` is kept as PART, and
/// the problem file stays the same. Or `merge` says that the text is too long.
pub fn merge_takes_part()
    ensures { MergeTakesPart }
{
    claim_has_one_fault();
    open_leaves_decide();
    open_leaves_stand();
    parts_are_read_once();
    tree_has_one_fault();
    valid_is_proper();
    valid_is_well_formed();
}
