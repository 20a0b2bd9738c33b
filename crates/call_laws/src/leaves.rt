//! The open leaves of a search whose budget is spent.
ghost use Rattle.call_laws.specs.Leaves.{SpentLeavesAreNodes};

use studio::{open_leaves_stand, valid_is_proper, valid_is_well_formed};

/// `part` never answers `bad node` to an open leaf of `solve`. The leaf is one that `split` listed
/// of what `solve` printed with status 5.
pub fn spent_leaves_are_nodes()
    ensures { SpentLeavesAreNodes }
{
    open_leaves_stand();
    valid_is_proper();
    valid_is_well_formed();
}
