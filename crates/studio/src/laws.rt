//! Laws over what the commands print, and over calls one after another. Each is the contract of a
//! function that does nothing. A law over calls excepts that a read, an output or memory fails.
ghost use Rattle.structure_commands.specs.ListingLaws.{PartsJoin};
ghost use Rattle.studio.specs.SolveLaws.{SolvedIsAccepted};
ghost use Rattle.studio.specs.RankLaws.{RankedIsAccepted, AlternativesAreAccepted};
ghost use Rattle.studio.specs.Calls.{CheckAcceptsSolved, RankcheckAcceptsRanked};
ghost use Rattle.studio.specs.Calls.{RankcheckAcceptsAlternatives};
ghost use Rattle.studio.specs.Calls.{CheckAcceptsMerged, ListingsJoin};

use part_commands::{
    grafts_are_partial, network_has_one_fault, open_leaves_stand, plain_texts_are_headed,
    ranking_has_one_fault, read_parts_are_spelled, read_texts_are_spelled, spelled_texts_read,
};
use structure_commands::{
    claim_has_one_fault, empty_head_is_none, one_fault, open_leaves_decide, tree_has_one_fault_by,
    valid_is_well_formed,
};

/// A listing in parts is the listing at once. Each part begins after the last token of the part
/// before.
pub fn parts_join()
    ensures { PartsJoin }
{}

/// What `solve` prints with status 0 is accepted by `check` on the same problem, or is too long for
/// it.
pub fn solved_is_accepted()
    ensures { SolvedIsAccepted }
{
    claim_has_one_fault();
    one_fault();
    tree_has_one_fault_by();
    empty_head_is_none();
    plain_texts_are_headed();
}

/// What `rank` prints with status 0 is accepted by `rankcheck` on the same problem, or is too long
/// for it.
pub fn ranked_is_accepted()
    ensures { RankedIsAccepted }
{
    network_has_one_fault();
    ranking_has_one_fault();
}

/// What `alternatives` prints with status 0 is accepted by `rankcheck` on the same problem, or is
/// too long for it.
pub fn alternatives_are_accepted()
    ensures { AlternativesAreAccepted }
{
    network_has_one_fault();
    ranking_has_one_fault();
}

/// `check` accepts what a call of `solve` printed with 0. The text is kept as TREE, and the problem
/// file stays the same. Or `check` says that the text is too long.
pub fn check_accepts_solved()
    ensures { CheckAcceptsSolved }
{
    solved_is_accepted();
}

/// `rankcheck` accepts what a call of `rank` printed with 0. The text is kept as RANK, and the
/// problem file stays the same. Or `rankcheck` says that the text is too long.
pub fn rankcheck_accepts_ranked()
    ensures { RankcheckAcceptsRanked }
{
    ranked_is_accepted();
}

/// `rankcheck` accepts what a call of `alternatives` printed with 0. The text is kept as RANK, and
/// the problem file stays the same. Or `rankcheck` says that the text is too long.
pub fn rankcheck_accepts_alternatives()
    ensures { RankcheckAcceptsAlternatives }
{
    alternatives_are_accepted();
}

/// `check` accepts what `merge` printed, if `split` finds no open leaf in it. These are calls: the
/// text is kept as TREE, and the problem file stays the same.
pub fn check_accepts_merged()
    ensures { CheckAcceptsMerged }
{
    spelled_texts_read();
    read_texts_are_spelled();
    read_parts_are_spelled();
    grafts_are_partial();
    open_leaves_stand();
    open_leaves_decide();
    claim_has_one_fault();
    one_fault();
    tree_has_one_fault_by();
    empty_head_is_none();
    plain_texts_are_headed();
}

/// Two calls of `list`, the second after the last token of the first, print what one does. The text
/// of the second is put in the place of the line `more` of the first.
pub fn listings_join()
    ensures { ListingsJoin }
{
    parts_join();
    valid_is_well_formed();
}
