//! The laws. Each function does nothing when it runs; a call gives a proof its law.
ghost use Rattle.rank_text.specs.Laws.{SpelledRanksRead, ReadRanksAreSpelled};

use tree_text_laws::{networks_are_taken, tails_are_read, trees_are_taken, valid_is_well_formed};

/// The text of a ranking that fits a valid problem reads as the ranking.
pub fn spelled_ranks_read()
    ensures { SpelledRanksRead }
{
    valid_is_well_formed();
    networks_are_taken();
    trees_are_taken();
    tails_are_read();
}

/// A text without a fault is the one text of the ranking that it stands for, which fits the
/// problem.
pub fn read_ranks_are_spelled()
    ensures { ReadRanksAreSpelled }
{
    valid_is_well_formed();
    networks_are_taken();
    trees_are_taken();
    tails_are_read();
}
