//! The laws. Each function does nothing when it runs; a call gives a proof its law.
ghost use Rattle.tree_text_laws.specs.Laws.{SpelledTextsRead, ReadTextsAreSpelled, TextsTell};
ghost use Rattle.tree_text_laws.specs.Laws.{NetworksAreTaken, ClaimsAreTaken, EndsAreTaken};
ghost use Rattle.tree_text_laws.specs.Laws.{HeadsAreTaken, TreesAreTaken, SpelledHeadedTextsRead};
ghost use Rattle.tree_text_laws.specs.Laws.{ReadHeadedTextsAreSpelled, PlainTextsAreHeaded};
ghost use Rattle.tree_text_laws.specs.Laws.{HeadedRestsAreRead};
ghost use Rattle.tree_text_laws.specs.Laws.{TailsAreRead, RestsAreRead, SpelledHeadsRead};
ghost use Rattle.tree_text_laws.specs.Laws.{ReadHeadsAreSpelled};

use tree_text_rules::valid_is_well_formed;

/// The text of a claim, a tree and a tail that fit a valid problem reads as them.
pub fn spelled_texts_read()
    ensures { SpelledTextsRead }
{
    valid_is_well_formed();
}

/// A text without a fault is the one text of what it stands for, which fits the problem.
pub fn read_texts_are_spelled()
    ensures { ReadTextsAreSpelled }
{
    valid_is_well_formed();
}

/// No two that fit have one text.
pub fn texts_tell()
    ensures { TextsTell }
{
    spelled_texts_read();
}

/// A network is taken from its three lines, and from no others.
pub fn networks_are_taken()
    ensures { NetworksAreTaken }
{
    valid_is_well_formed();
}

/// A claim is taken from its lines, and from no others.
pub fn claims_are_taken()
    ensures { ClaimsAreTaken }
{
    valid_is_well_formed();
}

/// An end is taken from its line, and from no other.
pub fn ends_are_taken()
    ensures { EndsAreTaken }
{
    valid_is_well_formed();
}

/// The head of a tree is taken from its lines, and from no others.
pub fn heads_are_taken()
    ensures { HeadsAreTaken }
{
    valid_is_well_formed();
}

/// A tree is taken from its lines, and from no others.
pub fn trees_are_taken()
    ensures { TreesAreTaken }
{
    valid_is_well_formed();
}

/// A tail is read from its lines, with which the text ends, and from no others.
pub fn tails_are_read()
    ensures { TailsAreRead }
{
    valid_is_well_formed();
}

/// A claim, a tree and a tail are read from their lines, one after another, and from no others.
pub fn rests_are_read()
    ensures { RestsAreRead }
{
    valid_is_well_formed();
}

/// A node's line and its steps are read back, if no step follows them.
pub fn spelled_heads_read()
    ensures { SpelledHeadsRead }
{
    valid_is_well_formed();
}

/// What is read as a node's line and steps is the lines of these, and no step follows them.
pub fn read_heads_are_spelled()
    ensures { ReadHeadsAreSpelled }
{
    valid_is_well_formed();
}

/// The text of a claim, a head, a tree and a tail that fit a valid problem reads as them.
pub fn spelled_headed_texts_read()
    ensures { SpelledHeadedTextsRead }
{
    valid_is_well_formed();
}

/// A text in which a head may come is, without a fault, the one text of what it stands for, which
/// fits the problem.
pub fn read_headed_texts_are_spelled()
    ensures { ReadHeadedTextsAreSpelled }
{
    valid_is_well_formed();
}

/// A text of a tree without a head stands for the same tree, with a head that has no lines.
pub fn plain_texts_are_headed()
    ensures { PlainTextsAreHeaded }
{
    read_texts_are_spelled();
    spelled_headed_texts_read();
}

/// A claim, a head, a tree and a tail are read from their lines, and from no others.
pub fn headed_rests_are_read()
    ensures { HeadedRestsAreRead }
{
    valid_is_well_formed();
}
