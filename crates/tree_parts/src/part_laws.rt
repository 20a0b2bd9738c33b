//! The laws. Each function does nothing when it runs; a call gives a proof its law.
ghost use Rattle.tree_parts.specs.PartLaws.{SpelledPartsRead, ReadPartsAreSpelled};
ghost use Rattle.tree_parts.specs.PartLaws.{PartsAreReadOnce};

use tree_text_laws::{rests_are_read, spelled_texts_read, valid_is_well_formed};

/// The text of a part that fits a valid problem reads as the part.
pub fn spelled_parts_read()
    ensures { SpelledPartsRead }
{
    rests_are_read();
    spelled_texts_read();
}

/// A text without a fault is the one text of the part that it stands for, which fits the problem.
pub fn read_parts_are_spelled()
    ensures { ReadPartsAreSpelled }
{
    rests_are_read();
}

/// A text stands for one part, or has one first fault.
pub fn parts_are_read_once()
    ensures { PartsAreReadOnce }
{
    valid_is_well_formed();
}
