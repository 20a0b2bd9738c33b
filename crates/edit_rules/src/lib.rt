//! Edits: when a problem takes one, what it does, how it is undone, and the text of scripts.
//!
//! The definitions are in `specs/`. `Edit` has the sixteen edits and the scripts that they form,
//! and `Formed` says when an edit is good whatever the problem. `Place` and `Numbering` have names
//! by place, and the places that an insertion or a removal moves. `Effect` has the problem after an
//! edit, `Fault` why a problem does not take one, and `Inverse` the edits back. `Script` has edits
//! one after another, the first fault among them, and the edits that lead back. `Migration` goes
//! from yearly costs to investment costs.
//!
//! The text of a script has the format PNS_edits_v1. `Line` has its lines, tokens and first words,
//! and `Term` the sides of a new unit. `ScriptFault` says what is wrong with a token, and which
//! fault of a line is reported. `read_script` of `Read` gives a script, or the first fault of form
//! with its line. `Printed` has the text of a script (`script_text`), and `Meaning` the first fault
//! of a script that a problem does not take. `proofs/` reads and prints small scripts by
//! computation.
#![tactic(auto)]

pub use text_rules::{Section, TextKind, valid_is_well_formed};

/// A kind of fault of an edit script. The variants are in the order of their numbers, 1 to 16.
/// First the whole script is searched for faults of form, 1 to 8 and 16; faults of meaning are
/// found as the script is applied. Of the faults at one line the one with the least number of its
/// group is reported.
#[derive(Clone, Copy, Debug, PartialEq, Eq)]
pub enum EditKind {
    /// The first line is not `file_type=PNS_edits_v1`, or is missing.
    FileType,
    /// A line that has none of the sixteen forms, as far as its first word, the number of its
    /// tokens, kind words, `:`, `=>` and `+` go.
    BadLine,
    /// A text in the place of a name that is not a name.
    BadName,
    /// A text in the place of an amount, of a place or of the years that is not one.
    BadNumber,
    /// An amount that is not a whole number of millionths.
    TooFine,
    /// An amount of more than 10^15 millionths, whatever its sign.
    TooLarge,
    /// A bound, a fixed cost, an investment fixed cost or a rate that is below 0.
    Sign,
    /// A rate of 0, a material twice on one side or on both sides of a unit, or an empty side.
    BadTerms,
    /// A name that is not in the problem. A fault of meaning.
    UnknownName,
    /// A new name that a material, unit or exclusion of the same sort already has. A fault of
    /// meaning.
    DoubleName,
    /// A place above the number of materials, units or exclusions. A fault of meaning.
    BadPlace,
    /// A lower bound above its upper bound. A fault of meaning.
    LowAboveHigh,
    /// A material is removed that a unit has, or a unit that an exclusion names. A fault of
    /// meaning.
    InUse,
    /// No material would be a product. A fault of meaning.
    NoProduct,
    /// More than 256 materials, 128 units or 64 exclusions. A fault of meaning.
    TooMany,
    /// A unit twice in one exclusion.
    BadMembers,
}

/// The first word of a line of a script.
#[derive(Clone, Copy, Debug, PartialEq, Eq)]
pub enum Word {
    Price,
    Bounds,
    Kind,
    Capacity,
    Fix,
    Proportional,
    RenameMaterial,
    RenameUnit,
    AddMaterial,
    RemoveMaterial,
    AddUnit,
    RemoveUnit,
    Exclude,
    Unexclude,
    Investment,
    Payout,
}
