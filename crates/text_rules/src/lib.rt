//! The text of a plant: its faults, problem and canonical text; the states of shelves and sinks.
//!
//! The format is PNS_problem_v1. `specs/` states it from the bytes up: `Blanks`, `Amount`
//! (numbers), `Line` (lines and sections), `Field` (names, items and sides of a line), `Term` (the
//! terms of a side), `Fault` (faults of form), `Value` (the problem, and faults of meaning),
//! `Printed` and `Canonical` (what is written). `read_text` of `Value` gives the problem of a text,
//! or the first fault with its line. `proofs/` reads small texts by computation, at least one for
//! each kind of fault.
//!
//! The whole text is first searched for a fault of form. Faults of meaning (`LowAboveHigh`,
//! `UnknownMaterial`, `NoRates`, `NoProduct`, `UnknownUnit`) count only if there is no fault of
//! form. In each group the fault of the first line is reported, and of the faults at one line the
//! first in the order of [`TextKind`].
//!
//! What the program knows of the world outside it is here too. A shelf holds files by name, and a
//! sink takes bytes; the state of each is one value (`State`). `Outside` says when a count of
//! faults has risen, what a read gives of a file, and what a sink has taken. The contracts of
//! `pns_io` and of the commands speak of a state before a call and after it.
#![tactic(auto)]

pub use problem_rules::valid_is_well_formed;

/// A kind of fault of a problem text. Of several kinds at one line the first in the order of the
/// variants is reported.
#[derive(Clone, Copy, Debug, PartialEq, Eq)]
pub enum TextKind {
    /// The first line is not `file_type=PNS_problem_v1`, or is missing.
    FileType,
    /// A name and a colon with nothing after it, but the name is not that of a section.
    UnknownSection,
    /// A header that came before.
    DoubleSection,
    /// A line that does not have the form of its section, as far as `:`, `,`, `=`, `=>`, `+` and
    /// the number of tokens in a term go.
    BadLine,
    /// A text in the place of a name that is not a name.
    BadName,
    /// A key that is not among the section's keys.
    UnknownKey,
    /// A key twice in one line or twice among the defaults; a second kind word of a material.
    DoubleKey,
    /// A value, or the first of two tokens of a term, that is not a number.
    BadNumber,
    /// A number that is not a whole number of millionths.
    TooFine,
    /// A number of more than 10^15 millionths, whatever its sign.
    TooLarge,
    /// A bound, a fixed cost, an investment fixed cost or a rate that is below 0, used or not.
    Negative,
    /// An item of a material without `=` that is not a kind word, or a value of `material_type`
    /// that is not one.
    UnknownKind,
    /// A rate of 0.
    ZeroRate,
    /// A material twice on one side of a rates line.
    DoubleTerm,
    /// A material on both sides of a rates line.
    BothSides,
    /// A side of a rates line without tokens.
    EmptySide,
    /// A line of a material whose name came before among the materials.
    DoubleMaterial,
    /// A line of an operating unit whose name came before in that section.
    DoubleUnit,
    /// A second rates line of a unit.
    DoubleRates,
    /// The line of the 257th material; the first line of an operating unit or of rates that begins
    /// with the 129th different unit name; the line of the 65th exclusion.
    TooMany,
    /// A material or unit whose lower bound is above its upper, with defaults filled in; if a unit
    /// has a rates line alone, at that line. A fault of meaning.
    LowAboveHigh,
    /// A rates line with a material that has no line. A fault of meaning.
    UnknownMaterial,
    /// A line of an operating unit that has no rates line. A fault of meaning.
    NoRates,
    /// No material is a product; the line is the number of lines plus 1. A fault of meaning.
    NoProduct,
    /// A line of an exclusion whose name came before among the exclusions.
    DoubleExclusion,
    /// A unit twice in one exclusion.
    DoubleMember,
    /// An exclusion with fewer than two units.
    FewMembers,
    /// An exclusion with a unit that the problem does not have. A fault of meaning.
    UnknownUnit,
    /// A `payout_period` among the defaults that is a number but not a whole number of years from 1
    /// to 100.
    BadPayout,
}

/// A section of a problem text.
#[derive(Clone, Copy, Debug, PartialEq, Eq)]
pub enum Section {
    /// The lines before the first header, which are skipped.
    Preamble,
    /// `measurement_units:`, whose lines are skipped.
    MeasurementUnits,
    /// `defaults:`, values for what the lines of materials and units leave out.
    Defaults,
    /// `materials:`, a line for each material.
    Materials,
    /// `operating_units:`, a line for each operating unit with values of its own.
    OperatingUnits,
    /// `material_to_operating_unit_flow_rates:`, a line for each operating unit with its inputs and
    /// outputs.
    Rates,
    /// `mutual_exclusions:`, a line for each set of units of which a network has at most one.
    Exclusions,
}
