//! Plans for several periods: their text, the expanded problem, and designs of least cost.
//!
//! A plant is built once and runs in each period at prices and bounds of its own. The definitions
//! are in `specs/`. `Plan` states what a plan is. Its text has the format PNS_plan_v1: `Line` has
//! words and faults, `Read` the lines of a text, or its first fault of form, and `Meaning` the plan
//! of those lines. `Expanded` is the ordinary problem into which a plant and its plan are expanded.
//! `proofs/` reads small plans and expands a small plant by computation.
//!
//! `Design` says what a design of the plant over its periods is and costs. It mentions only the
//! plant and its periods, and not the expanded problem. `Folded` has a design as lists, and the
//! design that a network of the expanded problem stands for. `Least` says when no design of the
//! plant over its periods costs less.
#![tactic(auto)]

pub use edit_rules::valid_is_well_formed;

/// A kind of fault of a plan. The variants are in the order of their numbers, 1 to 12. The whole
/// text is first searched for faults of form, 1 to 8; faults of meaning count only if there is none
/// of form. The first line with a fault of its group is reported, and of the faults at that line
/// the one with the least number.
#[derive(Clone, Copy, Debug, PartialEq, Eq)]
pub enum PlanKind {
    /// The first line is not `file_type=PNS_plan_v1`, or is missing.
    FileType,
    /// A line that has none of the three forms, as far as its first word and the number of its
    /// tokens go, or that changes a material before the first period begins.
    BadLine,
    /// A text in the place of a name that is not a name.
    BadName,
    /// A text in the place of an amount that is not one.
    BadNumber,
    /// An amount that is not a whole number of millionths.
    TooFine,
    /// An amount of more than 10^15 millionths, whatever its sign.
    TooLarge,
    /// A bound below 0.
    Sign,
    /// A second price or second bounds of a material in one period.
    DoubleLine,
    /// A name that no material of the problem has. A fault of meaning.
    UnknownName,
    /// A lower bound above its upper bound. A fault of meaning.
    LowAboveHigh,
    /// No period; this is reported after the last line. A fault of meaning.
    NoPeriod,
    /// More than 128 units or 256 materials in the expanded problem; this is reported after the
    /// last line. A fault of meaning.
    TooWide,
}

/// The first word of a line of a plan.
#[derive(Clone, Copy, Debug, PartialEq, Eq)]
pub enum PlanWord {
    Period,
    Price,
    Bounds,
}
