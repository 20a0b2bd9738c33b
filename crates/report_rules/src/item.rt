//! The items that lines of a plant are of.

/// What a line of a plant is of, by its number in the problem.
#[derive(Clone, Copy, Debug, PartialEq, Eq)]
pub enum Item {
    /// A material.
    Material(u32),
    /// A unit, at its own line.
    Unit(u32),
    /// The rates of a unit that has a line of its own too.
    Rates(u32),
    /// A unit that has a line of rates alone, at that line.
    BareUnit(u32),
    /// An exclusion.
    Exclusion(u32),
}
