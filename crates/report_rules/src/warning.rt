//! The kinds of warnings.

/// What is odd about an item of a plant. The warnings of one line are printed in the order of the
/// variants.
#[derive(Clone, Copy, Debug, PartialEq, Eq)]
pub enum Warning {
    /// A unit outside the maximal structure.
    NoNetwork,
    /// A material of no unit of the maximal structure.
    UnusedMaterial,
    /// A product whose lower bound is 0.
    NoDemand,
    /// A unit with a fixed cost or an investment cost, and with the capacity 1000000000.
    DefaultCapacity,
    /// A unit without any cost.
    Free,
    /// A raw material whose price is 0.
    FreeRaw,
    /// A product or an intermediate whose price is above 0, with the upper bound 1000000000.
    NoLimit,
    /// A unit that an earlier unit is like in all but the name.
    Twins,
    /// A unit with a rate of more than three decimals.
    FineRates,
    /// An exclusion with at most one unit in the maximal structure.
    Alone,
}
