/// A number of a problem that may vary while all others stay the same.
#[derive(Clone, Copy, Debug, PartialEq, Eq)]
pub enum Spot {
    /// The price of the material of this number.
    Price(u32),
    /// The fixed cost of the unit of this number.
    Fix(u32),
    /// The proportional cost of the unit of this number.
    Proportional(u32),
}

/// What is varied.
#[derive(Clone, Copy, Debug, PartialEq, Eq)]
pub enum SpotKind {
    Price,
    Fix,
    Proportional,
}
