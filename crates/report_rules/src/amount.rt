/// A number of a unit of a network, for one year.
#[derive(Clone, Copy, Debug, PartialEq, Eq)]
pub enum UnitAmount {
    /// The fixed cost.
    Fixed,
    /// The proportional cost at its size.
    Proportional,
    /// The yearly part of the investment.
    Investment,
    /// All three costs.
    Total,
    /// The whole investment, paid once.
    Once,
    /// What it makes of a material.
    Made(u32),
    /// What it uses of a material.
    Used(u32),
}
