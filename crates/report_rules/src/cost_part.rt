/// Which part of a cost counts.
#[derive(Clone, Copy, Debug, PartialEq, Eq)]
pub enum CostPart {
    /// All of it.
    All,
    /// The cost if it is above 0.
    Costs,
    /// The cost if it is below 0.
    Incomes,
}
