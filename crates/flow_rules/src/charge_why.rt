/// Why a leaf that charges a node is refused: the cause of the first of its conditions that fails.
#[derive(Clone, Copy, Debug, PartialEq, Eq)]
pub enum ChargeWhy {
    /// The scale is below 0, or it counts a cost and none is claimed; the multipliers are not one
    /// for each row; or the charge does not reach what is claimed.
    Bound,
    /// A set of units is not one of free units of which each structure of the node has one, or its
    /// weight is below 0.
    Cover,
    /// A number that is formed for the charge is out of range.
    Sum,
}
