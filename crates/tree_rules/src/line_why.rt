/// Why a line at the head of a branch tree is refused: the cause of the first of its conditions
/// that fails.
#[derive(Clone, Copy, Debug, PartialEq, Eq)]
pub enum LineWhy {
    /// A step is not possible at its place.
    Step,
    /// The unit is left out, or has to be free and is not; or the size is not between those that it
    /// may have. Or the material is raw, or no unit that may stay makes or uses it; or the amount
    /// is not from 0 to 10^18 and below what is known of its use; or the use is worth less than 0.
    Fact,
    /// The unit earns by its size, or a material does not bear less of it.
    Trim,
    /// A set of units is not one of free units of which each structure of the node has one, or its
    /// weight is below 0.
    Cover,
    /// The scale is below 0, or it counts a cost and none is claimed; the multipliers are not one
    /// for each row; or the charge does not reach what is claimed.
    Bound,
    /// A number that is formed for the charge overflows.
    Sum,
}
