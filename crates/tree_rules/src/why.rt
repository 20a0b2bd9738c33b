/// Why a claim or a node of a branch tree is refused. The first condition of a claim or node that
/// fails gives the cause. A sum fails directly before the comparison that it is formed for.
#[derive(Clone, Copy, Debug, PartialEq, Eq)]
pub enum Why {
    /// Nothing is claimed.
    Unknown,
    /// The units of the network of the claim break an axiom.
    Axiom,
    /// An exclusion has two units of the network of the claim.
    Exclusion,
    /// The sizes of the network of the claim are no flows for its units.
    Flows,
    /// The claimed cost is not that of the flows.
    Cost,
    /// A step is not possible at its place.
    Step,
    /// The material of a branch is not needed, or its unit is taken in or left out. Or the options
    /// of the children are not all that it has, in order.
    Options,
    /// The leaf is open.
    Open,
    /// The material is not needed, or has a maker that is not left out.
    Dead,
    /// The exclusion has no two units that are taken in.
    Clash,
    /// The multipliers are not one for each row, or do not refute the node.
    Refuted,
    /// No network is claimed, the scale is below 1, the multipliers are not one for each row, or
    /// the bound is below the claimed cost. A charge may also have the scale 0, and fails if it is
    /// not above 0 then.
    Bound,
    /// A set of units is not one of free units of which each structure of the node has one, or its
    /// weight is below 0.
    Cover,
    /// A number that is formed for a sum is out of range.
    Sum,
}
