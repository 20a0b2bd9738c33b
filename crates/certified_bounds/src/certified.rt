//! The answers for a node.
use branch_tree::{Multipliers, Network, Scaled};
use scaled_flows::Mixed;

/// The least cost of relaxed flows, and a bound of it with the multipliers over their scale that
/// prove it: all costs are in 10^-18 of the money unit times the payout period.
#[derive(Drop)]
pub struct LeastBound {
    pub value: Mixed,
    pub low: Mixed,
    pub scaled: Scaled,
}

/// Two costs between which the least cost of relaxed flows lies: multipliers over their scale prove
/// that none cost less than `low`, and some cost at most `reached`. All costs are in 10^-18 of the
/// money unit times the payout period.
#[derive(Drop)]
pub struct Between {
    pub low: Mixed,
    pub scaled: Scaled,
    pub reached: Mixed,
}

/// A cost that no relaxed flows undercut, and the multipliers over their scale that prove so. It is
/// in 10^-18 of the money unit times the payout period.
#[derive(Drop)]
pub struct LowBound {
    pub low: Mixed,
    pub scaled: Scaled,
    /// The basis that was guessed, in short numbers: nothing rests on it.
    pub basis: Vec<u16>,
}

/// The answer of a first look at a node.
#[derive(Drop)]
pub enum FirstBound {
    /// No relaxed flows of the node cost less, if it has any.
    AtLeast(LowBound),
    /// The node has no relaxed flows.
    Refuted(Multipliers),
    /// Nothing was found that passes a check.
    Nothing,
}

/// The answer for a node.
#[derive(Drop)]
pub enum Certified {
    /// The node has relaxed flows, the cheapest of this value.
    Least(LeastBound),
    /// All is decided at the node, and the network of its units costs just the value.
    Flows(LeastBound, Network),
    /// The node has no relaxed flows.
    Refuted(Multipliers),
    /// A number of a check overflowed, or it said no.
    Nothing,
}
