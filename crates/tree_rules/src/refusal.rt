use crate::why::Why;

/// Why a claim with its tree is refused.
#[derive(Clone, Copy, Debug, PartialEq, Eq)]
pub enum Refusal {
    /// There was no memory to walk the tree. Nothing is said of the tree.
    Memory,
    /// The claim fails.
    Claim(Why),
    /// The claim passes. Of the nodes in preorder, counted from 0, this is the first that fails.
    Node { node: u32, why: Why },
}
