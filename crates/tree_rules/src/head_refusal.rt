use crate::Why;
use crate::line_why::LineWhy;

/// Why a claim with a head and a tree is refused.
#[derive(Clone, Copy, Debug, PartialEq, Eq)]
pub enum HeadRefusal {
    /// There was no memory to walk the tree. Nothing is said of the head and the tree.
    Memory,
    /// The claim fails.
    Claim(Why),
    /// The claim passes. Of the lines of the head, counted from 0, this is the first that fails.
    Line { line: usize, why: LineWhy },
    /// The claim and the head pass. Of the nodes in preorder, counted from 0, this is the first
    /// that fails.
    Node { node: u32, why: Why },
}
