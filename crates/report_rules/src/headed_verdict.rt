use rank_rules::{LineWhy, Why};

/// What a branch tree with a head proves of its claim.
#[derive(Clone, Copy, Debug, PartialEq, Eq)]
pub enum HeadedVerdict {
    /// All of it.
    Proved,
    /// Nothing: of the lines of the head, counted from 0, `line` is the first that fails.
    LineFails { line: usize, why: LineWhy },
    /// Nothing: the head passes, and `node` is the first node in preorder, counted from 0, that
    /// fails.
    NodeFails { node: u32, why: Why },
}
