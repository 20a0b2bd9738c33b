use tree_rules::Refusal;

/// Why a part is not put back.
#[derive(Clone, Copy, Debug, PartialEq, Eq)]
pub enum MergeFault {
    /// The tree is refused. Out of memory is no such refusal.
    Tree(Refusal),
    /// The tree is not refused, but the part is.
    Part(Refusal),
    /// Neither is refused, and no open leaf of the tree has the part's node.
    NoLeaf,
    /// There was no memory.
    Memory,
}
