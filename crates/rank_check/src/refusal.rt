use rank_laws::RankWhy;

/// Why a ranked tree is refused.
#[derive(Clone, Copy, Debug, PartialEq, Eq)]
pub enum RankRefusal {
    /// There was no memory for the walk. Nothing is said of the tree.
    Memory,
    /// Of the networks, counted from 1, this is the first that fails.
    Network { number: u32, why: RankWhy },
    /// The networks pass. Of the nodes in preorder, counted from 0, this is the first that fails.
    Node { node: u32, why: RankWhy },
}
