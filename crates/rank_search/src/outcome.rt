//! What a search for the best networks finds.
use rank_check::RankText;

/// What a search for the best networks finds.
#[derive(Drop)]
pub enum Ranked {
    /// The best networks, which the tree proves.
    Whole(RankText),
    /// The budget is spent: the leaf of the tail would be branched next, and has too many options.
    Spent(RankText),
    /// A number overflows at the open leaf of the tail.
    Past(RankText),
    /// There is no memory.
    Memory,
}
