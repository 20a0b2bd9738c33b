//! What a search finds, and what a turn of it answers.
use node_evaluation::{Columns, Network, Place, Tree};

/// What a search finds.
#[derive(Drop)]
pub enum Found {
    /// No network is cheaper, which the tree proves.
    Solved {
        network: Network,
        tree: Tree,
    },
    /// No network has flows, which the tree proves.
    Infeasible {
        tree: Tree,
    },
    /// The budget is spent: the leaf `next` would be branched next, and has too many options.
    Spent {
        best: Option<Network>,
        tree: Tree,
        next: u32,
        options: u128,
    },
    /// A number overflows at an open leaf.
    Past {
        best: Option<Network>,
        tree: Tree,
        node: u32,
        nonbasic: Columns,
        place: Place,
    },
    /// There is no memory.
    Memory,
}

/// What a turn of a search answers.
#[derive(Drop)]
pub enum Turn {
    /// The search goes on, with more nodes than before.
    More,
    /// The search is at its end. It never holds `Memory`.
    Ended(Found),
    /// There is no memory. All is as before, and the turn can be taken again.
    Memory,
}
