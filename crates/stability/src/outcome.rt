//! What the range of a spot is, and why there is none.
use solver::{Columns, Network, Tree};
use stability_laws::Place;

/// The values of a spot at which a network is optimal, in millionths: each from `from` to `to`. One
/// step below `from` the network `below` is cheaper, and one step above `to` the network `above`. A
/// network is missing if that end is the limit of the values.
#[derive(Drop)]
pub struct Range {
    pub from: i64,
    pub to: i64,
    pub below: Option<Network>,
    pub above: Option<Network>,
}

/// Why there is no range.
#[derive(Drop)]
pub enum RangeFault {
    /// This network of least cost is cheaper now.
    NotBest(Network),
    /// The budget is spent in the search at this value, as with `Found::Spent`.
    Spent {
        value: i64,
        best: Option<Network>,
        tree: Tree,
        next: u32,
        options: u128,
    },
    /// A number overflows in the search at this value, as with `Found::Past`.
    Past {
        value: i64,
        best: Option<Network>,
        tree: Tree,
        node: u32,
        nonbasic: Columns,
        place: Place,
    },
    /// A step of the network's cost overflows at this value.
    PastCost {
        value: i64,
        at: u32,
    },
    /// There is no memory.
    Memory,
}
