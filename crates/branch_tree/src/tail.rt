//! At which node a search stopped, and why.
use crate::columns::Columns;
use tree_rules::Place;

/// At which node a search stopped, and why. Nodes are counted from 0 in preorder.
#[derive(Drop)]
pub enum Tail {
    /// It did not stop before its end.
    Whole,
    /// The node would have been branched next, into so many options, which are more than the budget
    /// has left.
    Spent {
        next: u32,
        options: u128,
    },
    /// A number of the node's program is out of range, at the basis that leaves these columns out.
    Past {
        node: u32,
        nonbasic: Columns,
        place: Place,
    },
}
