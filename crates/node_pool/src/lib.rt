//! A tree of nodes with values and payloads, and its open leaves in rising order of value.
//!
//! This is what a best-first search keeps. Nodes are numbered from 0 in the order of adding, and
//! none is ever removed. Contracts see a `Pool` as the parents, values and payloads of its nodes,
//! the list of its open leaves, and how many adds cannot fail.
//!
//! A new leaf comes before the leaves of the same value, and so does a leaf that is given another
//! value. So a search continues from the newest of equal leaves: down to a network, and not through
//! all of them in breadth. Only `open`, `reserve` and `add` take memory, and `add` only if no room
//! is left. `add`, `shut` and `raise` say how long they take; every call but these, `open` and
//! `reserve` takes constant time.
//!
//! - `pool`: `Pool` and its calls
//! - `tree`: the nodes by first child and next sibling
//! - `leaves`: the open leaves as one linked list
//! - `index`: a search tree of the open leaves, which leads to a place in that list
#![tactic(auto)]

mod index;
mod leaves;
pub mod pool;
mod tree;

pub use exact_numbers::{Mixed, compare_fractions};
pub use pool::Pool;
