//! Sets of units and of materials as masks, exact as rising lists.
//!
//! Units are below 128 and materials below 256; sets are copied freely. Contracts see a [`UnitSet`]
//! or a [`MatSet`] as the rising list of its numbers. `with`, `without`, `has`, `union`, `meet`,
//! `minus`, `within`, `count` and `least` are those of the lists, and `take_least` takes the first
//! number of the list. Two sets are equal exactly if their lists are. `first_option` and
//! `next_option` go through the sets between a base and the base with free units in numeric order.
//! The nodes and steps of a search are made of such sets.
//!
//! No call refuses, and none takes memory.
#![tactic(auto)]

mod mat_set;
mod node;
mod numbers;
mod step;
mod unit_set;

pub use mat_set::MatSet;
pub use node::Node;
pub use numbers::{MatNumbers, UnitNumbers};
pub use step::Step;
pub use unit_set::UnitSet;
