//! The neutral extension of a node (Friedler, Tarjan, Huang and Fan 1996): the reductions that keep
//! its family.
//!
//! [`extend`] takes the steps of a node, each in its turn, until none is possible. It says how it
//! ended: at a dead material, at an exclusion that clashes, at a material that has to be decided,
//! or at a decided node. The node that it gives is sound and has the family of the first.
//! [`extend_with`] does the same over [`Makers`], the makers of each material as linked lists,
//! which it leaves as they were. Only [`Makers::open`] and the vector of steps take memory. After
//! the first look at the whole graph, a step looks only at the materials of the units that it takes
//! in or leaves out.
//!
//! Modules: `end` (how an extension ends), `makers`, `lead` (makers led from node to node), `sets`
//! (a node's units), `intake` (what the units taken in need, use, make and exclude), `scarce`
//! (materials of which no maker is left, or one), `open_leaf` (a node with these), `materials` and
//! `units` (what a step or an end is about), `turn` (the next step), `extension`.
#![tactic(auto)]

mod end;
mod extension;
mod intake;
mod lead;
mod makers;
mod materials;
mod open_leaf;
mod scarce;
mod sets;
mod turn;
mod units;

pub use end::{Extended, Stop};
pub use extension::{extend, extend_with};
pub use makers::Makers;
pub use pgraph::{Graph, Node, UnitSet};
