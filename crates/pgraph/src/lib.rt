//! Broken axioms, needed materials, options, clashes and rivals of a P-graph are exact.
//!
//! [`Graph::of`] reads a problem once: which unit uses and makes which material, which materials
//! are raw and which are products, and which units exclude each other. Contracts see a [`Graph`]
//! through `shape` (specs/Tables), which is the shape of the problem; so each law of `pns_rules` is
//! one of graphs. Sets of units and materials are masks. [`Graph::judge`] gives the first axiom
//! that a unit set breaks and the least place at which it does. A [`Site`] is a problem with its
//! graph, for calls that read both.
//!
//! A [`Cover`] is a set of units of which each structure of a node has one, with the weight that a
//! charge of the node gives it. [`Covers`] are those of one charge. Contracts see them in the words
//! of `flow_rules`.
//!
//! Only [`Graph::of`] takes memory.
//!
//! Modules: `arcs` (arcs from either end), `tables` (what is read of a problem), `graph` (building
//! and reading), `site`, `paths` (the units that lead to a product), `verdict` (the axioms),
//! `exclusions` (clashes and rivals), `options` (the makers among which a node may choose), `cover`
//! and `covers`, and the public `laws` (steps, ends and children of a graph's nodes).
#![tactic(auto)]

mod arcs;
mod cover;
mod covers;
mod exclusions;
mod graph;
pub mod laws;
mod options;
mod paths;
mod site;
mod tables;
mod verdict;

pub use cover::Cover;
pub use covers::Covers;
pub use flow_rules::{
    Column, FlowStep, Place, Verdict, listing_exists, refutation, relaxed_duality, sums_are_last,
    valid_is_proper, weak_duality,
};
pub use graph::Graph;
pub use pns_problem::{
    Exclusion, Kind, Material, OperatingUnit, Parts, Problem, Term, amount_text, generate,
};
pub use site::Site;
pub use unit_sets::{MatSet, Node, Step, UnitSet};
