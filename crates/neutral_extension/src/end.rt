//! How an extension ends, and what it gives.
use pgraph::{Node, Step};

/// How an extension ends.
#[derive(Clone, Copy, Debug, PartialEq, Eq)]
pub enum Stop {
    /// No step is possible, and every maker of a needed material is taken in or left out. The units
    /// taken in are a clash-free solution structure, and no unit is free.
    Decided,
    /// The least needed material without a maker that is not left out.
    Dead(u32),
    /// The least exclusion of which two units are taken in.
    Clash(u32),
    /// The least needed material with a maker that is neither taken in nor left out.
    Branch(u32),
}

/// A node after its steps.
#[derive(Drop)]
pub struct Extended {
    /// The node after all steps.
    pub node: Node,
    /// The steps in the order in which they were taken.
    pub steps: Vec<Step>,
    /// Why no further step comes.
    pub end: Stop,
}
