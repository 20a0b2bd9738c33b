//! What the first lines of a claim and of a tail say.
use branch_tree::UnitSet;

/// The first line of a claim.
#[derive(Clone, Copy)]
pub enum Opening {
    Network(UnitSet),
    Infeasible,
    Unknown,
}

/// The first line of a tail.
#[derive(Clone, Copy)]
pub enum TailOpening {
    Whole,
    Spent { next: u32, options: u128 },
    Past { node: u32 },
}
