//! One line of a head.
use crate::Scaled;
use pgraph::{Covers, Step};

/// A line at the head of a branch tree.
#[derive(Drop)]
pub enum HeadLine {
    /// A step that follows from what is known.
    Step(Step),
    /// The unit is not larger than the size: if it were, the multipliers and the covers would
    /// charge what is claimed, over their scale.
    Cap {
        unit: u32,
        size: i128,
        scaled: Scaled,
        covers: Covers,
    },
    /// The unit is left out: if it were taken in, the multipliers and the covers would charge what
    /// is claimed, over their scale.
    Out {
        unit: u32,
        scaled: Scaled,
        covers: Covers,
    },
    /// The unit is not larger than can be of use.
    Trim(u32),
    /// No more of the material is used than the amount. If as much were used, the multipliers, the
    /// worth of the use and the covers would charge what is claimed, over their scale.
    Use {
        material: u32,
        amount: i128,
        worth: i128,
        scaled: Scaled,
        covers: Covers,
    },
}
