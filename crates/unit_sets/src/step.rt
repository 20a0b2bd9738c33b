use crate::UnitSet;

/// A step that changes a node and loses no solution structure of it.
#[derive(Clone, Copy, Debug, PartialEq, Eq)]
pub enum Step {
    /// The unit makes a raw material, and is left out.
    Raw(u32),
    /// The unit shares an exclusion with one that is taken in, and is left out.
    Rival(u32),
    /// The material has no maker left, so all units that use it are left out.
    Starve(u32),
    /// The units lead to no product, and are left out.
    Loose(UnitSet),
    /// The needed material has one maker left, which is taken in.
    Sole { material: u32, unit: u32 },
}
