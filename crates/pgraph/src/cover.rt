//! One set.
use unit_sets::UnitSet;

/// A set of units with the weight that it gets. If a unit is `beside` it, the set speaks of the
/// structures that have this unit.
#[derive(Clone, Copy, Debug)]
pub struct Cover {
    pub weight: i128,
    pub beside: Option<u32>,
    pub units: UnitSet,
}
