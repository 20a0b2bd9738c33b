use crate::UnitSet;

/// A node of a search: the units that are taken in and those that are left out.
#[derive(Clone, Copy, Debug, PartialEq, Eq)]
pub struct Node {
    pub inside: UnitSet,
    pub outside: UnitSet,
}
