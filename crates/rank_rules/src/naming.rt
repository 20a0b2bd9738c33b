/// How a leaf names a network.
#[derive(Clone, Copy, Debug, PartialEq, Eq)]
pub enum Naming {
    /// As the only structure that is left at the node.
    Only,
    /// As one that each structure of the node contains. Only a list of alternatives has such
    /// leaves.
    Within,
}
