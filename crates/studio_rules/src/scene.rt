//! What a graph shows.

/// What a graph with a network in it shows.
#[derive(Clone, Copy, Debug, PartialEq, Eq)]
pub enum Scene {
    /// The maximal structure, and the network in it.
    Plant,
    /// The network alone.
    Network,
}
