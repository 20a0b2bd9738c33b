//! What an open leaf of the tree stands for.
use cert_check::Scaled;
use rank_laws::Naming;

/// How a leaf names a network, the number of the network, counted from 1, and multipliers over
/// their scale that bound the cost of the flows of the node.
#[derive(Drop)]
pub struct Name {
    pub way: Naming,
    pub network: u32,
    pub scaled: Scaled,
}

/// What an open leaf of the tree stands for in a ranked tree.
#[derive(Drop)]
pub enum Mark {
    /// The leaf is open.
    Open,
    /// The leaf names a network.
    Named(Name),
}
