//! What is claimed of a problem.
use crate::network::Network;

/// What a tree is to prove: that the network is a best one, that there is none, or nothing.
#[derive(Drop)]
pub enum Claim {
    Network(Network),
    Infeasible,
    Unknown,
}
