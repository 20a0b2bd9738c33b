/// The role of a unit in a drawing.
#[derive(Clone, Copy, Debug, PartialEq, Eq)]
pub enum Role {
    /// No network is given.
    Planned,
    /// It is in the network, and its size is neither 0 nor at a limit.
    Running,
    /// It is in the network, and its size is at a limit and not 0.
    AtLimit,
    /// It is in the network, and its size is 0.
    Idle,
    /// It is not in the network.
    LeftOut,
}
