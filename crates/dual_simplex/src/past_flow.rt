use flow_program::FlowStep;
// The place at which a number of a flow is out of range.

/// The first number out of range when flows are read: a unit, and which of the numbers that are
/// formed for it. Units are numbered as in the program.
#[derive(Clone, Copy, Debug, PartialEq, Eq)]
pub struct PastFlow {
    pub unit: usize,
    pub which: FlowStep,
}
