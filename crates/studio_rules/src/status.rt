//! The statuses of a call.

/// How a call ended.
#[derive(Clone, Copy, Debug, PartialEq, Eq)]
pub enum Status {
    /// The whole text of the command is written.
    Done = 0,
    /// The answer is no: units break an axiom, or a tree proves nothing.
    Refused = 1,
    /// The words match no form.
    Usage = 2,
    /// The problem text has a fault.
    BadProblem = 3,
    /// A number overflowed.
    Past = 4,
    /// The budget is spent.
    Spent = 5,
    /// A file could not be read.
    ReadFault = 6,
    /// The text could not be written whole.
    WriteFault = 7,
    /// Memory ran out.
    Memory = 8,
    /// A word is no token of a solution structure.
    BadToken = 9,
    /// The tree text has a fault.
    BadTree = 10,
    /// The script has a fault.
    BadEdit = 11,
    /// A file holds more than its limit.
    TooLong = 12,
    /// A cheaper network exists.
    NotBest = 13,
    /// A word is no name of the problem.
    UnknownName = 14,
    /// The problem has a payout period already, or a cost would leave its range.
    NotMigrated = 16,
    /// The words are no sound node.
    BadNode = 17,
    /// No open leaf is the part's start.
    NoLeaf = 18,
    /// The plan has a fault.
    BadPlan = 19,
    /// A command can't go on from a claim or from a tree, because the claim or a node is refused.
    /// Its number is that of `Refused`.
    BadClaim,
}
