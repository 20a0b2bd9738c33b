//! What overflows for the node of a problem, if a bench names a place or a sum over what it keeps
//! is out of range. Each law is the contract of a function without a body.
ghost use Rattle.dual_simplex.specs.PastLaws.{EntryIsPast, FlowIsPast, BoundIsPast};
ghost use Rattle.dual_simplex.specs.PastLaws.{RefutationIsPast, CostIsPast, BalanceIsPast};
ghost use Rattle.dual_simplex.specs.ProgramNames.{NonbasicAreOfProgram, ColumnsAreOfProgram};
ghost use Rattle.dual_simplex.specs.ProgramNames.{RowIsOfProgram, EntriesAreOfProgram};
ghost use Rattle.dual_simplex.specs.ProgramNames.{FlowsAreOfProgram};

/// At the place that `least` names a number overflows, at the basis that it keeps.
pub fn entry_is_past()
    ensures { EntryIsPast }
{}

/// So it does at the place that `read_flows` names, at a node with each unit taken in or left out.
pub fn flow_is_past()
    ensures { FlowIsPast }
{}

/// After `Least`, so does a step of the bound of the multipliers that is out of range.
pub fn bound_is_past()
    ensures { BoundIsPast }
{}

/// After `None`, so does a step of the bound by which the kept row refutes.
pub fn refutation_is_past()
    ensures { RefutationIsPast }
{}

/// After `read_flows`, so does a step of the cost of the flows.
pub fn cost_is_past()
    ensures { CostIsPast }
{}

/// After `read_flows`, so does a step of the judging of the flows.
pub fn balance_is_past()
    ensures { BalanceIsPast }
{}

/// The names of columns and places are those of units and rows of the program.
pub fn names_are_of_program()
    ensures nonbasic { NonbasicAreOfProgram }
    ensures columns { ColumnsAreOfProgram }
    ensures row { RowIsOfProgram }
    ensures entries { EntriesAreOfProgram }
    ensures flows { FlowsAreOfProgram }
{}
