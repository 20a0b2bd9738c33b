//! The laws of plants without demands. `specs/Laws`, `specs/Calls` and `specs/OneUnit` state them.
ghost use Rattle.call_laws.specs.Laws.{NothingIsPast, NothingStops};
ghost use Rattle.call_laws.specs.Calls.{SureSearchCanFinish, SureCallIsDone};
ghost use Rattle.call_laws.specs.OneUnit.{OneUnitIsSure};

/// No number overflows on the path of a node.
pub fn nothing_is_past()
    ensures { NothingIsPast }
{}

/// Nothing stops a search with a budget of twice the number of sets of units.
pub fn nothing_stops()
    ensures { NothingStops }
{}

/// `solve` and `rank` of such a file end with 0, unless a read, an output or memory fails. With
/// status 0 they have written their whole answer.
pub fn sure_call_is_done()
    ensures premise { SureSearchCanFinish }
    ensures done { SureCallIsDone }
{}

/// The worked plant of one unit is such a file, with a budget of 4.
pub fn one_unit_is_sure()
    ensures { OneUnitIsSure }
{}
