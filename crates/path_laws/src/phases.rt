//! Laws of the bases along the path: no basis is on it twice, each tableau has the solutions of the
//! equations, and a unit with an entry below 0 in the cost row has its pivot. `specs/PhaseLaws`
//! states them.
ghost use Rattle.path_laws.specs.PhaseLaws.{StartHasRows, NoBasisTwice, PathIsComplete};
ghost use Rattle.path_laws.specs.PhaseLaws.{FirstUnitHasPivot};

/// No basis is on the path twice.
pub fn no_basis_twice()
    ensures { NoBasisTwice }
{}

/// The start has its rows, and what solves the tableau of a basis of the path solves the equations.
pub fn path_is_complete()
    ensures start { StartHasRows }
    ensures solutions { PathIsComplete }
{}

/// The first unit whose entry in the cost row is below 0 has a pivot of the first kind.
pub fn first_unit_has_pivot()
    ensures { FirstUnitHasPivot }
{}
