//! Laws of rows as lists of numbers in range. The step of a row is that of the tableau. At a pivot
//! of the first kind only the cost row can leave the range. The list of the values of a basis is
//! bounded with its rows. `specs/RangeLaws` states them.
ghost use Rattle.path_laws.specs.RangeLaws.{RowsAreCombined, RowsArePrimitive, FirstKindFits};
ghost use Rattle.path_laws.specs.RangeLaws.{ProgramFits, ValuesAreWithin};

/// A row that was combined with a pivot row in lowest terms is the row with its entry taken away.
/// It has no common divisor.
pub fn rows_are_combined()
    ensures combined { RowsAreCombined }
    ensures primitive { RowsArePrimitive }
{}

/// At a pivot of the first kind no row but the cost row can leave the range.
pub fn first_kind_fits()
    ensures linear { FirstKindFits }
    ensures program { ProgramFits }
{}

/// If no entry of the rows of a basis is above a number, no number of the list of its values is.
pub fn values_are_within()
    ensures { ValuesAreWithin }
{}
