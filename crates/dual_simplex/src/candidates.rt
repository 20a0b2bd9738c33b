// A column that could enter the basis.
ghost use Rattle.std.specs.Prelude.{◌≡◌, ◌<◌, pos, ◌<ℤ◌, neg_ℤ};
ghost use Rattle.flow_program.specs.integer_laws.Range.{InRange};
ghost use Rattle.dual_simplex.specs.Rows.{table};
ghost use Rattle.dual_simplex.specs.Choice.{columns_of};

use crate::rows::Rows;

/// A column that could enter, with minus its entry in the row of the column that leaves.
#[derive(Clone, Copy)]
pub(crate) struct Candidate {
    pub(crate) column: usize,
    pub(crate) size: i128,
    ghost positive: { pos 0 <ℤ size },
    ghost in_range: { InRange size },
}

/// The number with the other sign.
pub(crate) fn negated(number: i128) -> i128
    requires { InRange number }
    ensures value { result ≡ neg_ℤ number }
    ensures in_range { InRange result }
{
    -number
}

/// The candidate of a column at which the row of l is below 0.
pub(crate) fn candidate_of(rows: &Rows, l: usize, column: usize) -> Candidate
    requires row { l < columns_of rows.now }
    requires column { column < columns_of rows.now }
    requires negative { table rows.now l column <ℤ pos 0 }
    ensures column { result.column ≡ column }
    ensures size { result.size ≡ neg_ℤ (table rows.now l column) }
{
    let size = negated(rows.entry(l, column));
    Candidate { column, size }
}
