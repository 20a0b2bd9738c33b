//! Which column leaves the basis.
ghost use Rattle.std.specs.Prelude.{◌≡◌, ◌<◌, true, false, pos, ◌<ℤ◌, ◌≤ℤ◌, IfNone, IfSome};
ghost use Rattle.std.specs.Prelude.{IsTrue};
ghost use Rattle.flow_program.specs.flow_rules.LinearProgram.{LinearProgram};
ghost use Rattle.flow_program.specs.flow_rules.Pivots.{IsFeasible, IsLeaving};
ghost use Rattle.dual_simplex.specs.Rows.{table, basis};
ghost use Rattle.dual_simplex.specs.Choice.{IsOfSize, columns_of, IsDualFeasible};

use crate::rows::Rows;

/// Whether the column is in the basis with a value below 0.
fn is_negative_value(rows: &Rows, column: usize) -> bool
    requires { column < columns_of rows.now }
    ensures yes { IsTrue result → basis rows.now column ≡ true }
    ensures negative { IsTrue result → table rows.now column (columns_of rows.now) <ℤ pos 0 }
    ensures no { result ≡ false → basis rows.now column ≡ true
        → pos 0 ≤ℤ table rows.now column (columns_of rows.now) }
{
    rows.is_basic(column) && rows.entry(column, rows.right_at()) < 0
}

/// The first column of the basis whose value is below 0. `None` exactly if there is none; then the
/// basis gives least flows. No entry of the cost row is below 0.
pub fn leaving(rows: &Rows) -> Option<usize>
    requires costs { IsDualFeasible rows.now }
    ensures found { IfSome result
        (λ l. (p : LinearProgram) → IsOfSize p rows.now
        → IsLeaving p (basis rows.now) (table rows.now) l) }
    ensures none { IfNone result
        ((p : LinearProgram) → IsOfSize p rows.now
        → IsFeasible p (basis rows.now) (table rows.now)) }
{
    for column in 0..rows.right_at() {
        if is_negative_value(rows, column) {
            return Some(column);
        }
    }
    None
}
