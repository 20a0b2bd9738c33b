// Which column enters the basis at a pivot of the second kind.
ghost use Rattle.std.specs.Prelude.{◌≡◌, ◌<◌, ◌+◌, ℕ, suc, false, pos, ◌<ℤ◌, ◌≤ℤ◌, IfNone, IfSome};
ghost use Rattle.flow_program.specs.flow_rules.LinearProgram.{LinearProgram};
ghost use Rattle.flow_program.specs.flow_rules.Pivots.{IsEntering};
ghost use Rattle.dual_simplex.specs.Rows.{table, basis};
ghost use Rattle.dual_simplex.specs.Choice.{IsOfSize, columns_of};
ghost use Rattle.dual_simplex.specs.Candidates.{IsBestBelow};

use crate::candidates::{Candidate, candidate_of};
use crate::ratios::comes_before;
use crate::rows::Rows;
use path_laws::columns_are_ordered;

/// The best candidate up to this column, from `best`, that of the columns before it.
fn with_column(rows: &Rows, l: usize, best: Option<Candidate>, column: usize) -> Option<Candidate>
    requires row { l < columns_of rows.now }
    requires column { column < columns_of rows.now }
    requires free { table rows.now l column <ℤ pos 0 → basis rows.now column ≡ false }
    requires best { IsBestBelow rows.now l column best }
    ensures { IsBestBelow rows.now l (column + 1) result }
{
    columns_are_ordered();
    if rows.entry(l, column) >= 0 {
        return best;
    }
    let next = candidate_of(rows, l, column);
    let Some(least) = best else {
        return Some(next);
    };
    if comes_before(rows, next, least) {
        Some(next)
    } else {
        Some(least)
    }
}

/// Of the columns at which the row of l is below 0, the one with the lexicographically least vector
/// over minus that entry. `None` exactly if the row has no entry below 0 at a column. No column of
/// the basis has such an entry there.
pub fn entering(rows: &Rows, l: usize) -> Option<usize>
    requires row { l < columns_of rows.now }
    requires free { (k : ℕ) → k < columns_of rows.now → table rows.now l k <ℤ pos 0
        → basis rows.now k ≡ false }
    ensures found { IfSome result
        (λ e. (p : LinearProgram) → IsOfSize p rows.now
        → IsEntering p (basis rows.now) (table rows.now) l e) }
    ensures none { IfNone result ((k : ℕ) → k < columns_of rows.now → pos 0 ≤ℤ table rows.now l k) }
{
    let mut best = None;
    for column in 0..rows.right_at() {
        best = with_column(rows, l, best, column);
    }
    match best {
        Some(least) => Some(least.column),
        None => None,
    }
}
