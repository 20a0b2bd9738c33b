//! Places at which a number is out of range.
ghost use Rattle.std.specs.Prelude.{◌≡◌, IfOk};
ghost use Rattle.tree_text_rules.specs.flow_rules.declared.place.Place.TheVariants as places;
ghost use Rattle.tree_text_rules.specs.tree_rules.Known.{KnowsPlace};
ghost use Rattle.tree_text_rules.specs.LineRead as reads;
ghost use Rattle.tree_text_rules.specs.Token as rules;
ghost use Rattle.tree_reading.specs.View.{tokens_in};

use crate::apart::{pair, some_token};
use crate::column::{column_of, flow_of, row_of, which_of};
use crate::fault_order::both;
use crate::name::unit_of;
use crate::number::{count_of, one_count};
use branch_tree::Problem;
use tree_text_rules::{Place, TreeKind};

fn entry_of(problem: &Problem, fields: Option<&[u8]>) -> Result<Place, TreeKind>
    ensures value { result ≡ reads.entry_of problem.now (tokens_in fields.entry) }
    ensures known { IfOk result (KnowsPlace problem.now) }
{
    let (leave, behind) = some_token(fields)?;
    let (enter, behind) = some_token(behind)?;
    let (row, behind) = some_token(behind)?;
    let (column, which) = pair(behind)?;
    let behind_row = both(column_of(problem, column), which_of(which));
    let behind_enter = both(row_of(problem, row), behind_row);
    let behind_leave = both(column_of(problem, enter), behind_enter);
    let (leave, (enter, (row, (column, which)))) = both(column_of(problem, leave), behind_leave)?;
    Ok(Place::Entry {
        leave,
        enter,
        row,
        column,
        which,
    })
}

fn flow_place(problem: &Problem, fields: Option<&[u8]>) -> Result<Place, TreeKind>
    ensures value { result ≡ rules.mapped (λ found. places.Flow found.0 found.1)
        (reads.two (rules.unit_of problem.now) rules.flow_of (tokens_in fields.entry)) }
    ensures known { IfOk result (KnowsPlace problem.now) }
{
    let (unit, which) = pair(fields)?;
    let (unit, which) = both(unit_of(problem, unit), flow_of(which))?;
    Ok(Place::Flow { unit, which })
}

fn refute_place(problem: &Problem, fields: Option<&[u8]>) -> Result<Place, TreeKind>
    ensures value { result ≡ rules.mapped (λ found. places.Refute found.0 found.1)
        (reads.two (rules.column_of problem.now) rules.count_of (tokens_in fields.entry)) }
    ensures known { IfOk result (KnowsPlace problem.now) }
{
    let (row, at) = pair(fields)?;
    let (row, at) = both(column_of(problem, row), count_of(at))?;
    Ok(Place::Refute { row, at })
}

/// A place.
pub fn place_of(problem: &Problem, fields: Option<&[u8]>) -> Result<Place, TreeKind>
    ensures value { result ≡ reads.place_of problem.now (tokens_in fields.entry) }
    ensures known { IfOk result (KnowsPlace problem.now) }
{
    let (word, behind) = some_token(fields)?;
    if word == b"entry".as_slice() {
        entry_of(problem, behind)
    } else if word == b"flow".as_slice() {
        flow_place(problem, behind)
    } else if word == b"cost".as_slice() {
        one_count(behind).map(|at| Place::Cost { at })
    } else if word == b"flowsum".as_slice() {
        one_count(behind).map(|at| Place::FlowSum { at })
    } else if word == b"bound".as_slice() {
        one_count(behind).map(|at| Place::Bound { at })
    } else if word == b"refute".as_slice() {
        refute_place(problem, behind)
    } else {
        Err(TreeKind::BadLine)
    }
}
