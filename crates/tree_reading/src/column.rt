//! Columns of a tableau, rows, and the words of places.
ghost use Rattle.std.specs.Prelude.{◌≡◌, Ok, IfOk};
ghost use Rattle.tree_text_rules.specs.tree_rules.Known.{KnowsColumn, KnowsRow};
ghost use Rattle.tree_text_rules.specs.Token as rules;

use crate::name::{material_of, unit_of};
use branch_tree::Problem;
use tree_text_rules::{Column, FlowStep, TreeKind, Which};

/// A column.
pub fn column_of(problem: &Problem, token: &[u8]) -> Result<Column, TreeKind>
    ensures value { result ≡ rules.column_of problem.now token.now }
    ensures known { IfOk result (KnowsColumn problem.now) }
{
    if let Some(name) = token.strip_prefix(b"x:") {
        Ok(Column::X(unit_of(problem, name)?))
    } else if let Some(name) = token.strip_prefix(b"s:") {
        Ok(Column::S(unit_of(problem, name)?))
    } else if let Some(name) = token.strip_prefix(b"t:") {
        Ok(Column::T(material_of(problem, name)?))
    } else if let Some(name) = token.strip_prefix(b"w:") {
        Ok(Column::W(material_of(problem, name)?))
    } else if token == b"right".as_slice() {
        Ok(Column::Right)
    } else if token == b"scale".as_slice() {
        Ok(Column::Scale)
    } else {
        Err(TreeKind::BadLine)
    }
}

/// The row of a basis column, or the cost row.
pub fn row_of(problem: &Problem, token: &[u8]) -> Result<Option<Column>, TreeKind>
    ensures value { result ≡ rules.row_of problem.now token.now }
    ensures known { IfOk result (KnowsRow problem.now) }
{
    if token == b"cost".as_slice() {
        Ok(None)
    } else {
        Ok(Some(column_of(problem, token)?))
    }
}

/// Which number of an entry.
pub fn which_of(token: &[u8]) -> Result<Which, TreeKind>
    ensures { result ≡ rules.which_of token.now }
{
    if token == b"left".as_slice() {
        Ok(Which::Left)
    } else if token == b"right".as_slice() {
        Ok(Which::Right)
    } else if token == b"difference".as_slice() {
        Ok(Which::Difference)
    } else {
        Err(TreeKind::BadLine)
    }
}

/// Which number of a flow.
pub fn flow_of(token: &[u8]) -> Result<FlowStep, TreeKind>
    ensures { result ≡ rules.flow_of token.now }
{
    if token == b"lcm".as_slice() {
        Ok(FlowStep::Lcm)
    } else if token == b"shift".as_slice() {
        Ok(FlowStep::Shift)
    } else if token == b"scaled".as_slice() {
        Ok(FlowStep::Scaled)
    } else if token == b"total".as_slice() {
        Ok(FlowStep::Total)
    } else {
        Err(TreeKind::BadLine)
    }
}
