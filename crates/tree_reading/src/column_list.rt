//! Lists of columns.
ghost use Rattle.std.specs.Prelude.{◌≡◌, ◌∷◌, [], Ok, IfOk, IfErr, OnOk};
ghost use Rattle.tree_text_rules.specs.problem_rules.Each.{Each};
ghost use Rattle.tree_text_rules.specs.tree_rules.Known.{KnowsColumn};
ghost use Rattle.tree_text_rules.specs.Token as rules;
ghost use Rattle.tree_reading.specs.Joined.{so_far, joined};
ghost use Rattle.text_lines.specs.Tells.{TellsLine};
ghost use Rattle.tree_reading.specs.View.{tokens_in};

use crate::column::column_of;
use crate::fault_order::lesser;
use crate::line::first_token;
use crate::line_fault::LineFault;
use branch_tree::Problem;
use std::alloc::{AllocError, Global};
use tree_text_rules::{Column, TreeKind};

// Takes a token: one more column, or its fault.
fn take_column(
    problem: &Problem,
    columns: &mut Vec<Column>,
    fault: Option<TreeKind>,
    token: &[u8],
) -> Result<Option<TreeKind>, AllocError>
    requires { Each (KnowsColumn problem.now) columns.old.items }
    ensures next { IfOk result
        (λ next. so_far next columns.new.items
        ≡ joined (so_far fault columns.old.items)
        (rules.mapped (λ a. a ∷ []) (rules.column_of problem.now token.now))) }
    ensures known { OnOk result (Each (KnowsColumn problem.now) columns.new.items) }
{
    match (fault, column_of(problem, token)) {
        (None, Ok(column)) => {
            columns.push(column)?;
            Ok(None)
        }
        (None, Err(kind)) | (Some(kind), Ok(_)) => Ok(Some(kind)),
        (Some(kind), Err(other)) => Ok(Some(lesser(kind, other))),
    }
}

/// The columns of what is left of a line.
pub fn columns_of(
    alloc: Global,
    problem: &Problem,
    fields: Option<&[u8]>,
) -> Result<Vec<Column>, LineFault>
    ensures ok { IfOk result
        (λ v. rules.each (rules.column_of problem.now) (tokens_in fields.entry) ≡ Ok v.items) }
    ensures known { IfOk result (λ v. Each (KnowsColumn problem.now) v.items) }
    ensures fault { IfErr result
        (TellsLine (rules.each (rules.column_of problem.now) (tokens_in fields.entry))) }
{
    let mut columns = Vec::new(alloc);
    let mut fault = None;
    let mut rest = fields;
    'reading: while let Some(left) = rest {
        let (token, behind) = first_token(left);
        fault = take_column(problem, &mut columns, fault, token)?;
        rest = behind;
    }
    match fault {
        None => Ok(columns),
        Some(kind) => Err(LineFault::Kind(kind)),
    }
}
