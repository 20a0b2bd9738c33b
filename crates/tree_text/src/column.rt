//! Columns and places after the first word of a line.
ghost use Rattle.std.specs.Prelude.{◌≡◌, ◌<◌, ◌++◌, [], ◌∷◌, OnOk, codes, decimal, map};
ghost use Rattle.std.specs.Prelude.{string_bytes};
ghost use Rattle.tree_text_rules.specs.problem_rules.Each.{Each};
ghost use Rattle.tree_text_rules.specs.tree_rules.Known.{KnowsColumn, KnowsRow, KnowsPlace};
ghost use Rattle.tree_text_rules.specs.Spelling.{column_text, row_text, which_text, flow_text};
ghost use Rattle.tree_text_rules.specs.Spelling.{place_fields};
ghost use Rattle.tree_text.specs.Printing.{appended};

use crate::field::{material_name, push_count, push_field, unit_name};
use flow_program::Problem;
use std::alloc::AllocError;
use tree_text_rules::{Column, FlowStep, Place, Which};

// A column of a unit or of a row: its mark and the name.
fn push_marked(line: &mut String, mark: &str, name: &str) -> Result<(), AllocError>
    ensures { OnOk result
        (string_bytes line.new ≡ appended (string_bytes line.old) ((mark.now ++ name.now) ∷ [])) }
{
    line.push(' ')?;
    line.push_str(mark)?;
    line.push_str(name)?;
    Ok(())
}

fn push_column(line: &mut String, problem: &Problem, column: Column) -> Result<(), AllocError>
    requires { KnowsColumn problem.now column }
    ensures { OnOk result
        (string_bytes line.new
        ≡ appended (string_bytes line.old) (column_text problem.now column ∷ [])) }
{
    match column {
        Column::X(unit) => push_marked(line, "x:", unit_name(problem, unit)),
        Column::S(unit) => push_marked(line, "s:", unit_name(problem, unit)),
        Column::T(material) => push_marked(line, "t:", material_name(problem, material)),
        Column::W(material) => push_marked(line, "w:", material_name(problem, material)),
        Column::Right => push_field(line, "right"),
        Column::Scale => push_field(line, "scale"),
    }
}

pub(crate) fn push_columns(
    line: &mut String,
    problem: &Problem,
    columns: &[Column],
) -> Result<(), AllocError>
    requires { Each (KnowsColumn problem.now) columns.now }
    ensures { OnOk result
        (string_bytes line.new
        ≡ appended (string_bytes line.old) (map (column_text problem.now) columns.now)) }
{
    'printing: for column in columns {
        push_column(line, problem, *column)?;
    }
    Ok(())
}

fn push_row(line: &mut String, problem: &Problem, row: Option<Column>) -> Result<(), AllocError>
    requires { KnowsRow problem.now row }
    ensures { OnOk result
        (string_bytes line.new ≡ appended (string_bytes line.old) (row_text problem.now row ∷ [])) }
{
    match row {
        Some(column) => push_column(line, problem, column),
        None => push_field(line, "cost"),
    }
}

fn which_text(which: Which) -> &'static str
    ensures { result.now ≡ which_text which }
{
    match which {
        Which::Left => "left",
        Which::Right => "right",
        Which::Difference => "difference",
    }
}

fn flow_text(which: FlowStep) -> &'static str
    ensures { result.now ≡ flow_text which }
{
    match which {
        FlowStep::Lcm => "lcm",
        FlowStep::Shift => "shift",
        FlowStep::Scaled => "scaled",
        FlowStep::Total => "total",
    }
}

// A word and the number of a step.
fn push_step(line: &mut String, word: &str, at: u32) -> Result<(), AllocError>
    ensures { OnOk result
        (string_bytes line.new ≡ appended (string_bytes line.old) (word.now ∷ decimal at ∷ [])) }
{
    push_field(line, word)?;
    push_count(line, at)
}

pub(crate) fn push_place(
    line: &mut String,
    problem: &Problem,
    place: Place,
) -> Result<(), AllocError>
    requires { KnowsPlace problem.now place }
    ensures { OnOk result
        (string_bytes line.new
        ≡ appended (string_bytes line.old) (place_fields problem.now place)) }
{
    match place {
        Place::Entry {
            leave,
            enter,
            row,
            column,
            which,
        } => {
            push_field(line, "entry")?;
            push_column(line, problem, leave)?;
            push_column(line, problem, enter)?;
            push_row(line, problem, row)?;
            push_column(line, problem, column)?;
            push_field(line, which_text(which))
        }
        Place::Flow { unit, which } => {
            push_field(line, "flow")?;
            push_field(line, unit_name(problem, unit))?;
            push_field(line, flow_text(which))
        }
        Place::Cost { at } => push_step(line, "cost", at),
        Place::FlowSum { at } => push_step(line, "flowsum", at),
        Place::Bound { at } => push_step(line, "bound", at),
        Place::Refute { row, at } => {
            push_field(line, "refute")?;
            push_column(line, problem, row)?;
            push_count(line, at)
        }
    }
}
