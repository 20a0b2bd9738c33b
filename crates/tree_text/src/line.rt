//! Lines of a word and fields, each handed to the sink when it is made.
ghost use Rattle.std.specs.Prelude.{◌≡◌, ◌∷◌, [], OnOk, string_bytes};
ghost use Rattle.tree_text_rules.specs.problem_rules.Each.{Each};
ghost use Rattle.tree_text_rules.specs.text_rules.Canonical.{joined};
ghost use Rattle.tree_text.specs.Printing.{appended};
ghost use Rattle.tree_text.specs.Fields.{KnowsField, field_tokens, tokens_of};
ghost use Rattle.tree_text.specs.Prints.{Puts};

use crate::column::{push_columns, push_place};
use crate::fault::PrintFault;
use crate::field::{
    begin, exclusion_name, material_name, push_count, push_field, push_number, push_numbers,
    push_options, push_units, unit_name,
};
use crate::put::put_line;
use flow_program::{Problem, UnitSet};
use pns_io::Sink;
use std::alloc::AllocError;
use tree_text_rules::{Column, Place};

/// What follows the word of a line: a name or a number, or several.
#[derive(Clone, Copy)]
pub(crate) enum Field<'a> {
    Unit(u32),
    Units(UnitSet),
    Material(u32),
    Exclusion(u32),
    Columns(&'a [Column]),
    Place(Place),
    Count(u32),
    Options(u128),
    Number(i128),
    Numbers(&'a [i128]),
}

fn push(line: &mut String, problem: &Problem, field: &Field) -> Result<(), AllocError>
    requires { KnowsField problem.now field.now }
    ensures { OnOk result
        (string_bytes line.new
        ≡ appended (string_bytes line.old) (field_tokens problem.now field.now)) }
{
    match field {
        Field::Unit(unit) => push_field(line, unit_name(problem, *unit)),
        Field::Units(units) => push_units(line, problem, *units),
        Field::Material(material) => push_field(line, material_name(problem, *material)),
        Field::Exclusion(exclusion) => push_field(line, exclusion_name(problem, *exclusion)),
        Field::Columns(columns) => push_columns(line, problem, columns),
        Field::Place(place) => push_place(line, problem, *place),
        Field::Count(count) => push_count(line, *count),
        Field::Options(options) => push_options(line, *options),
        Field::Number(number) => push_number(line, *number),
        Field::Numbers(numbers) => push_numbers(line, numbers),
    }
}

// The line of the word and the fields.
#[tactic(auto, using(std::proofs::lemmas::List::drop_more, crate::proofs::Appending::field_ahead, crate::proofs::Appending::line_appended))]
fn make(
    line: &mut String,
    problem: &Problem,
    word: &str,
    fields: &[Field],
) -> Result<(), AllocError>
    requires { Each (KnowsField problem.now) fields.now }
    ensures { OnOk result
        (string_bytes line.new ≡ joined 32 (word.now ∷ tokens_of problem.now fields.now)) }
{
    begin(line, word)?;
    'printing: for field in fields {
        push(line, problem, field)?;
    }
    Ok(())
}

/// Hands the line of the word and the fields to the sink.
pub(crate) fn put<K: Sink>(
    line: &mut String,
    problem: &Problem,
    word: &str,
    fields: &[Field],
    out: &mut K,
) -> Result<(), PrintFault>
    requires { Each (KnowsField problem.now) fields.now }
    ensures { Puts ((word.now ∷ tokens_of problem.now fields.now) ∷ []) (K.state out.old)
        (K.state out.new) result }
{
    let made = make(line, problem, word, fields);
    put_line(out, line, made)
}
