//! The text of a script.
ghost use Rattle.std.specs.Prelude.{◌≡◌, ◌++◌, ◌∷◌, [], IfOk, OnOk, map, string_bytes};
ghost use Rattle.text_lines.specs.text_rules.Printed.{amount_bytes};
ghost use Rattle.text_lines.specs.text_rules.Canonical.{kind_word};
ghost use Rattle.pns_problem.specs.Kind.{kind_of};
ghost use Rattle.text_lines.specs.edit_rules.Line.{word_text};
ghost use Rattle.text_lines.specs.edit_rules.Printed.{word_of, term_tokens, side_tokens, edit_line};
ghost use Rattle.text_lines.specs.edit_rules.Printed.{script_text};
ghost use Rattle.edit_scripts.specs.Printing.{appended, head_of, amounts_of, tail_of, edit_lines};
ghost use Rattle.edit_scripts.specs.View.{edit_of};

use crate::edit::Edit;
use crate::script::Script;
use crate::term::NamedTerm;
use pns_problem::{Kind, amount_text};
use std::alloc::{AllocError, Global};

fn push_field(text: &mut String, field: &str) -> Result<(), AllocError>
    ensures { OnOk result
        (string_bytes text.new ≡ appended (string_bytes text.old) (field.now ∷ [])) }
{
    text.push(' ')?;
    text.push_str(field)?;
    Ok(())
}

fn push_amounts(alloc: Global, text: &mut String, amounts: &[i64]) -> Result<(), AllocError>
    ensures { OnOk result
        (string_bytes text.new ≡ appended (string_bytes text.old) (map amount_bytes amounts.now)) }
{
    'printing: for amount in amounts {
        push_field(text, &amount_text(alloc, *amount)?)?;
    }
    Ok(())
}

fn push_names(text: &mut String, names: &[String]) -> Result<(), AllocError>
    ensures { OnOk result
        (string_bytes text.new ≡ appended (string_bytes text.old) (map string_bytes names.now)) }
{
    'printing: for name in names {
        push_field(text, name)?;
    }
    Ok(())
}

/// A rate of 1 is left out.
fn push_term(alloc: Global, text: &mut String, term: &NamedTerm) -> Result<(), AllocError>
    ensures { OnOk result
        (string_bytes text.new ≡ appended (string_bytes text.old) (term_tokens term.now)) }
{
    if term.rate.unsigned_abs() != 1_000_000 {
        push_field(text, &amount_text(alloc, term.rate)?)?;
    }
    push_field(text, &term.name)
}

#[tactic(auto, using(crate::proofs::Printing::side_of_terms))]
fn push_side(alloc: Global, text: &mut String, terms: &[NamedTerm]) -> Result<(), AllocError>
    ensures { OnOk result
        (string_bytes text.new ≡ appended (string_bytes text.old) (side_tokens terms.now)) }
{
    let [first, rest @ ..] = terms else {
        return Ok(());
    };
    push_term(alloc, text, first)?;
    'printing: for term in rest {
        push_field(text, "+")?;
        push_term(alloc, text, term)?;
    }
    Ok(())
}

fn word_text(edit: &Edit) -> &'static str
    ensures { result.now ≡ word_text (word_of (edit_of edit.now)) }
{
    match edit {
        Edit::Price { .. } => "price",
        Edit::Bounds { .. } => "bounds",
        Edit::Kind { .. } => "kind",
        Edit::Capacity { .. } => "capacity",
        Edit::Fix { .. } => "fix",
        Edit::Proportional { .. } => "proportional",
        Edit::RenameMaterial { .. } => "rename_material",
        Edit::RenameUnit { .. } => "rename_unit",
        Edit::AddMaterial { .. } => "add_material",
        Edit::RemoveMaterial { .. } => "remove_material",
        Edit::AddUnit { .. } => "add_unit",
        Edit::RemoveUnit { .. } => "remove_unit",
        Edit::Exclude { .. } => "exclude",
        Edit::Unexclude { .. } => "unexclude",
        Edit::Investment { .. } => "investment",
        Edit::Payout { .. } => "payout",
    }
}

fn kind_word(kind: Kind) -> &'static str
    ensures { result.now ≡ kind_word (kind_of kind) }
{
    match kind {
        Kind::RawMaterial => "raw_material",
        Kind::Intermediate => "intermediate",
        Kind::Product => "product",
    }
}

// The place, the names and the kind.
fn push_head(text: &mut String, edit: &Edit) -> Result<(), AllocError>
    ensures { OnOk result
        (string_bytes text.new ≡ appended (string_bytes text.old) (head_of (edit_of edit.now))) }
{
    match edit {
        Edit::AddMaterial { at, name, kind, .. } => {
            write!(text, " {at} {name} {}", kind_word(*kind))
        }
        Edit::AddUnit { at, name, .. } | Edit::Exclude { at, name, .. } => {
            write!(text, " {at} {name}")
        }
        Edit::Kind { material, kind } => write!(text, " {material} {}", kind_word(*kind)),
        Edit::RenameMaterial { old, new } | Edit::RenameUnit { old, new } => {
            write!(text, " {old} {new}")
        }
        Edit::Price { material: name, .. }
        | Edit::Bounds { material: name, .. }
        | Edit::RemoveMaterial { material: name }
        | Edit::Capacity { unit: name, .. }
        | Edit::Fix { unit: name, .. }
        | Edit::Proportional { unit: name, .. }
        | Edit::Investment { unit: name, .. }
        | Edit::RemoveUnit { unit: name }
        | Edit::Unexclude { name } => push_field(text, name),
        Edit::Payout { .. } => Ok(()),
    }
}

// The amounts.
fn push_amounts_of(alloc: Global, text: &mut String, edit: &Edit) -> Result<(), AllocError>
    ensures { OnOk result
        (string_bytes text.new ≡ appended (string_bytes text.old) (amounts_of (edit_of edit.now))) }
{
    match edit {
        Edit::Price { value, .. } | Edit::Fix { value, .. } | Edit::Proportional { value, .. } => {
            push_amounts(alloc, text, &[*value])
        }
        Edit::Bounds { lower, upper, .. } | Edit::Capacity { lower, upper, .. } => {
            push_amounts(alloc, text, &[*lower, *upper])
        }
        Edit::AddMaterial {
            price,
            lower,
            upper,
            ..
        } => push_amounts(alloc, text, &[*price, *lower, *upper]),
        Edit::AddUnit {
            lower,
            upper,
            fix,
            proportional,
            ..
        } => push_amounts(alloc, text, &[*lower, *upper, *fix, *proportional]),
        Edit::Investment {
            fix,
            proportional,
            ..
        } => push_amounts(alloc, text, &[*fix, *proportional]),
        _ => Ok(()),
    }
}

// The sides, the units or the years.
#[tactic(auto, using(crate::proofs::Printing::two_sides))]
fn push_tail(alloc: Global, text: &mut String, edit: &Edit) -> Result<(), AllocError>
    ensures { OnOk result
        (string_bytes text.new ≡ appended (string_bytes text.old) (tail_of (edit_of edit.now))) }
{
    match edit {
        Edit::AddUnit {
            inputs,
            outputs,
            ..
        } => {
            push_field(text, ":")?;
            push_side(alloc, text, inputs)?;
            push_field(text, "=>")?;
            push_side(alloc, text, outputs)
        }
        Edit::Exclude { units, .. } => push_names(text, units),
        Edit::Payout { years } => write!(text, " {}", years.unsigned_abs()),
        _ => Ok(()),
    }
}

#[tactic(auto, using(crate::proofs::Printing::line_of))]
fn push_line(alloc: Global, text: &mut String, edit: &Edit) -> Result<(), AllocError>
    ensures { OnOk result
        (string_bytes text.new ≡ string_bytes text.old ++ edit_line (edit_of edit.now)) }
{
    text.push_str(word_text(edit))?;
    push_head(text, edit)?;
    push_amounts_of(alloc, text, edit)?;
    push_tail(alloc, text, edit)
}

fn push_lines(alloc: Global, text: &mut String, edits: &[Edit]) -> Result<(), AllocError>
    ensures { OnOk result
        (string_bytes text.new ≡ string_bytes text.old ++ edit_lines (map edit_of edits.now)) }
{
    'printing: for edit in edits {
        push_line(alloc, text, edit)?;
        text.push('\n')?;
    }
    Ok(())
}

/// The text of the script, which reads back as its edits at lines 2, 3 and so on.
pub fn print_script(alloc: Global, script: &Script) -> Result<Vec<u8>, AllocError>
    ensures { IfOk result (λ text. text.items ≡ script_text script.now.edits) }
{
    let mut text = String::new(alloc);
    text.push_str("file_type=PNS_edits_v1\n")?;
    push_lines(alloc, &mut text, script.edits())?;
    Ok(text.into_bytes())
}
