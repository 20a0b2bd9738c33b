//! The whole text.
ghost use Rattle.std.specs.Prelude.{◌≡◌, ◌++◌, ◌<◌, ◌-◌, ◌^◌, ℕ, Bool, List, [], false, Ok, IfOk};
ghost use Rattle.std.specs.Prelude.{OnOk, filter, flat_map, length, string_bytes, if◌then◌else◌};
ghost use Rattle.text_lines.specs.number_sets.Sets.{has};
ghost use Rattle.text_lines.specs.text_rules.Value.{read_text};
ghost use Rattle.text_lines.specs.View.{texts};
ghost use Rattle.cert_check.specs.pns_problem.Printing.{printed};
ghost use Rattle.cert_check.specs.pns_rules.Shape.{shape_of};
ghost use Rattle.cert_check.specs.pns_rules.Structure.{IsUnion};
ghost use Rattle.command_files.specs.report_rules.Item.{name_of, stands};
ghost use Rattle.command_files.specs.report_rules.Lint.{first_line, warning_lines, line_lines};
ghost use Rattle.command_files.specs.report_rules.Lint.{all_lines, clean_or};
ghost use Rattle.command_files.specs.report_rules.Lint.{lint_lines};
ghost use Rattle.structure_commands.specs.Judged.{IsKnown};

use crate::item::item_at;
use crate::line::{Line, meant_lines, own_names};
use crate::plant::Plant;
use crate::words::{kind_word, sentence};
use cert_check::Problem;
use command_files::{Item, Warning};
use std::alloc::{AllocError, Global};

/// All kinds, in the order in which those of one line are printed.
const KINDS: [Warning; 10] = [
    Warning::NoNetwork,
    Warning::UnusedMaterial,
    Warning::NoDemand,
    Warning::DefaultCapacity,
    Warning::Free,
    Warning::FreeRaw,
    Warning::NoLimit,
    Warning::Twins,
    Warning::FineRates,
    Warning::Alone,
];

// Appends the first line of a warning, without its line feed.
fn push_first(text: &mut String, number: u32, name: &str, kind: Warning) -> Result<(), AllocError>
    ensures { OnOk result
        (string_bytes text.new ≡ string_bytes text.old ++ first_line number name.now kind) }
{
    text.push_str("line ")?;
    write!(text, "{number}")?;
    text.push(' ')?;
    text.push_str(kind_word(kind))?;
    text.push(' ')?;
    text.push_str(name)?;
    Ok(())
}

// Appends the two lines of a warning.
fn push_warning(text: &mut String, number: u32, name: &str, kind: Warning) -> Result<(), AllocError>
    ensures { OnOk result
        (string_bytes text.new ≡ string_bytes text.old
        ++ printed (warning_lines number name.now kind)) }
{
    push_first(text, number, name, kind)?;
    text.push_str("\n  ")?;
    text.push_str(sentence(kind))?;
    text.push('\n')?;
    Ok(())
}

// Appends the lines of a kind of warning, if it is due at the item.
fn push_kind(
    text: &mut String,
    plant: &Plant<'_>,
    number: u32,
    item: Item,
    kind: Warning,
) -> Result<(), AllocError>
    requires { IsKnown plant.now.problem item }
    ensures { OnOk result
        (string_bytes text.new ≡ string_bytes text.old
        ++ printed
        (if stands plant.now.problem (has plant.now.units) item kind then warning_lines number
        (name_of plant.now.problem item) kind else [])) }
{
    if plant.stands(item, kind) {
        push_warning(text, number, plant.name_of(item), kind)
    } else {
        Ok(())
    }
}

// Appends those of each of the kinds.
fn push_kinds(
    text: &mut String,
    plant: &Plant<'_>,
    number: u32,
    item: Item,
    kinds: &[Warning],
) -> Result<(), AllocError>
    requires { IsKnown plant.now.problem item }
    ensures { OnOk result
        (string_bytes text.new ≡ string_bytes text.old
        ++ printed
        (flat_map (warning_lines number (name_of plant.now.problem item))
        (filter (stands plant.now.problem (has plant.now.units) item) kinds.now))) }
{
    'trying: for kind in kinds {
        push_kind(text, plant, number, item, *kind)?;
    }
    Ok(())
}

// Appends the lines of the warnings at a line.
fn push_line(
    text: &mut String,
    plant: &Plant<'_>,
    own: &[&[u8]],
    line: &Line<'_>,
) -> Result<(), AllocError>
    ensures { OnOk result
        (string_bytes text.new ≡ string_bytes text.old
        ++ printed (line_lines plant.now.problem (has plant.now.units) (texts own.now) line.now)) }
{
    match item_at(plant.problem(), own, line) {
        Some(item) => push_kinds(text, plant, line.number(), item, &KINDS),
        None => Ok(()),
    }
}

// Appends those of all lines; `own` are the names of the units that have a line of their own.
fn push_lines(
    text: &mut String,
    plant: &Plant<'_>,
    own: &[&[u8]],
    lines: &[Line<'_>],
) -> Result<(), AllocError>
    ensures { OnOk result
        (string_bytes text.new ≡ string_bytes text.old
        ++ printed
        (flat_map (line_lines plant.now.problem (has plant.now.units) (texts own.now)) lines.now)) }
{
    'pushing: for line in lines {
        push_line(text, plant, own, line)?;
    }
    Ok(())
}

// Those of all lines.
fn warnings_text(alloc: Global, plant: &Plant<'_>, lines: &[Line<'_>]) -> Result<String, AllocError>
    ensures { IfOk result
        (λ text. string_bytes text
        ≡ printed (all_lines plant.now.problem (has plant.now.units) lines.now)) }
{
    let own = own_names(alloc, lines)?;
    let mut text = String::new(alloc);
    push_lines(&mut text, plant, &own, lines)?;
    Ok(text)
}

// The one line `clean` in place of none.
fn clean_or(mut text: String) -> Result<String, AllocError>
    ensures { (lines : List (List ℕ)) → string_bytes text ≡ printed lines
        → IfOk result (λ made. string_bytes made ≡ printed (clean_or lines)) }
{
    if text.is_empty() {
        text.push_str("clean\n")?;
    }
    Ok(text)
}

/// The warnings of the plant that a text gives, two lines for each, in the order of the lines of
/// the text; or the line `clean`.
pub fn lint_text(alloc: Global, problem: &Problem, bytes: &[u8]) -> Result<Vec<u8>, AllocError>
    requires short { length bytes.now < 2 ^ 32 - 1 }
    requires read { read_text bytes.now ≡ Ok problem.now }
    ensures { IfOk result (λ text. (s : ℕ → Bool) × IsUnion (shape_of problem.now) (λ _. false) s
        × (text.items ≡ printed (lint_lines problem.now s bytes.now))) }
{
    let plant = Plant::of(alloc, problem)?;
    let lines = meant_lines(alloc, bytes)?;
    let text = warnings_text(alloc, &plant, &lines)?;
    let text = clean_or(text)?;
    Ok(text.into_bytes())
}
