//! The form of a line of rates.
ghost use Rattle.std.specs.Prelude.{◌≡◌, ◌++◌, Some, IfOk, find, not};
ghost use Rattle.std.specs.List.{list_any};
ghost use Rattle.text_lines.specs.problem_rules.Names.{is_name, is_among};
ghost use Rattle.text_lines.specs.text_rules.Fault.{names_of, rate_stands, doubled, term_fault};
ghost use Rattle.text_lines.specs.text_rules.Fault.{whole_fault};
ghost use Rattle.text_lines.specs.text_rules.Fault.{sides_fault};
ghost use Rattle.text_lines.specs.View.{texts};
ghost use Rattle.text_lines.specs.Terms.{terms_view, sides_view};
ghost use Rattle.pns_text.specs.Fault.{is_faulty};

use crate::item::number_stands;
use crate::unit_line::is_beyond;
use std::alloc::{AllocError, Global};
use text_lines::TextKind;
use text_lines::amount::{millionths, read_amount};
use text_lines::name::is_name;
use text_lines::name_set::{NameSet, once};
use text_lines::term::{Sides, Term};

const RATE_KINDS: [TextKind; 5] = [
    TextKind::BadNumber,
    TextKind::TooFine,
    TextKind::TooLarge,
    TextKind::Negative,
    TextKind::ZeroRate,
];

fn some_bad_name(terms: &[Term<'_>]) -> bool
    ensures { result ≡ list_any (λ term. not (is_name term.1)) (terms_view terms.now) }
{
    for term in terms {
        if !is_name(term.name) {
            return true;
        }
    }
    false
}

fn some_rate_stands(kind: TextKind, terms: &[Term<'_>]) -> bool
    ensures { result ≡ list_any (rate_stands kind) (terms_view terms.now) }
{
    for term in terms {
        if number_stands(kind, read_amount(term.number)) {
            return true;
        }
    }
    false
}

fn stands_at_rates(kind: TextKind, sides: &Sides<'_>) -> bool
    ensures { result ≡ list_any (rate_stands kind)
        ((sides_view sides.now).0 ++ (sides_view sides.now).1) }
{
    some_rate_stands(kind, &sides.inputs) || some_rate_stands(kind, &sides.outputs)
}

// The first of the kinds of fault that a rate has. The rates are searched kind by kind only if some
// rate is faulty, so that a good line is read once.
fn first_at_rates(kinds: &[TextKind], sides: &Sides<'_>) -> Option<TextKind>
    ensures { result
        ≡ find
        (λ kind. list_any (rate_stands kind)
        ((sides_view sides.now).0 ++ (sides_view sides.now).1))
        kinds.now }
{
    if !has_faulty(sides) {
        return None;
    }
    kinds
        .iter()
        .copied()
        .find(|kind| stands_at_rates(*kind, sides))
}

// Whether some number is not above 0.
fn some_faulty(terms: &[Term<'_>]) -> bool
    ensures { result ≡ list_any is_faulty (terms_view terms.now) }
{
    for term in terms {
        if millionths(term.number) <= 0 {
            return true;
        }
    }
    false
}

fn has_faulty(sides: &Sides<'_>) -> bool
    ensures { result ≡ list_any is_faulty ((sides_view sides.now).0 ++ (sides_view sides.now).1) }
{
    some_faulty(&sides.inputs) || some_faulty(&sides.outputs)
}

fn has_bad_name(sides: &Sides<'_>) -> bool
    ensures { result ≡ list_any (λ term. not (is_name term.1))
        ((sides_view sides.now).0 ++ (sides_view sides.now).1) }
{
    some_bad_name(&sides.inputs) || some_bad_name(&sides.outputs)
}

// The materials of the terms.
fn names_of<'a>(alloc: Global, terms: &[Term<'a>]) -> Result<Vec<&'a [u8]>, AllocError>
    ensures { IfOk result (λ names. texts names.items ≡ names_of (terms_view terms.now)) }
{
    let mut names = Vec::new(alloc);
    for term in terms {
        names.push(term.name)?;
    }
    Ok(names)
}

fn some_among(names: &NameSet<'_>, terms: &[Term<'_>]) -> bool
    ensures { result ≡ list_any (is_among names.now) (names_of (terms_view terms.now)) }
{
    for term in terms {
        if names.has(term.name) {
            return true;
        }
    }
    false
}

// The fault of a material that is there twice.
fn doubled<'a>(alloc: Global, sides: &Sides<'a>) -> Result<Option<TextKind>, AllocError>
    ensures { IfOk result
        (λ kind. kind ≡ doubled (sides_view sides.now).0 (sides_view sides.now).1) }
{
    let inputs = names_of(alloc, &sides.inputs)?;
    if once(alloc, &inputs)?.is_none() {
        return Ok(Some(TextKind::DoubleTerm));
    }
    let outputs = names_of(alloc, &sides.outputs)?;
    match once(alloc, &outputs)? {
        Some(names) => Ok(some_among(&names, &sides.inputs).then_some(TextKind::BothSides)),
        None => Ok(Some(TextKind::DoubleTerm)),
    }
}

// The fault of the name or of a single term.
fn term_kind(name: &[u8], sides: &Sides<'_>) -> Option<TextKind>
    ensures { result ≡ term_fault name.now (sides_view sides.now).0 (sides_view sides.now).1 }
{
    if !is_name(name) || has_bad_name(sides) {
        return Some(TextKind::BadName);
    }
    first_at_rates(&RATE_KINDS, sides)
}

// The fault of the whole line, which follows those of the terms.
fn whole_kind(
    names: &NameSet<'_>,
    seen: &NameSet<'_>,
    name: &[u8],
    sides: &Sides<'_>,
) -> Option<TextKind>
    ensures { result ≡ whole_fault names.now seen.now name.now (sides_view sides.now).0
        (sides_view sides.now).1 }
{
    if sides.inputs.is_empty() || sides.outputs.is_empty() {
        return Some(TextKind::EmptySide);
    }
    if names.has(name) {
        return Some(TextKind::DoubleRates);
    }
    if is_beyond(seen, name) {
        return Some(TextKind::TooMany);
    }
    None
}

/// The fault of form of the line of this name and these sides, after lines of rates of these names;
/// `seen` has all names of units.
pub(crate) fn sides_kind<'a>(
    alloc: Global,
    names: &NameSet<'_>,
    seen: &NameSet<'_>,
    name: &[u8],
    sides: &Sides<'a>,
) -> Result<Option<TextKind>, AllocError>
    ensures { IfOk result
        (λ kind. kind ≡ sides_fault names.now seen.now name.now (Some (sides_view sides.now))) }
{
    if let Some(kind) = term_kind(name, sides) {
        return Ok(Some(kind));
    }
    if let Some(kind) = doubled(alloc, sides)? {
        return Ok(Some(kind));
    }
    Ok(whole_kind(names, seen, name, sides))
}
