//! The terms on both sides of a new unit.
ghost use Rattle.std.specs.Prelude.{◌≡◌, IfOk, map};
ghost use Rattle.std.specs.List.{list_any};
ghost use Rattle.text_lines.specs.problem_rules.Names.{is_among};
ghost use Rattle.text_lines.specs.Once.{once};
ghost use Rattle.text_lines.specs.Terms.{term_view, terms_view, sides_view};
ghost use Rattle.text_lines.specs.edit_rules.Term.{term_fault, terms_fault, materials_of};
ghost use Rattle.text_lines.specs.edit_rules.Term.{are_bad_sides};
ghost use Rattle.text_lines.specs.edit_rules.Term.{sides_fault, term_read};

use crate::term::NamedTerm;
use crate::token::{lesser, name_fault, name_string, rate_fault};
use std::alloc::{AllocError, Global};
use text_lines::EditKind;
use text_lines::amount::millionths;
use text_lines::name_set::{NameSet, once};
use text_lines::term::{Sides, Term};

fn term_fault(term: &Term<'_>) -> Option<EditKind>
    ensures { result ≡ term_fault (term_view term.now) }
{
    lesser(rate_fault(term.number), name_fault(term.name))
}

/// What is wrong with the single terms of a side.
#[tactic(auto, using(crate::proofs::Least::lesser_assoc, std::proofs::lemmas::Grind::common_steps))]
pub(crate) fn terms_fault(terms: &[Term<'_>]) -> Option<EditKind>
    ensures { result ≡ terms_fault (terms_view terms.now) }
{
    let mut found = None;
    'looking: for term in terms {
        found = lesser(found, term_fault(term));
    }
    found
}

// The materials of a side, if none is there twice.
fn materials_once<'a>(alloc: Global, terms: &[Term<'a>]) -> Result<Option<NameSet<'a>>, AllocError>
    ensures { IfOk result (λ found. found ≡ once (materials_of (terms_view terms.now))) }
{
    let mut names = Vec::new(alloc);
    'listing: for term in terms {
        names.push(term.name)?;
    }
    once(alloc, &names)
}

fn some_among(names: &NameSet<'_>, terms: &[Term<'_>]) -> bool
    ensures { result ≡ list_any (is_among names.now) (materials_of (terms_view terms.now)) }
{
    'looking: for term in terms {
        if names.has(term.name) {
            return true;
        }
    }
    false
}

// Whether a side has no terms, or a material is there twice.
fn are_bad_sides(alloc: Global, sides: &Sides<'_>) -> Result<bool, AllocError>
    ensures { IfOk result
        (λ bad. bad ≡ are_bad_sides (sides_view sides.now).0 (sides_view sides.now).1) }
{
    if sides.inputs.is_empty() || sides.outputs.is_empty() {
        return Ok(true);
    }
    if materials_once(alloc, &sides.inputs)?.is_none() {
        return Ok(true);
    }
    match materials_once(alloc, &sides.outputs)? {
        Some(names) => Ok(some_among(&names, &sides.inputs)),
        None => Ok(true),
    }
}

/// What is wrong with the sides of a unit as a whole.
pub(crate) fn sides_fault(alloc: Global, sides: &Sides<'_>) -> Result<Option<EditKind>, AllocError>
    ensures { IfOk result
        (λ kind. kind ≡ sides_fault (sides_view sides.now).0 (sides_view sides.now).1) }
{
    Ok(are_bad_sides(alloc, sides)?.then_some(EditKind::BadTerms))
}

/// The terms of a side by name.
pub(crate) fn named_terms(alloc: Global, terms: &[Term<'_>]) -> Result<Vec<NamedTerm>, AllocError>
    ensures { IfOk result (λ named. named.items ≡ map term_read (terms_view terms.now)) }
{
    let mut named = Vec::new(alloc);
    'naming: for term in terms {
        named.push(NamedTerm {
            name: name_string(alloc, term.name)?,
            rate: millionths(term.number),
        })?;
    }
    Ok(named)
}
