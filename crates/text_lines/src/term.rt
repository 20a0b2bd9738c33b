//! The terms of a line of rates, on both sides of its arrow.
ghost use Rattle.std.specs.Prelude.{◌≡◌, ◌≤◌, IfOk, length, map, option_map};
ghost use Rattle.std.specs.List.{slice_split, position_or_len};
ghost use Rattle.std.specs.Str.{bytes_eq};
ghost use Rattle.edit_rules.specs.text_rules.Field.{tokens_of, terms_of, sides_of};
ghost use Rattle.text_lines.specs.View.{texts};
ghost use Rattle.edit_rules.specs.text_rules.Term.{sides_read};
ghost use Rattle.text_lines.specs.Terms.{terms_view, terms_read, both_read, only_two, sides_view};
ghost use Rattle.text_lines.specs.Terms.{begins, is_arrow};

use crate::line::tail_of;
use std::alloc::{AllocError, Global};

/// A term: a material with the number before it, which is `1` if there is none.
#[derive(Clone, Copy)]
pub struct Term<'a> {
    pub number: &'a [u8],
    pub name: &'a [u8],
}

/// The terms on both sides of the arrow.
#[derive(Drop)]
pub struct Sides<'a> {
    pub inputs: Vec<Term<'a>>,
    pub outputs: Vec<Term<'a>>,
}

fn tokens_of<'a>(alloc: Global, text: &'a [u8]) -> Result<Vec<&'a [u8]>, AllocError>
    ensures { IfOk result (λ tokens. texts tokens.items ≡ tokens_of text.now) }
{
    text.split(|c| *c == b' ' || *c == b'\t')
        .filter(|token| !token.is_empty())
        .collect(alloc)
}

// The first place of the mark among the tokens, or the number of tokens if none is the mark.
fn place_of(mark: &[u8], tokens: &[&[u8]]) -> usize
    ensures within { result ≤ length tokens.now }
    ensures place { result ≡ position_or_len (λ token. bytes_eq token mark.now) (texts tokens.now) }
{
    for (i, token) in tokens.iter().enumerate() {
        if *token == mark {
            return i;
        }
    }
    tokens.len()
}

// The term of the tokens: a name, or a number and a name.
fn term_of<'a>(tokens: &[&'a [u8]]) -> Option<Term<'a>>
    ensures { option_map (λ term. (term.number.now, term.name.now)) result
        ≡ begins (texts tokens.now) }
{
    match tokens {
        [] => None,
        [name] => Some(Term {
            number: b"1".as_slice(),
            name: *name,
        }),
        [number, name] => Some(Term {
            number: *number,
            name: *name,
        }),
        _ => None,
    }
}

// The terms of a side, or `None` if one of them has no token or more than two.
fn terms_of<'a>(alloc: Global, tokens: &[&'a [u8]]) -> Result<Option<Vec<Term<'a>>>, AllocError>
    ensures { IfOk result
        (λ found. option_map (λ terms. terms_view terms.items) found
        ≡ terms_read (terms_of (texts tokens.now))) }
{
    let mut terms = Vec::new(alloc);
    if tokens.is_empty() {
        return Ok(Some(terms));
    }
    let mut rest = tokens;
    loop {
        let at = place_of(b"+", rest);
        match term_of(&rest[..at]) {
            Some(term) => terms.push(term)?,
            None => return Ok(None),
        }
        if at == rest.len() {
            return Ok(Some(terms));
        }
        rest = &rest[at + 1..];
    }
}

// The tokens on both sides of the only arrow.
fn cut_sides<'b, 'a>(tokens: &'b [&'a [u8]]) -> Option<(&'b [&'a [u8]], &'b [&'a [u8]])>
    ensures { option_map (λ cut. (texts cut.0.now, texts cut.1.now)) result
        ≡ only_two (slice_split is_arrow (texts tokens.now)) }
{
    let at = place_of(b"=>", tokens);
    if at == tokens.len() {
        return None;
    }
    let right = &tokens[at + 1..];
    if place_of(b"=>", right) < right.len() {
        return None;
    }
    Some((&tokens[..at], right))
}

/// The terms on both sides of the arrow among the tokens; `None` if there is not exactly one arrow,
/// or if a term is neither a name nor a number and a name.
pub fn sides_in<'a>(alloc: Global, tokens: &[&'a [u8]]) -> Result<Option<Sides<'a>>, AllocError>
    ensures { IfOk result
        (λ found. option_map sides_view found
        ≡ sides_read (map terms_of (slice_split is_arrow (texts tokens.now)))) }
{
    match cut_sides(tokens) {
        Some((left, right)) => read_sides(alloc, left, right),
        None => Ok(None),
    }
}

/// The terms on both sides of the arrow after the line's colon; `None` if there is not exactly one
/// arrow, or if a term is neither a name nor a number and a name.
pub fn sides_of<'a>(alloc: Global, text: &'a [u8]) -> Result<Option<Sides<'a>>, AllocError>
    ensures { IfOk result (λ found. option_map sides_view found ≡ sides_read (sides_of text.now)) }
{
    let tokens = tokens_of(alloc, tail_of(text))?;
    sides_in(alloc, &tokens)
}

// The terms on both sides, or `None` if a term does not have its form.
fn read_sides<'a>(
    alloc: Global,
    left: &[&'a [u8]],
    right: &[&'a [u8]],
) -> Result<Option<Sides<'a>>, AllocError>
    ensures { IfOk result
        (λ found. option_map sides_view found
        ≡ both_read (terms_read (terms_of (texts left.now)))
        (terms_read (terms_of (texts right.now)))) }
{
    let Some(inputs) = terms_of(alloc, left)? else {
        return Ok(None);
    };
    let Some(outputs) = terms_of(alloc, right)? else {
        return Ok(None);
    };
    Ok(Some(Sides { inputs, outputs }))
}
