//! What is wrong with a token in its place of a line, and what it stands for.
ghost use Rattle.std.specs.Prelude.{◌≡◌, ◌≤◌, IfOk, IfErr, OnOk, Some, None, string_bytes};
ghost use Rattle.text_lines.specs.text_rules.Value.{kind_of};
ghost use Rattle.pns_problem.specs.Kind as kinds;
ghost use Rattle.text_lines.specs.View.{texts};
ghost use Rattle.text_lines.specs.declared.fault.LineFault.TheVariants as line;
ghost use Rattle.text_lines.specs.edit_rules.ScriptFault.{kind_number, lesser, least, some_token};
ghost use Rattle.text_lines.specs.edit_rules.ScriptFault.{number_fault};
ghost use Rattle.text_lines.specs.edit_rules.ScriptFault.{name_fault, kind_fault, amount_fault};
ghost use Rattle.text_lines.specs.edit_rules.ScriptFault.{bound_fault};
ghost use Rattle.text_lines.specs.edit_rules.ScriptFault.{rate_fault, place_of, place_fault};
ghost use Rattle.text_lines.specs.edit_rules.ScriptFault.{years_of};
ghost use Rattle.text_lines.specs.edit_rules.ScriptFault.{years_fault, names_fault};
ghost use Rattle.text_lines.specs.edit_rules.Line.{word_named};

use crate::fault::LineFault;
use pns_problem::Kind;
use std::alloc::{AllocError, Global};
use std::str;
use text_lines::amount::read_amount;
use text_lines::name::is_name;
use text_lines::whole_number::whole_within;
use text_lines::words::looked_up;
use text_lines::{EditKind, TextKind, Word};

const WORDS: [(&[u8], Word); 16] = [
    (b"price", Word::Price),
    (b"bounds", Word::Bounds),
    (b"kind", Word::Kind),
    (b"capacity", Word::Capacity),
    (b"fix", Word::Fix),
    (b"proportional", Word::Proportional),
    (b"rename_material", Word::RenameMaterial),
    (b"rename_unit", Word::RenameUnit),
    (b"add_material", Word::AddMaterial),
    (b"remove_material", Word::RemoveMaterial),
    (b"add_unit", Word::AddUnit),
    (b"remove_unit", Word::RemoveUnit),
    (b"exclude", Word::Exclude),
    (b"unexclude", Word::Unexclude),
    (b"investment", Word::Investment),
    (b"payout", Word::Payout),
];

/// The word that begins a line.
pub(crate) fn word_named(text: &[u8]) -> Option<Word>
    ensures { result ≡ word_named text.now }
{
    looked_up(&WORDS, text)
}

fn kind_number(kind: EditKind) -> u32
    ensures { result ≡ kind_number kind }
{
    kind as u32 + 1
}

/// The one of two kinds with the lesser number, if there are two.
pub(crate) fn lesser(first: Option<EditKind>, second: Option<EditKind>) -> Option<EditKind>
    ensures { result ≡ lesser first second }
{
    match (first, second) {
        (Some(one), Some(other)) if kind_number(other) < kind_number(one) => second,
        _ => first.or(second),
    }
}

/// The one of many kinds with the least number.
#[tactic(auto, using(crate::proofs::Least::lesser_assoc, std::proofs::lemmas::Grind::common_steps))]
pub(crate) fn least(kinds: &[Option<EditKind>]) -> Option<EditKind>
    ensures { result ≡ least kinds.now }
{
    let mut found = None;
    'looking: for kind in kinds {
        found = lesser(found, *kind);
    }
    found
}

/// Refuses a line for the least of the faults of its tokens, if one of them has a fault.
pub(crate) fn judge(faults: &[Option<EditKind>]) -> Result<(), LineFault>
    ensures ok { OnOk result (least faults.now ≡ None) }
    ensures fault { IfErr result
        (λ fault. (kind : EditKind) × (least faults.now ≡ Some kind) × (fault ≡ line.Kind kind)) }
{
    match least(faults) {
        Some(kind) => Err(LineFault::Kind(kind)),
        None => Ok(()),
    }
}

// A token without bytes makes a bad line.
fn some_token(token: &[u8], fault: Option<EditKind>) -> Option<EditKind>
    ensures { result ≡ some_token token.now fault }
{
    if token.is_empty() {
        Some(EditKind::BadLine)
    } else {
        fault
    }
}

/// What is wrong with a token in the place of a name.
pub(crate) fn name_fault(token: &[u8]) -> Option<EditKind>
    ensures { result ≡ name_fault token.now }
{
    some_token(token, (!is_name(token)).then_some(EditKind::BadName))
}

/// What is wrong with tokens in the places of names.
#[tactic(auto, using(crate::proofs::Least::lesser_assoc, std::proofs::lemmas::Grind::common_steps))]
pub(crate) fn names_fault(tokens: &[&[u8]]) -> Option<EditKind>
    ensures { result ≡ names_fault (texts tokens.now) }
{
    let mut found = None;
    'looking: for token in tokens {
        found = lesser(found, name_fault(*token));
    }
    found
}

/// What is wrong with a token in the place of a kind word.
pub(crate) fn kind_fault(token: &[u8]) -> Option<EditKind>
    ensures { result ≡ kind_fault token.now }
{
    if b"raw_material".as_slice() == token
        || b"intermediate".as_slice() == token
        || b"product".as_slice() == token
    {
        None
    } else {
        Some(EditKind::BadLine)
    }
}

/// The kind that a kind word stands for.
pub(crate) fn kind_of(word: &[u8]) -> Kind
    ensures { kinds.kind_of result ≡ kind_of word.now }
{
    if word == b"raw_material".as_slice() {
        Kind::RawMaterial
    } else if word == b"product".as_slice() {
        Kind::Product
    } else {
        Kind::Intermediate
    }
}

fn number_fault(kind: TextKind) -> EditKind
    ensures { result ≡ number_fault kind }
{
    match kind {
        TextKind::TooFine => EditKind::TooFine,
        TextKind::TooLarge => EditKind::TooLarge,
        _ => EditKind::BadNumber,
    }
}

/// What is wrong with a token in the place of an amount of either sign.
pub(crate) fn amount_fault(token: &[u8]) -> Option<EditKind>
    ensures { result ≡ amount_fault token.now }
{
    let fault = read_amount(token).err();
    some_token(token, fault.map(|kind| number_fault(kind)))
}

/// What is wrong with a token in the place of a bound or of a fixed cost.
pub(crate) fn bound_fault(token: &[u8]) -> Option<EditKind>
    ensures { result ≡ bound_fault token.now }
{
    let fault = match read_amount(token) {
        Ok(amount) => (amount < 0).then_some(EditKind::Sign),
        Err(kind) => Some(number_fault(kind)),
    };
    some_token(token, fault)
}

/// What is wrong with a token in the place of a rate.
pub(crate) fn rate_fault(token: &[u8]) -> Option<EditKind>
    ensures { result ≡ rate_fault token.now }
{
    let fault = match read_amount(token) {
        Ok(amount) if amount < 0 => Some(EditKind::Sign),
        Ok(amount) => (amount == 0).then_some(EditKind::BadTerms),
        Err(kind) => Some(number_fault(kind)),
    };
    some_token(token, fault)
}

/// What is wrong with a token that has to be a place.
pub(crate) fn place_fault(token: &[u8]) -> Option<EditKind>
    ensures { result ≡ place_fault token.now }
{
    let place = whole_within(4_294_967_295, token);
    some_token(token, place.is_none().then_some(EditKind::BadNumber))
}

/// The place, which is 0 if the token is none.
pub(crate) fn place_of(token: &[u8]) -> u32
    ensures { result ≡ place_of token.now }
{
    whole_within(4_294_967_295, token).unwrap_or(0) as u32
}

/// The payout period in years, which is 0 if the token is none.
pub(crate) fn years_of(token: &[u8]) -> u64
    ensures value { result ≡ years_of token.now }
    ensures few { result ≤ 100 }
{
    whole_within(100, token).unwrap_or(0) as u64
}

/// What is wrong with a token in the place of a payout period.
pub(crate) fn years_fault(token: &[u8]) -> Option<EditKind>
    ensures { result ≡ years_fault token.now }
{
    some_token(token, (years_of(token) < 1).then_some(EditKind::BadNumber))
}

/// The name as text. A name is ASCII. A token that is not UTF-8 has a fault, so it is never given.
pub(crate) fn name_text(name: &[u8]) -> Result<&str, AllocError>
    ensures { IfOk result (λ text. text.now ≡ name.now) }
{
    match str::from_utf8(name) {
        Ok(text) => Ok(text),
        Err(_) => Err(AllocError),
    }
}

/// The name as a string.
pub(crate) fn name_string(alloc: Global, name: &[u8]) -> Result<String, AllocError>
    ensures { IfOk result (λ s. string_bytes s ≡ name.now) }
{
    String::from_str(alloc, name_text(name)?)
}
