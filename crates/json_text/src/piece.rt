//! Pieces of JSON text in one line.
ghost use Rattle.std.specs.Prelude.{◌≡◌, ◌++◌, ◌∷◌, [], IfOk, OnOk, decimal, flat_map, option_map};
ghost use Rattle.report_rules.specs.integer_laws.Fraction.{fraction_text};
ghost use Rattle.report_rules.specs.Json.{escaped, quoted, null, truth, parted, array, member};
ghost use Rattle.report_rules.specs.Json.{object};
ghost use Rattle.report_rules.specs.Value.{value_text, pair_of, number_json};

use crate::value::value_text;
use report_tables::Frac;
use std::alloc::{AllocError, Global};
use std::marker::Model;

/// A piece of JSON text, without line feeds.
#[derive(Drop)]
pub struct Json {
    bytes: Vec<u8>,
}

impl Model for Json {
    ghost use Rattle.std.specs.Prelude.{ℕ, List};

    ghost Value = { List ℕ };

    ghost view = { λ j. j.bytes.items };
}

impl Json {
    /// The bytes of the text.
    pub fn bytes(&self) -> &[u8]
        ensures { result.now ≡ self.now }
    {
        &self.bytes
    }

    /// The text unchanged.
    fn plain(alloc: Global, text: &str) -> Result<Json, AllocError>
        ensures { IfOk result (λ json. json ≡ text.now) }
    {
        let mut bytes = Vec::new(alloc);
        bytes.extend_from_slice(text.as_bytes())?;
        Ok(Json { bytes })
    }

    /// The word `null`.
    pub fn null(alloc: Global) -> Result<Json, AllocError>
        ensures { IfOk result (λ json. json ≡ null) }
    {
        Json::plain(alloc, "null")
    }

    /// The word for what holds or does not.
    pub fn truth(alloc: Global, holds: bool) -> Result<Json, AllocError>
        ensures { IfOk result (λ json. json ≡ truth holds) }
    {
        if holds {
            Json::plain(alloc, "true")
        } else {
            Json::plain(alloc, "false")
        }
    }

    /// A whole number.
    pub fn count(alloc: Global, number: u64) -> Result<Json, AllocError>
        ensures { IfOk result (λ json. json ≡ decimal number) }
    {
        let text = format!(in alloc; "{number}")?;
        Json::plain(alloc, &text)
    }

    /// A string of these words.
    pub fn string(alloc: Global, words: &str) -> Result<Json, AllocError>
        ensures { IfOk result (λ json. json ≡ quoted words.now) }
    {
        let mut bytes = Vec::new(alloc);
        push_quoted(&mut bytes, words)?;
        Ok(Json { bytes })
    }

    /// A number twice: in decimal with 17 digits, and exactly. If there is none, both are `null`.
    #[tactic(auto, unfolding(crate::specs::Unfolded::number_json))]
    pub fn number(alloc: Global, number: Option<Frac>) -> Result<Json, AllocError>
        ensures { IfOk result
            (λ json. json
            ≡ number_json (option_map (λ f. record { num = f.num; den = f.den }) number)) }
    {
        match number {
            None => Json::pair(alloc, &Json::null(alloc)?, &Json::null(alloc)?),
            Some(fraction) => Json::fraction(alloc, &fraction),
        }
    }

    fn fraction(alloc: Global, fraction: &Frac) -> Result<Json, AllocError>
        ensures { IfOk result
            (λ json. json
            ≡ pair_of (value_text (record { num = fraction.now.num; den = fraction.now.den }))
            (quoted (fraction_text fraction.now.num fraction.now.den))) }
    {
        let text = value_text(alloc, fraction)?;
        let value = Json::plain(alloc, &text)?;
        let text = fraction.text(alloc)?;
        let exact = Json::string(alloc, &text)?;
        Json::pair(alloc, &value, &exact)
    }

    fn pair(alloc: Global, value: &Json, exact: &Json) -> Result<Json, AllocError>
        ensures { IfOk result (λ json. json ≡ pair_of value.now exact.now) }
    {
        let members = [
            Json::member(alloc, "value", value)?,
            Json::member(alloc, "exact", exact)?,
        ];
        Json::object(alloc, &members)
    }

    /// The value under the key.
    pub fn member(alloc: Global, key: &str, value: &Json) -> Result<Json, AllocError>
        ensures { IfOk result (λ json. json ≡ member key.now value.now) }
    {
        let mut bytes = Vec::new(alloc);
        push_quoted(&mut bytes, key)?;
        bytes.extend_from_slice(b": ")?;
        bytes.extend_from_slice(value.bytes())?;
        Ok(Json { bytes })
    }

    /// The array of the values.
    pub fn array(alloc: Global, values: &[Json]) -> Result<Json, AllocError>
        ensures { IfOk result (λ json. json ≡ array values.now) }
    {
        let mut bytes = Vec::new(alloc);
        bytes.push(b'[')?;
        push_parted(&mut bytes, values)?;
        bytes.push(b']')?;
        Ok(Json { bytes })
    }

    /// The object of the members.
    pub fn object(alloc: Global, members: &[Json]) -> Result<Json, AllocError>
        ensures { IfOk result (λ json. json ≡ object members.now) }
    {
        let mut bytes = Vec::new(alloc);
        bytes.push(b'{')?;
        push_parted(&mut bytes, members)?;
        bytes.push(b'}')?;
        Ok(Json { bytes })
    }
}

/// Appends a byte of a string, with a backslash before a quotation mark or a backslash.
fn push_byte(text: &mut Vec<u8>, byte: u8) -> Result<(), AllocError>
    ensures { OnOk result (text.new.items ≡ text.old.items ++ escaped byte) }
{
    if byte == b'"' || byte == b'\\' {
        text.push(b'\\')?;
    }
    text.push(byte)?;
    Ok(())
}

fn push_bytes(text: &mut Vec<u8>, bytes: &[u8]) -> Result<(), AllocError>
    ensures { OnOk result (text.new.items ≡ text.old.items ++ flat_map escaped bytes.now) }
{
    'escaping: for byte in bytes {
        push_byte(text, *byte)?;
    }
    Ok(())
}

/// Appends the words as a string.
pub(crate) fn push_quoted(text: &mut Vec<u8>, words: &str) -> Result<(), AllocError>
    ensures { OnOk result (text.new.items ≡ text.old.items ++ quoted words.now) }
{
    text.push(b'"')?;
    push_bytes(text, words.as_bytes())?;
    text.push(b'"')?;
    Ok(())
}

/// Appends a comma, a space and a piece.
fn push_next(text: &mut Vec<u8>, piece: &[u8]) -> Result<(), AllocError>
    ensures { OnOk result (text.new.items ≡ text.old.items ++ 44 ∷ 32 ∷ piece.now) }
{
    text.extend_from_slice(b", ")?;
    text.extend_from_slice(piece)?;
    Ok(())
}

fn push_further(text: &mut Vec<u8>, pieces: &[Json]) -> Result<(), AllocError>
    ensures { OnOk result
        (text.new.items ≡ text.old.items ++ flat_map (λ next. 44 ∷ 32 ∷ next) pieces.now) }
{
    'parting: for piece in pieces {
        push_next(text, piece.bytes())?;
    }
    Ok(())
}

fn push_parted(text: &mut Vec<u8>, pieces: &[Json]) -> Result<(), AllocError>
    ensures { OnOk result (text.new.items ≡ text.old.items ++ parted pieces.now) }
{
    match pieces.split_first() {
        None => Ok(()),
        Some((first, rest)) => {
            text.extend_from_slice(first.bytes())?;
            push_further(text, rest)
        }
    }
}
