//! Tokens of sets of units.
ghost use Rattle.std.specs.Prelude.{◌≡◌, ◌<◌, ◌≤◌, ℕ, List, [], ◌∷◌, ◌↔◌, IfOk, IfErr, IfSome};
ghost use Rattle.std.specs.Prelude.{IfNone, IsOk, string_bytes};
ghost use Rattle.pgraph.specs.pns_rules.Tokens.{digit, token_of, IsDigit, IsToken};

use pgraph::UnitSet;
use std::alloc::{AllocError, Global};

/// A text that is not 32 digits of `0123456789abcdef`.
#[derive(Clone, Copy, PartialEq, Eq, Debug, Drop)]
pub struct BadForm;

/// The token of the set: its mask as 32 hexadecimal digits. Unit u counts 2^u.
pub fn print_token(alloc: Global, set: UnitSet) -> Result<String, AllocError>
    ensures { IfOk result (λ text. string_bytes text ≡ token_of set) }
{
    let bits = set.bits();
    let mut text = String::new(alloc);
    for i in 0..32u32 {
        text.push_str(digit_text(((bits >> (124 - 4 * i)) % 16) as u8))?;
    }
    Ok(text)
}

/// Reads what `print_token` prints, and nothing else. It answers `BadForm` exactly if the text does
/// not have the form of a token. It takes no memory.
pub fn read_token(text: &str) -> Result<UnitSet, BadForm>
    ensures token { IfOk result (λ set. text.now ≡ token_of set) }
    ensures form { IsOk result ↔ IsToken text.now }
    ensures other { IfErr result (λ _. (s : List ℕ) → text.now ≡ token_of s → ⊥) }
{
    let bytes = text.as_bytes();
    if bytes.len() != 32 {
        return Err(BadForm);
    }
    let mut value = 0u128;
    for i in 0..32 {
        let Some(d) = digit_value(bytes[i]) else {
            return Err(BadForm);
        };
        value = value * 16 + d as u128;
    }
    Ok(UnitSet::from_bits(value))
}

fn digit_text(d: u8) -> &'static str
    requires { d < 16 }
    ensures { result.now ≡ digit d ∷ [] }
{
    match d {
        0 => "0",
        1 => "1",
        2 => "2",
        3 => "3",
        4 => "4",
        5 => "5",
        6 => "6",
        7 => "7",
        8 => "8",
        9 => "9",
        10 => "a",
        11 => "b",
        12 => "c",
        13 => "d",
        14 => "e",
        _ => "f",
    }
}

fn digit_value(b: u8) -> Option<u8>
    ensures some { IfSome result (λ d. (d < 16) × (b ≡ digit d)) }
    ensures none { IfNone result (IsDigit b → ⊥) }
{
    if b'0' <= b && b <= b'9' {
        Some(b - b'0')
    } else if b'a' <= b && b <= b'f' {
        Some(b - b'a' + 10)
    } else {
        None
    }
}
