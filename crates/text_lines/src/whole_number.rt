//! Whole numbers.
ghost use Rattle.std.specs.Prelude.{◌≡◌, ◌==◌, ◌&&◌, ◌||◌, ◌<◌, ◌≤◌, ◌+◌, ◌-◌, ◌*◌, IfSome, IfNone};
ghost use Rattle.std.specs.Prelude.{Some, None, not, length, nat_le, slice_index, if◌then◌else◌};
ghost use Rattle.std.specs.List.{list_all};
ghost use Rattle.std.specs.Char.{is_ascii_digit};
ghost use Rattle.std.specs.Str.{byte};
ghost use Rattle.edit_rules.specs.text_rules.Amount.{number_of};
ghost use Rattle.edit_rules.specs.ScriptFault.{is_whole, whole_within};

use crate::amount::short_digits;

fn are_digits(token: &[u8]) -> bool
    ensures { result ≡ list_all is_ascii_digit token.now }
{
    token.iter().all(|c| c.is_ascii_digit())
}

// Whether there is a byte, and the first of several is not a zero.
fn has_no_zero_in_front(token: &[u8]) -> bool
    ensures { result
        ≡ (nat_le 1 (length token.now) &&
        (length token.now == 1 || not (slice_index token.now 0 == byte "0"))) }
{
    !token.is_empty() && (token.len() == 1 || token[0] != b'0')
}

// The number that digits spell, if it is within the limit.
#[tactic(auto, using(crate::proofs::Whole::past_digit))]
fn number_within(limit: u128, digits: &[u8]) -> Option<u128>
    ensures { result
        ≡ (if nat_le (number_of digits.now) limit then Some (number_of digits.now) else None) }
{
    let mut number: u128 = 0;
    'reading: for c in digits {
        if c.is_ascii_digit() {
            let unit = (*c - b'0') as u128;
            if unit > limit {
                return None;
            }
            if number > (limit - unit) / 10 {
                return None;
            }
            number = 10 * number + unit;
        }
    }
    Some(number)
}

/// The whole number that the token spells, without a leading zero, if it is within the limit. Most
/// have few digits, and are read in 64 bits.
#[tactic(auto, using(crate::proofs::Whole::short))]
pub fn whole_within(limit: u128, token: &[u8]) -> Option<u128>
    ensures value { result ≡ whole_within limit token.now }
    ensures within { IfSome result (λ number. number ≤ limit) }
{
    if !has_no_zero_in_front(token) {
        return None;
    }
    let (number, _, rest) = short_digits(0, 18, token);
    if rest.is_empty() {
        let number = number as u128;
        return (number <= limit).then_some(number);
    }
    if are_digits(token) {
        number_within(limit, token)
    } else {
        None
    }
}
