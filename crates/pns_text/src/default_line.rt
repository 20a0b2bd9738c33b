//! The form of a line of defaults.
ghost use Rattle.std.specs.Prelude.{◌≡◌, ◌&&◌, find, not};
ghost use Rattle.std.specs.Str.{bytes_eq};
ghost use Rattle.text_lines.specs.problem_rules.Names.{is_among};
ghost use Rattle.text_lines.specs.text_rules.Field.{key_of, value_of, kind_words, material_type};
ghost use Rattle.text_lines.specs.text_rules.Field.{payout_period};
ghost use Rattle.text_lines.specs.text_rules.Fault.{is_payout, millionths, default_fault};
ghost use Rattle.text_lines.specs.text_rules.Fault.{default_number_stands};
ghost use Rattle.text_lines.specs.View.{texts};

use crate::item::{NUMBER_KINDS, value_stands};
use text_lines::TextKind;
use text_lines::amount::{millionths, read_amount};
use text_lines::field::{has_key, is_kind_word, key_of, value_of};
use text_lines::name::is_among;

const DEFAULT_KEYS: [&[u8]; 11] = [
    b"material_type",
    b"payout_period",
    b"material_price",
    b"material_flow_rate_lower_bound",
    b"material_flow_rate_upper_bound",
    b"operating_unit_capacity_lower_bound",
    b"operating_unit_capacity_upper_bound",
    b"operating_unit_fix_cost",
    b"operating_unit_proportional_cost",
    b"operating_unit_investment_fix_cost",
    b"operating_unit_investment_proportional_cost",
];

fn number_stands(kind: TextKind, text: &[u8]) -> bool
    ensures { result ≡ default_number_stands kind text.now }
{
    let amount = read_amount(value_of(text));
    key_of(text) != b"material_type".as_slice() && value_stands(kind, key_of(text), amount)
}

// The first of the kinds of fault that the value has, if it is a number.
fn first_at_number(kinds: &[TextKind], text: &[u8]) -> Option<TextKind>
    ensures { result ≡ find (λ kind. default_number_stands kind text.now) kinds.now }
{
    kinds
        .iter()
        .copied()
        .find(|kind| number_stands(*kind, text))
}

fn is_unknown_kind(text: &[u8]) -> bool
    ensures { result
        ≡ (bytes_eq (key_of text.now) material_type && not
        (is_among kind_words (value_of text.now))) }
{
    key_of(text) == b"material_type".as_slice() && !is_kind_word(value_of(text))
}

// A whole number of years from 1 to 100.
fn is_payout(text: &[u8]) -> bool
    ensures { result ≡ is_payout (millionths text.now) }
{
    let amount = millionths(text);
    0 < amount && amount % 1_000_000 == 0 && amount <= 100_000_000
}

fn is_bad_payout(text: &[u8]) -> bool
    ensures { result
        ≡ (bytes_eq (key_of text.now) payout_period && not
        (is_payout (millionths (value_of text.now)))) }
{
    key_of(text) == b"payout_period".as_slice() && !is_payout(value_of(text))
}

/// The fault of form of a line of defaults, after lines of these keys.
pub(crate) fn default_fault(keys: &[&[u8]], text: &[u8]) -> Option<TextKind>
    ensures { result ≡ default_fault (texts keys.now) text.now }
{
    if !has_key(text) {
        return Some(TextKind::BadLine);
    }
    if !is_among(&DEFAULT_KEYS, key_of(text)) {
        return Some(TextKind::UnknownKey);
    }
    if is_among(keys, key_of(text)) {
        return Some(TextKind::DoubleKey);
    }
    if let Some(kind) = first_at_number(&NUMBER_KINDS, text) {
        return Some(kind);
    }
    if is_unknown_kind(text) {
        return Some(TextKind::UnknownKind);
    }
    if is_bad_payout(text) {
        return Some(TextKind::BadPayout);
    }
    None
}
