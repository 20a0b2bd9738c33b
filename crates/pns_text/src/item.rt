//! The items of a line, each split once, and their faults.
ghost use Rattle.std.specs.Prelude.{◌≡◌, ◌==◌, ◌<◌, ◌+◌, IfOk, drop, find, length, option_map};
ghost use Rattle.std.specs.List.{list_any};
ghost use Rattle.text_lines.specs.problem_rules.Names.{is_among, has_double};
ghost use Rattle.text_lines.specs.text_rules.Field.{has_key, key_of, value_of, is_keyed};
ghost use Rattle.text_lines.specs.text_rules.Field.{kind_words, items_of};
ghost use Rattle.text_lines.specs.text_rules.Fault.{millionths, field_key, field_value, has_number};
ghost use Rattle.text_lines.specs.text_rules.Fault.{number_stands, value_stands, item_stands};
ghost use Rattle.text_lines.specs.text_rules.Fault.{has_unknown_key};
ghost use Rattle.text_lines.specs.text_rules.Fault.{keys_in, fields_fault};
ghost use Rattle.text_lines.specs.text_rules.Value.{value_at, item_fields};
ghost use Rattle.text_lines.specs.View.{texts};

use std::alloc::{AllocError, Global};
use std::marker::Model;
use text_lines::TextKind;
use text_lines::amount::read_amount;
use text_lines::field::{self, is_kind_word};
use text_lines::line::{has_colon, place_of, tail_of, trim};
use text_lines::name::{is_among, is_name};

/// An item of a line, split at its first equals sign, with the number that its value spells.
/// Contracts see its text.
#[derive(Drop)]
pub struct Item<'a> {
    text: &'a [u8],
    has_key: bool,
    is_kind_word: bool,
    key: &'a [u8],
    value: &'a [u8],
    amount: Result<i64, TextKind>,
}

impl<'a> Model for Item<'a> {
    ghost use Rattle.std.specs.Prelude.{ℕ, List};
    ghost use Rattle.pns_text.specs.Item.{IsCut};

    ghost Value = { List ℕ };

    ghost view = { λ item. item.text.now };

    ghost invariant = { λ item. IsCut item.text.now item.has_key item.is_kind_word item.key.now
        item.value.now item.amount };
}

// Whether a text has an equals sign, and the texts before and after the first.
#[tactic(auto, using(crate::proofs::ItemLines::has_place, crate::proofs::ItemLines::no_place))]
fn parted(text: &[u8]) -> (bool, &[u8], &[u8])
    ensures has { result.0 ≡ has_key text.now }
    ensures key { result.1.now ≡ key_of text.now }
    ensures value { result.2.now ≡ value_of text.now }
{
    let at = place_of(b'=', text);
    if at < text.len() {
        (true, trim(&text[..at]), trim(&text[at + 1..]))
    } else {
        (false, trim(&text[..at]), trim(&[]))
    }
}

impl<'a> Item<'a> {
    /// The item of this text.
    pub(crate) fn of(text: &'a [u8]) -> Item<'a>
        ensures { result ≡ text.now }
    {
        let (has_key, key, behind) = parted(text);
        let is_kind_word = is_kind_word(text);
        let value = if is_kind_word { text } else { behind };
        Item {
            text,
            has_key,
            is_kind_word,
            key,
            value,
            amount: read_amount(value),
        }
    }

    /// Whether the item is empty.
    pub(crate) fn is_empty(&self) -> bool
        ensures { result ≡ (length self.now == 0) }
    {
        self.text.is_empty()
    }

    /// Whether the item has a key, that is, an equals sign.
    pub(crate) fn has_key(&self) -> bool
        ensures { result ≡ has_key self.now }
    {
        self.has_key
    }

    /// The text before the first equals sign.
    pub(crate) fn key(&self) -> &'a [u8]
        ensures { result.now ≡ key_of self.now }
    {
        self.key
    }

    /// Whether the item is a kind word.
    pub(crate) fn is_kind_word(&self) -> bool
        ensures { result ≡ is_among kind_words self.now }
    {
        self.is_kind_word
    }

    /// Whether the item has a key or is a kind word.
    pub(crate) fn is_keyed(&self) -> bool
        ensures { result ≡ is_keyed self.now }
    {
        self.has_key() || self.is_kind_word()
    }

    /// The key. The key of a kind word is that of the default that it stands for.
    pub(crate) fn field_key(&self) -> &'a [u8]
        ensures { result.now ≡ field_key self.now }
    {
        if self.is_kind_word() {
            b"material_type".as_slice()
        } else {
            self.key()
        }
    }

    /// The value. The value of a kind word is the word.
    pub(crate) fn value(&self) -> &'a [u8]
        ensures { result.now ≡ field_value self.now }
    {
        self.value
    }

    /// The number that the value spells, which is 0 if it spells none.
    pub(crate) fn number(&self) -> i64
        ensures { result ≡ millionths (field_value self.now) }
    {
        self.amount.unwrap_or(0)
    }

    // Whether the value is a number.
    fn has_number(&self) -> bool
        ensures { result ≡ has_number self.now }
    {
        self.is_keyed() && self.field_key() != b"material_type".as_slice()
    }

    fn item_stands(&self, kind: TextKind) -> bool
        ensures { result ≡ item_stands kind self.now }
    {
        self.has_number() && value_stands(kind, self.field_key(), self.amount)
    }
}

// The text after the byte at this place.
fn behind(text: &[u8], at: usize) -> &[u8]
    requires { at < length text.now }
    ensures { result.now ≡ drop (at + 1) text.now }
{
    &text[at + 1..]
}

/// The texts between the commas after the colon; none if there is no colon. The line is split in
/// one pass.
pub(crate) fn items_of<'a>(alloc: Global, text: &'a [u8]) -> Result<Vec<Item<'a>>, AllocError>
    ensures { IfOk result (λ items. items.items ≡ items_of text.now) }
{
    let mut items = Vec::new(alloc);
    if !has_colon(text) {
        return Ok(items);
    }
    let mut rest = tail_of(text);
    loop {
        let at = place_of(b',', rest);
        items.push(Item::of(trim(&rest[..at])))?;
        if at >= rest.len() {
            return Ok(items);
        }
        rest = behind(rest, at);
    }
}

/// The first item of this key.
pub(crate) fn field_at<'b, 'a>(items: &'b [Item<'a>], key: &[u8]) -> Option<&'b Item<'a>>
    ensures { option_map (λ item. field_value item.now) result
        ≡ value_at key.now (item_fields items.now) }
{
    for item in items {
        if item.is_keyed() && item.field_key() == key {
            return Some(item);
        }
    }
    None
}

/// The kinds of fault that any number may have.
pub(crate) const NUMBER_KINDS: [TextKind; 4] = [
    TextKind::BadNumber,
    TextKind::TooFine,
    TextKind::TooLarge,
    TextKind::Negative,
];

/// Whether a number that was read so has this kind of fault, whatever its key.
pub(crate) fn number_stands(kind: TextKind, amount: Result<i64, TextKind>) -> bool
    ensures { result ≡ number_stands kind amount }
{
    match kind {
        TextKind::BadNumber => matches!(amount, Err(TextKind::BadNumber)),
        TextKind::TooFine => matches!(amount, Err(TextKind::TooFine)),
        TextKind::TooLarge => matches!(amount, Err(TextKind::TooLarge)),
        TextKind::Negative => amount.unwrap_or(0) < 0,
        TextKind::ZeroRate => amount.unwrap_or(0) == 0,
        _ => false,
    }
}

// The keys whose values may be below 0, or whose negative values have a kind of their own.
const MAY_BE_NEGATIVE: [&[u8]; 7] = [
    b"price",
    b"proportional_cost",
    b"investment_proportional_cost",
    b"material_price",
    b"operating_unit_proportional_cost",
    b"operating_unit_investment_proportional_cost",
    b"payout_period",
];

/// Whether a number that was read so has this kind of fault, given its key.
pub(crate) fn value_stands(kind: TextKind, key: &[u8], amount: Result<i64, TextKind>) -> bool
    ensures { result ≡ value_stands kind key.now amount }
{
    match kind {
        TextKind::Negative => number_stands(kind, amount) && !is_among(&MAY_BE_NEGATIVE, key),
        _ => number_stands(kind, amount),
    }
}

fn some_item_stands(kind: TextKind, items: &[Item<'_>]) -> bool
    ensures { result ≡ list_any (item_stands kind) items.now }
{
    items.iter().any(|item| item.item_stands(kind))
}

// The first of the kinds of fault that the value of an item has.
fn first_at_items(kinds: &[TextKind], items: &[Item<'_>]) -> Option<TextKind>
    ensures { result ≡ find (λ kind. list_any (item_stands kind) items.now) kinds.now }
{
    kinds
        .iter()
        .copied()
        .find(|kind| some_item_stands(*kind, items))
}

/// Whether an item is empty.
pub(crate) fn some_empty(items: &[Item<'_>]) -> bool
    ensures { result ≡ list_any (λ item. length item == 0) items.now }
{
    items.iter().any(|item| item.is_empty())
}

// Whether a key is there twice. For each item that has a key the items after it are searched. In a
// line without unknown keys there are few before the second of a pair.
fn some_double_key(items: &[Item<'_>]) -> bool
    ensures { result ≡ has_double (keys_in items.now) }
{
    for i in 0..items.len() {
        if items[i].is_keyed() && has_field(&items[i + 1..], items[i].field_key()) {
            return true;
        }
    }
    false
}

fn has_field(items: &[Item<'_>], key: &[u8]) -> bool
    ensures { result ≡ is_among (keys_in items.now) key.now }
{
    for item in items {
        if item.is_keyed() && item.field_key() == key {
            return true;
        }
    }
    false
}

// Whether an item has a key that is none of these.
fn some_unknown_key(keys: &[&[u8]], items: &[Item<'_>]) -> bool
    ensures { result ≡ list_any (has_unknown_key (texts keys.now)) items.now }
{
    items
        .iter()
        .any(|item| item.has_key() && !is_among(keys, item.key()))
}

/// The first kind of fault of the name or of the fields of a line of items, which may have these
/// keys.
pub(crate) fn fields_kind(keys: &[&[u8]], name: &[u8], items: &[Item<'_>]) -> Option<TextKind>
    ensures { result ≡ fields_fault (texts keys.now) name.now items.now }
{
    if !is_name(name) {
        return Some(TextKind::BadName);
    }
    if some_unknown_key(keys, items) {
        return Some(TextKind::UnknownKey);
    }
    if some_double_key(items) {
        return Some(TextKind::DoubleKey);
    }
    first_at_items(&NUMBER_KINDS, items)
}
