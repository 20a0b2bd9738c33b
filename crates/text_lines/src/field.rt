//! The items of a line, each with a key and a value or a kind word.
ghost use Rattle.std.specs.Prelude.{◌≡◌, ◌==◌, ◌≤◌, IfOk, length, map};
ghost use Rattle.std.specs.List.{list_any, slice_split};
ghost use Rattle.std.specs.Str.{byte};
ghost use Rattle.edit_rules.specs.problem_rules.Names.{is_among};
ghost use Rattle.edit_rules.specs.text_rules.Blanks.{trim};
ghost use Rattle.edit_rules.specs.text_rules.Field.{items_of, has_key, key_of, value_of, keyed};
ghost use Rattle.edit_rules.specs.text_rules.Field.{is_keyed};
ghost use Rattle.edit_rules.specs.text_rules.Field.{kind_words};
ghost use Rattle.text_lines.specs.View.{texts};

use crate::line::{has_colon, place_of, tail_of, trim};
use std::alloc::{AllocError, Global};

// The texts between the commas.
fn parts<'a>(alloc: Global, text: &'a [u8]) -> Result<Vec<&'a [u8]>, AllocError>
    ensures { IfOk result
        (λ parts. texts parts.items ≡ map trim (slice_split (λ c. c == byte ",") text.now)) }
{
    text.split(|c| *c == b',')
        .map(|part| trim(part))
        .collect(alloc)
}

/// The texts between the commas after the colon; none if there is no colon.
pub fn items_of<'a>(alloc: Global, text: &'a [u8]) -> Result<Vec<&'a [u8]>, AllocError>
    ensures { IfOk result (λ items. texts items.items ≡ items_of text.now) }
{
    if has_colon(text) {
        parts(alloc, tail_of(text))
    } else {
        Ok(Vec::new(alloc))
    }
}

/// Whether the item has a key, that is, an equals sign.
pub fn has_key(item: &[u8]) -> bool
    ensures { result ≡ has_key item.now }
{
    item.iter().any(|c| *c == b'=')
}

/// The text before the first equals sign.
pub fn key_of(item: &[u8]) -> &[u8]
    ensures { result.now ≡ key_of item.now }
{
    trim(&item[..place_of(b'=', item)])
}

/// The text after the first equals sign.
pub fn value_of(item: &[u8]) -> &[u8]
    ensures within { length result.now ≤ length item.now }
    ensures value { result.now ≡ value_of item.now }
{
    let at = place_of(b'=', item);
    if at < item.len() {
        trim(&item[at + 1..])
    } else {
        trim(&[])
    }
}

/// Whether the item is a kind word.
pub fn is_kind_word(item: &[u8]) -> bool
    ensures { result ≡ is_among kind_words item.now }
{
    b"raw_material".as_slice() == item
        || b"intermediate".as_slice() == item
        || b"product".as_slice() == item
}

/// Whether the item has a key or is a kind word.
pub fn is_keyed(item: &[u8]) -> bool
    ensures { result ≡ is_keyed item.now }
{
    has_key(item) || is_kind_word(item)
}

/// The key of an item. The key of a kind word is that of the default that it stands for.
pub fn field_key(item: &[u8]) -> &[u8]
    ensures { result.now ≡ (keyed item.now).0 }
{
    if is_kind_word(item) {
        b"material_type".as_slice()
    } else {
        key_of(item)
    }
}

/// The value of an item. The value of a kind word is the word.
pub fn field_value(item: &[u8]) -> &[u8]
    ensures within { length result.now ≤ length item.now }
    ensures value { result.now ≡ (keyed item.now).1 }
{
    if is_kind_word(item) {
        item
    } else {
        value_of(item)
    }
}
