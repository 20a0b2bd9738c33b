//! The form of a line of materials.
ghost use Rattle.std.specs.Prelude.{◌≡◌};
ghost use Rattle.std.specs.List.{list_any};
ghost use Rattle.text_lines.specs.text_rules.Fault.{is_unknown_kind, material_fault};

use crate::item::{Item, fields_kind, some_empty};
use text_lines::TextKind;
use text_lines::name_set::NameSet;

const MATERIAL_KEYS: [&[u8]; 3] = [b"price", b"flow_rate_lower_bound", b"flow_rate_upper_bound"];

fn some_unknown_kind(items: &[Item<'_>]) -> bool
    ensures { result ≡ list_any is_unknown_kind items.now }
{
    items
        .iter()
        .any(|item| !item.has_key() && !item.is_kind_word())
}

/// The fault of form of the line of this name and these items, after lines of these names.
pub(crate) fn material_kind(
    names: &NameSet<'_>,
    name: &[u8],
    items: &[Item<'_>],
) -> Option<TextKind>
    ensures { result ≡ material_fault names.now name.now items.now }
{
    if some_empty(items) {
        return Some(TextKind::BadLine);
    }
    if let Some(kind) = fields_kind(&MATERIAL_KEYS, name, items) {
        return Some(kind);
    }
    if some_unknown_kind(items) {
        return Some(TextKind::UnknownKind);
    }
    if names.has(name) {
        return Some(TextKind::DoubleMaterial);
    }
    if names.len() >= 256 {
        return Some(TextKind::TooMany);
    }
    None
}
