//! The form of a line of operating units.
ghost use Rattle.std.specs.Prelude.{◌≡◌, not};
ghost use Rattle.std.specs.List.{list_any};
ghost use Rattle.text_lines.specs.text_rules.Field.{has_key};
ghost use Rattle.text_lines.specs.text_rules.Fault.{unit_fault, is_beyond};

use crate::item::{Item, fields_kind};
use text_lines::TextKind;
use text_lines::name_set::NameSet;

const UNIT_KEYS: [&[u8]; 6] = [
    b"capacity_lower_bound",
    b"capacity_upper_bound",
    b"fix_cost",
    b"proportional_cost",
    b"investment_fix_cost",
    b"investment_proportional_cost",
];

fn some_without_key(items: &[Item<'_>]) -> bool
    ensures { result ≡ list_any (λ item. not (has_key item)) items.now }
{
    items.iter().any(|item| !item.has_key())
}

/// Whether the name is a new one when these names of units were seen and there may be no more.
pub(crate) fn is_beyond(seen: &NameSet<'_>, name: &[u8]) -> bool
    ensures { result ≡ is_beyond seen.now name.now }
{
    !seen.has(name) && seen.len() >= 128
}

/// The fault of form of the line of this name and these items, after lines of units of these names;
/// `seen` has all names of units.
pub(crate) fn unit_kind(
    names: &NameSet<'_>,
    seen: &NameSet<'_>,
    name: &[u8],
    items: &[Item<'_>],
) -> Option<TextKind>
    ensures { result ≡ unit_fault names.now seen.now name.now items.now }
{
    if some_without_key(items) {
        return Some(TextKind::BadLine);
    }
    if let Some(kind) = fields_kind(&UNIT_KEYS, name, items) {
        return Some(kind);
    }
    if names.has(name) {
        return Some(TextKind::DoubleUnit);
    }
    if is_beyond(seen, name) {
        return Some(TextKind::TooMany);
    }
    None
}
