//! The form of a line of exclusions.
ghost use Rattle.std.specs.Prelude.{◌≡◌, ◌==◌, IfOk, length, not};
ghost use Rattle.std.specs.List.{list_any};
ghost use Rattle.text_lines.specs.problem_rules.Names.{is_name};
ghost use Rattle.text_lines.specs.text_rules.Fault.{exclusion_fault};
ghost use Rattle.text_lines.specs.View.{texts};

use std::alloc::{AllocError, Global};
use text_lines::TextKind;
use text_lines::line::has_colon;
use text_lines::name::is_name;
use text_lines::name_set::{NameSet, once};

fn some_empty(items: &[&[u8]]) -> bool
    ensures { result ≡ list_any (λ item. length item == 0) (texts items.now) }
{
    for item in items {
        if item.is_empty() {
            return true;
        }
    }
    false
}

fn some_bad_name(items: &[&[u8]]) -> bool
    ensures { result ≡ list_any (λ item. not (is_name item)) (texts items.now) }
{
    for item in items {
        if !is_name(*item) {
            return true;
        }
    }
    false
}

/// The fault of form of the line of this name and these items, after lines of these names.
pub(crate) fn exclusion_kind(
    alloc: Global,
    names: &NameSet<'_>,
    text: &[u8],
    name: &[u8],
    items: &[&[u8]],
) -> Result<Option<TextKind>, AllocError>
    ensures { IfOk result
        (λ kind. kind ≡ exclusion_fault names.now text.now name.now (texts items.now)) }
{
    if !has_colon(text) || some_empty(items) {
        return Ok(Some(TextKind::BadLine));
    }
    if !is_name(name) || some_bad_name(items) {
        return Ok(Some(TextKind::BadName));
    }
    if names.len() >= 64 {
        return Ok(Some(TextKind::TooMany));
    }
    if names.has(name) {
        return Ok(Some(TextKind::DoubleExclusion));
    }
    if once(alloc, items)?.is_none() {
        return Ok(Some(TextKind::DoubleMember));
    }
    if items.len() < 2 {
        return Ok(Some(TextKind::FewMembers));
    }
    Ok(None)
}
