//! The meaning of the lines that have one: which names they cite, and whether bounds are in order.
ghost use Rattle.std.specs.Prelude.{◌≡◌, IfOk, not};
ghost use Rattle.std.specs.List.{list_any};
ghost use Rattle.text_lines.specs.problem_rules.Names.{is_among};
ghost use Rattle.text_lines.specs.text_rules.Line.{heads_at};
ghost use Rattle.text_lines.specs.text_rules.Fault.{names_of};
ghost use Rattle.text_lines.specs.text_rules.Value.{item_fields, is_unit, unit_kind, has_unknown};
ghost use Rattle.text_lines.specs.text_rules.Value.{rates_kind};
ghost use Rattle.text_lines.specs.text_rules.Value.{exclusion_kind, line_meaning, first_meaning};
ghost use Rattle.text_lines.specs.View.{texts};
ghost use Rattle.text_lines.specs.Terms.{terms_view, sides_view};

use crate::cut::{Cut, Kept};
use crate::item::Item;
use crate::settings::Settings;
use std::alloc::{AllocError, Global};
use std::marker::Model;
use text_lines::line::head_of;
use text_lines::name_set::NameSet;
use text_lines::term::{Sides, Term};
use text_lines::{Section, TextKind};

/// The names of all materials, units and lines of rates.
#[derive(Drop)]
pub struct Names<'a> {
    pub materials: NameSet<'a>,
    pub units: NameSet<'a>,
    pub rates: NameSet<'a>,
}

impl<'a> Model for Names<'a> {
    ghost use Rattle.text_lines.specs.text_rules.Value as rules;

    ghost Value = { rules.Names };

    ghost view = { λ names. record {
      materials = names.materials;
      units = names.units;
      rates =
          names.rates;
    } };
}

/// The names of the lines of units, in order.
pub(crate) fn unit_heads<'a>(alloc: Global, lines: &[Kept<'a>]) -> Result<Vec<&'a [u8]>, AllocError>
    ensures { IfOk result (λ heads. texts heads.items ≡ heads_at Section.OperatingUnits lines.now) }
{
    let mut heads = Vec::new(alloc);
    for line in lines {
        if let Some(_) = line.unit_items() {
            heads.push(line.head())?;
        }
    }
    Ok(heads)
}

impl<'a> Names<'a> {
    fn is_unit(&self, item: &[u8]) -> bool
        ensures { result ≡ is_unit self.now item.now }
    {
        self.units.has(item) || self.rates.has(item)
    }
}

fn unit_meaning(
    settings: &Settings,
    names: &Names<'_>,
    name: &[u8],
    items: &[Item<'_>],
) -> Option<TextKind>
    ensures { result ≡ unit_kind settings.now names.now name.now (item_fields items.now) }
{
    if settings.is_unit_turned(items) {
        return Some(TextKind::LowAboveHigh);
    }
    if names.rates.has(name) {
        return None;
    }
    Some(TextKind::NoRates)
}

fn some_unknown(materials: &NameSet<'_>, terms: &[Term<'_>]) -> bool
    ensures { result ≡ list_any (λ name. not (is_among materials.now name))
        (names_of (terms_view terms.now)) }
{
    for term in terms {
        if !materials.has(term.name) {
            return true;
        }
    }
    false
}

fn some_unknown_of(materials: &NameSet<'_>, sides: &Sides<'_>) -> bool
    ensures { result ≡ has_unknown materials.now (sides_view sides.now) }
{
    some_unknown(materials, &sides.inputs) || some_unknown(materials, &sides.outputs)
}

fn rates_meaning(
    settings: &Settings,
    names: &Names<'_>,
    name: &[u8],
    sides: &Sides<'_>,
) -> Option<TextKind>
    ensures { result ≡ rates_kind settings.now names.now name.now (sides_view sides.now) }
{
    if !names.units.has(name) && settings.is_unit_turned(&[]) {
        return Some(TextKind::LowAboveHigh);
    }
    some_unknown_of(&names.materials, sides).then_some(TextKind::UnknownMaterial)
}

fn some_no_unit(names: &Names<'_>, items: &[&[u8]]) -> bool
    ensures { result ≡ list_any (λ item. not (is_unit names.now item)) (texts items.now) }
{
    for item in items {
        if !names.is_unit(*item) {
            return true;
        }
    }
    false
}

fn exclusion_meaning(names: &Names<'_>, members: &[&[u8]]) -> Option<TextKind>
    ensures { result ≡ exclusion_kind names.now (texts members.now) }
{
    some_no_unit(names, members).then_some(TextKind::UnknownUnit)
}

#[tactic(auto, using(crate::proofs::CutLines::meaning_cut))]
fn line_meaning(settings: &Settings, names: &Names<'_>, line: &Kept<'_>) -> Option<TextKind>
    ensures { result ≡ line_meaning settings.now names.now line.now }
{
    match &line.cut {
        Cut::Default => None,
        Cut::Material(items) => settings
            .is_material_turned(items)
            .then_some(TextKind::LowAboveHigh),
        Cut::OperatingUnit(items) => unit_meaning(settings, names, line.head, items),
        Cut::Flows(sides) => rates_meaning(settings, names, line.head, sides),
        Cut::Exclusion(members) => exclusion_meaning(names, members),
    }
}

/// The first line that has a fault of meaning, with its kind.
pub(crate) fn first_meaning(
    settings: &Settings,
    names: &Names<'_>,
    lines: &[Kept<'_>],
) -> Option<(u32, TextKind)>
    ensures { result ≡ first_meaning settings.now names.now lines.now }
{
    for line in lines {
        if let Some(kind) = line_meaning(settings, names, line) {
            return Some((line.number(), kind));
        }
    }
    None
}
