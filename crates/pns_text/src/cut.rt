//! Lines that a walk keeps, each split once.
use crate::item::Item;
use std::marker::Model;
use text_lines::Section;
use text_lines::term::Sides;

/// What follows the name in a line without a fault of form.
#[derive(Drop)]
pub enum Cut<'a> {
    /// A line of defaults, which is not split.
    Default,
    /// The items of a material.
    Material(Vec<Item<'a>>),
    /// The items of an operating unit.
    OperatingUnit(Vec<Item<'a>>),
    /// The terms on both sides of a line of rates.
    Flows(Sides<'a>),
    /// The members of an exclusion, each once.
    Exclusion(Vec<&'a [u8]>),
}

/// A line that a walk keeps: it has a meaning, and no fault of form. Contracts see it as the placed
/// line from which it was made.
#[derive(Drop)]
pub struct Kept<'a> {
    pub(crate) number: u32,
    pub(crate) text: &'a [u8],
    pub(crate) head: &'a [u8],
    pub(crate) cut: Cut<'a>,
}

impl<'a> Model for Kept<'a> {
    ghost use Rattle.text_lines.specs.text_rules.Line.{Placed};
    ghost use Rattle.pns_text.specs.Cut.{IsKept, line_cut};

    ghost Value = { Placed };

    ghost view = { λ line. line_cut line.number line.text.now line.cut };

    ghost invariant = { λ line. IsKept line.text.now line.head.now line.cut };
}

impl<'a> Kept<'a> {
    ghost use Rattle.std.specs.Prelude.{◌≡◌, false, true, IfSome, is_some};
    ghost use Rattle.text_lines.specs.problem_rules.Names.{is_name, has_double};
    ghost use Rattle.text_lines.specs.text_rules.Field.{items_of};
    ghost use Rattle.text_lines.specs.View.{texts};
    ghost use Rattle.text_lines.specs.Terms.{sides_view};
    ghost use Rattle.text_lines.specs.text_rules.Term.{pairs_at};
    ghost use Rattle.text_lines.specs.text_rules.Line.{head_of, is_at};

    /// Whether it is a line of defaults.
    pub(crate) fn is_default(&self) -> bool
        ensures { result ≡ is_at Section.Defaults self.now }
    {
        matches!(&self.cut, Cut::Default)
    }

    /// The number of the line, counted from 1.
    pub(crate) fn number(&self) -> u32
        ensures { result ≡ self.now.number }
    {
        self.number
    }

    /// The whole line.
    pub(crate) fn text(&self) -> &'a [u8]
        ensures { result.now ≡ self.now.text }
    {
        self.text
    }

    /// The name before the colon.
    pub(crate) fn head(&self) -> &'a [u8]
        ensures { result.now ≡ head_of self.now.text }
    {
        self.head
    }

    /// The items, if it is a line of materials.
    pub(crate) fn material_items(&self) -> Option<&[Item<'a>]>
        ensures some { IfSome result (λ items. items.now ≡ items_of self.now.text) }
        ensures named { IfSome result (λ _. is_name (head_of self.now.text) ≡ true) }
        ensures at { is_some result ≡ is_at Section.Materials self.now }
    {
        match &self.cut {
            Cut::Material(items) => Some(items),
            _ => None,
        }
    }

    /// The items, if it is a line of operating units.
    pub(crate) fn unit_items(&self) -> Option<&[Item<'a>]>
        ensures some { IfSome result (λ items. items.now ≡ items_of self.now.text) }
        ensures named { IfSome result (λ _. is_name (head_of self.now.text) ≡ true) }
        ensures at { is_some result ≡ is_at Section.OperatingUnits self.now }
    {
        match &self.cut {
            Cut::OperatingUnit(items) => Some(items),
            _ => None,
        }
    }

    /// The sides, if it is a line of rates.
    pub(crate) fn sides(&self) -> Option<&Sides<'a>>
        ensures some { IfSome result (λ sides. sides_view sides.now ≡ pairs_at self.now.text) }
        ensures named { IfSome result (λ _. is_name (head_of self.now.text) ≡ true) }
        ensures at { is_some result ≡ is_at Section.Rates self.now }
    {
        match &self.cut {
            Cut::Flows(sides) => Some(sides),
            _ => None,
        }
    }

    /// The members, each once, if it is an exclusion.
    pub(crate) fn members(&self) -> Option<&[&'a [u8]]>
        ensures some { IfSome result (λ members. texts members.now ≡ items_of self.now.text) }
        ensures once { IfSome result (λ members. has_double (texts members.now) ≡ false) }
        ensures named { IfSome result (λ _. is_name (head_of self.now.text) ≡ true) }
        ensures at { is_some result ≡ is_at Section.Exclusions self.now }
    {
        match &self.cut {
            Cut::Exclusion(members) => Some(members),
            _ => None,
        }
    }
}
