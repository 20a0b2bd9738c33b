//! Nodes between quotes, and their looks.
ghost use Rattle.std.specs.Prelude.{◌≡◌, ◌++◌, OnOk, string_bytes};
ghost use Rattle.report_amounts.specs.pns_problem.Kind.{kind_of};
ghost use Rattle.report_amounts.specs.report_rules.Graph.{node, use_node, shape_words, grey_unless};
ghost use Rattle.report_amounts.specs.report_rules.Graph.{limit_look};

use report_amounts::Kind;
use std::alloc::AllocError;

/// The node of a name of a sort.
pub(crate) fn push_node(text: &mut String, word: &str, name: &str) -> Result<(), AllocError>
    ensures { OnOk result
        (string_bytes text.new ≡ string_bytes text.old ++ node word.now name.now) }
{
    text.push('"')?;
    text.push_str(word)?;
    text.push(' ')?;
    text.push_str(name)?;
    text.push('"')?;
    Ok(())
}

/// The node of a material at one of its users.
pub(crate) fn push_use_node(text: &mut String, material: &str, unit: &str) -> Result<(), AllocError>
    ensures { OnOk result
        (string_bytes text.new ≡ string_bytes text.old ++ use_node material.now unit.now) }
{
    text.push_str("\"use ")?;
    text.push_str(material)?;
    text.push(' ')?;
    text.push_str(unit)?;
    text.push('"')?;
    Ok(())
}

/// The shape of a material.
pub(crate) fn shape(kind: Kind) -> &'static str
    ensures { result.now ≡ shape_words (kind_of kind) }
{
    match kind {
        Kind::RawMaterial => "shape=invhouse",
        Kind::Intermediate => "shape=ellipse",
        Kind::Product => "shape=ellipse, peripheries=2",
    }
}

/// The colours of what may be left out of the network.
pub(crate) fn grey_unless(drawn: bool) -> &'static str
    ensures { result.now ≡ grey_unless drawn }
{
    if drawn {
        ""
    } else {
        ", color=gray75, fontcolor=gray60"
    }
}

/// The colours of a material of the network.
pub(crate) fn limit_look(limited: bool) -> &'static str
    ensures { result.now ≡ limit_look limited }
{
    if limited {
        ", style=filled, fillcolor=orange"
    } else {
        ""
    }
}
