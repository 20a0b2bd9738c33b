//! The lines of arcs.
ghost use Rattle.std.specs.Prelude.{◌≡◌, ◌++◌, ◌∷◌, [], ◌<◌, ◌≤ℤ◌, ℕ, true, Some, pos};
ghost use Rattle.std.specs.Prelude.{unsigned_abs, codes, OnOk, string_bytes, length, map};
ghost use Rattle.report_amounts.specs.integer_laws.Range.{InRange};
ghost use Rattle.report_amounts.specs.number_sets.Sets.{has};
ghost use Rattle.report_amounts.specs.problem_rules.Problem.{terms_have};
ghost use Rattle.report_amounts.specs.pns_problem.Kind.{kind_of};
ghost use Rattle.report_amounts.specs.pns_problem.Printing.{printed};
ghost use Rattle.report_amounts.specs.tree_rules.Claim.{IsFeasible, size_in};
ghost use Rattle.report_amounts.specs.report_rules.Drawn.{built_role, is_unit_limited, role_of};
ghost use Rattle.report_amounts.specs.report_rules.Drawn.{flow_text};
ghost use Rattle.report_amounts.specs.report_rules.Drawn.{greatest_flow, width_words};
ghost use Rattle.report_amounts.specs.report_rules.Graph.{rate_label, flow_label, look_in};
ghost use Rattle.report_amounts.specs.report_rules.Graph.{arc_look};
ghost use Rattle.report_amounts.specs.report_rules.Graph.{arc_tip};
ghost use Rattle.report_amounts.specs.report_rules.Graph.{arc_end, plain_line, use_look, use_text};
ghost use Rattle.report_amounts.specs.report_rules.Graph.{use_arc};
ghost use Rattle.report_amounts.specs.report_rules.Graph.{use_line, input_line, output_line};
ghost use Rattle.graph_text.specs.Kept.{picture_of};

use crate::greatest::moved;
use crate::nodes::{grey_unless, push_node, push_use_node, shape};
use crate::numbers::{push_flow, push_told, width};
use crate::picture::Picture;
use crate::role::{is_built, is_in};
use report_amounts::{Kind, Network, Term, material_of, size_at};
use std::alloc::AllocError;

/// The rate of an arc, if it is not 1.
fn push_rate(text: &mut String, rate: i64) -> Result<(), AllocError>
    ensures { OnOk result
        (string_bytes text.new ≡ string_bytes text.old ++ rate_label rate) }
{
    if rate.unsigned_abs() == 1_000_000 {
        return Ok(());
    }
    push_told(text, ", label=\" ", rate)?;
    text.push('"')?;
    Ok(())
}

/// How wide the arc of this flow is.
fn push_width(text: &mut String, picture: &Picture<'_>, flow: i128) -> Result<(), AllocError>
    requires { InRange flow }
    ensures { OnOk result
        (string_bytes text.new ≡ string_bytes text.old
        ++ (codes ", weight=4, penwidth="
        ++ width_words (greatest_flow picture.now.problem picture.now.network)
        (unsigned_abs flow))) }
{
    text.push_str(", weight=4, penwidth=")?;
    text.push_str(width(picture.greatest(), flow.unsigned_abs()))?;
    Ok(())
}

/// The label of a flow in 10^-12 over d.
fn push_label(text: &mut String, flow: i128, d: i128) -> Result<(), AllocError>
    requires in_range { InRange flow }
    requires positive { pos 1 ≤ℤ d }
    ensures { OnOk result
        (string_bytes text.new ≡ string_bytes text.old
        ++ (codes ", label=\" " ++ (flow_text flow (unsigned_abs d) ++ 34 ∷ []))) }
{
    text.push_str(", label=\" ")?;
    push_flow(text, flow, d)?;
    text.push('"')?;
    Ok(())
}

/// The flow of an arc of a unit that runs.
fn push_moved(
    text: &mut String,
    picture: &Picture<'_>,
    network: &Network,
    u: u32,
    j: u32,
) -> Result<(), AllocError>
    requires unit { u < length picture.now.problem.units }
    requires in_network { has network.now.units u ≡ true }
    requires feasible { IsFeasible picture.now.problem network.now }
    ensures { OnOk result
        (string_bytes text.new ≡ string_bytes text.old
        ++ flow_label (picture_of picture.now) network.now u j) }
{
    network.is_sized();
    let flow = moved(picture.problem(), network, u, j);
    push_width(text, picture, flow)?;
    push_label(text, flow, network.d())
}

/// The look of an arc of a unit that is left out.
fn push_left_out(text: &mut String) -> Result<(), AllocError>
    ensures { OnOk result
        (string_bytes text.new ≡ string_bytes text.old ++ codes ", color=gray75") }
{
    text.push_str(", color=gray75")?;
    Ok(())
}

/// The look of an arc of a unit of the network.
fn push_look_of(
    text: &mut String,
    picture: &Picture<'_>,
    network: &Network,
    u: u32,
    j: u32,
) -> Result<(), AllocError>
    requires unit { u < length picture.now.problem.units }
    requires in_network { has network.now.units u ≡ true }
    requires feasible { IsFeasible picture.now.problem network.now }
    ensures { OnOk result
        (string_bytes text.new ≡ string_bytes text.old
        ++ look_in
        (built_role (size_in network.now u)
        (is_unit_limited picture.now.problem network.now u))
        (flow_label (picture_of picture.now) network.now u j)) }
{
    let size = size_at(network, u);
    if size == 0 {
        text.push_str(", weight=4, style=dashed")
    } else {
        push_moved(text, picture, network, u, j)
    }
}

fn push_look_in(
    text: &mut String,
    picture: &Picture<'_>,
    network: &Network,
    u: u32,
    j: u32,
) -> Result<(), AllocError>
    requires unit { u < length picture.now.problem.units }
    requires feasible { IsFeasible picture.now.problem network.now }
    ensures { OnOk result
        (string_bytes text.new ≡ string_bytes text.old
        ++ look_in (role_of picture.now.problem (Some network.now) u)
        (flow_label (picture_of picture.now) network.now u j)) }
{
    if is_in(picture.problem(), network, u) {
        push_look_of(text, picture, network, u, j)
    } else {
        push_left_out(text)
    }
}

/// Appends the look of the arc of a term, with its label.
fn push_look(
    text: &mut String,
    picture: &Picture<'_>,
    u: u32,
    term: &Term,
) -> Result<(), AllocError>
    requires { u < length picture.now.problem.units }
    ensures { OnOk result
        (string_bytes text.new ≡ string_bytes text.old
        ++ arc_look (picture_of picture.now) picture.now.network u term.now) }
{
    match picture.network() {
        None => push_rate(text, term.rate),
        Some(network) => push_look_in(text, picture, network, u, term.material),
    }
}

/// Appends what a pointer on the arc of a term shows.
fn push_tip(text: &mut String, picture: &Picture<'_>, u: u32, term: &Term) -> Result<(), AllocError>
    requires { u < length picture.now.problem.units }
    ensures { OnOk result
        (string_bytes text.new ≡ string_bytes text.old
        ++ arc_tip (picture_of picture.now) u term.now) }
{
    text.push_str(picture.problem().unit_name(u))?;
    push_told(text, ": ", term.rate)?;
    text.push(' ')?;
    text.push_str(picture.problem().material_name(term.material))?;
    Ok(())
}

/// Appends the rest of the line of the arc of a term, after its two nodes.
fn push_end(text: &mut String, picture: &Picture<'_>, u: u32, term: &Term) -> Result<(), AllocError>
    requires { u < length picture.now.problem.units }
    ensures { OnOk result
        (string_bytes text.new ≡ string_bytes text.old
        ++ arc_end (picture_of picture.now) u term.now) }
{
    text.push_str(" [tooltip=\"")?;
    push_tip(text, picture, u, term)?;
    text.push('"')?;
    push_look(text, picture, u, term)?;
    text.push_str("];")?;
    Ok(())
}

/// Appends the line of an arc from a material that is drawn once.
fn push_plain_input(
    text: &mut String,
    picture: &Picture<'_>,
    u: u32,
    term: &Term,
) -> Result<(), AllocError>
    requires { u < length picture.now.problem.units }
    ensures { OnOk result
        (string_bytes text.new ≡ string_bytes text.old
        ++ plain_line (picture_of picture.now) u term.now) }
{
    let problem = picture.problem();
    text.push_str("  ")?;
    push_node(text, "material", problem.material_name(term.material))?;
    text.push_str(" -> ")?;
    push_node(text, "unit", problem.unit_name(u))?;
    push_end(text, picture, u, term)
}

/// Appends the line of an arc from the node of a material at the unit.
fn push_use_arc(
    text: &mut String,
    picture: &Picture<'_>,
    u: u32,
    term: &Term,
) -> Result<(), AllocError>
    requires { u < length picture.now.problem.units }
    ensures { OnOk result
        (string_bytes text.new ≡ string_bytes text.old
        ++ use_arc (picture_of picture.now) u term.now) }
{
    let problem = picture.problem();
    let unit = problem.unit_name(u);
    text.push_str("  ")?;
    push_use_node(text, problem.material_name(term.material), unit)?;
    text.push_str(" -> ")?;
    push_node(text, "unit", unit)?;
    push_end(text, picture, u, term)
}

/// Appends the look of a material of this kind at the unit.
fn push_use_look(
    text: &mut String,
    picture: &Picture<'_>,
    u: u32,
    kind: Kind,
) -> Result<(), AllocError>
    requires { u < length picture.now.problem.units }
    ensures { OnOk result
        (string_bytes text.new ≡ string_bytes text.old
        ++ use_look (picture_of picture.now) u (kind_of kind)) }
{
    text.push_str(shape(kind))?;
    text.push_str(grey_unless(is_built(picture, u)))?;
    Ok(())
}

/// Appends a material that is drawn at the unit.
fn push_use(text: &mut String, picture: &Picture<'_>, u: u32, j: u32) -> Result<(), AllocError>
    requires unit { u < length picture.now.problem.units }
    requires material { j < length picture.now.problem.materials }
    ensures { OnOk result
        (string_bytes text.new ≡ string_bytes text.old
        ++ use_text (picture_of picture.now) u j) }
{
    let problem = picture.problem();
    let name = problem.material_name(j);
    let material = material_of(problem, j);
    text.push_str("  ")?;
    push_use_node(text, name, problem.unit_name(u))?;
    text.push_str(" [label=\"")?;
    text.push_str(name)?;
    text.push_str("\", fontsize=9, ")?;
    push_use_look(text, picture, u, material.kind)?;
    text.push_str("];")?;
    Ok(())
}

/// Appends a material that is drawn at the unit, and the arc from it.
fn push_use_input(
    text: &mut String,
    picture: &Picture<'_>,
    u: u32,
    term: &Term,
) -> Result<(), AllocError>
    requires unit { u < length picture.now.problem.units }
    requires material { term.now.material < length picture.now.problem.materials }
    ensures { OnOk result
        (string_bytes text.new ≡ string_bytes text.old
        ++ use_line (picture_of picture.now) u term.now) }
{
    push_use(text, picture, u, term.material)?;
    push_use_arc(text, picture, u, term)
}

/// Appends the line of an arc from a material that the unit uses.
fn push_input(
    text: &mut String,
    picture: &Picture<'_>,
    u: u32,
    term: &Term,
) -> Result<(), AllocError>
    requires unit { u < length picture.now.problem.units }
    requires material { term.now.material < length picture.now.problem.materials }
    ensures { OnOk result
        (string_bytes text.new ≡ string_bytes text.old
        ++ input_line (picture_of picture.now) u term.now) }
{
    if picture.is_spread(term.material) {
        push_use_input(text, picture, u, term)
    } else {
        push_plain_input(text, picture, u, term)
    }
}

/// Appends the line of an arc to a material that the unit makes.
fn push_output(
    text: &mut String,
    picture: &Picture<'_>,
    u: u32,
    term: &Term,
) -> Result<(), AllocError>
    requires { u < length picture.now.problem.units }
    ensures { OnOk result
        (string_bytes text.new ≡ string_bytes text.old
        ++ output_line (picture_of picture.now) u term.now) }
{
    let problem = picture.problem();
    text.push_str("  ")?;
    push_node(text, "unit", problem.unit_name(u))?;
    text.push_str(" -> ")?;
    push_node(text, "material", problem.material_name(term.material))?;
    push_end(text, picture, u, term)
}

/// Appends the lines of the arcs from materials that the unit uses.
pub(crate) fn push_inputs(
    text: &mut String,
    picture: &Picture<'_>,
    u: u32,
    terms: &[Term],
) -> Result<(), AllocError>
    requires unit { u < length picture.now.problem.units }
    requires known { (j : ℕ) → terms_have terms.now j ≡ true
        → j < length picture.now.problem.materials }
    ensures { OnOk result
        (string_bytes text.new ≡ string_bytes text.old
        ++ printed (map (input_line (picture_of picture.now) u) terms.now)) }
{
    'printing: for term in terms {
        push_input(text, picture, u, term)?;
        text.push('\n')?;
    }
    Ok(())
}

/// Appends the lines of the arcs to materials that the unit makes.
pub(crate) fn push_outputs(
    text: &mut String,
    picture: &Picture<'_>,
    u: u32,
    terms: &[Term],
) -> Result<(), AllocError>
    requires { u < length picture.now.problem.units }
    ensures { OnOk result
        (string_bytes text.new ≡ string_bytes text.old
        ++ printed (map (output_line (picture_of picture.now) u) terms.now)) }
{
    'printing: for term in terms {
        push_output(text, picture, u, term)?;
        text.push('\n')?;
    }
    Ok(())
}
