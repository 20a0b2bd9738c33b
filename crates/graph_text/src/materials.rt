//! The lines of materials.
ghost use Rattle.std.specs.Prelude.{◌≡◌, ◌++◌, ◌<◌, ◌≤◌, ℕ, true, Some, OnOk, IfSome, option_map};
ghost use Rattle.std.specs.Prelude.{string_bytes, length, map};
ghost use Rattle.report_amounts.specs.number_sets.Sets.{has, IsSet};
ghost use Rattle.report_amounts.specs.problem_rules.Problem.{material_at};
ghost use Rattle.report_amounts.specs.pns_problem.Kind.{kind_of};
ghost use Rattle.report_amounts.specs.pns_problem.Printing.{printed};
ghost use Rattle.report_amounts.specs.pns_rules.Shape.{shape_of};
ghost use Rattle.report_amounts.specs.pns_rules.Structure.{mats};
ghost use Rattle.report_amounts.specs.flow_rules.Net.{net_of, materials_of};
ghost use Rattle.report_amounts.specs.flow_rules.Flows.{balance};
ghost use Rattle.report_amounts.specs.tree_rules.Claim.{IsFeasible, size_in};
ghost use Rattle.report_amounts.specs.report_rules.Drawn.{material_flow, net_label};
ghost use Rattle.report_amounts.specs.report_rules.Graph.{material_tip, drawn_look, material_line};
ghost use Rattle.graph_text.specs.Kept.{picture_of};

use crate::limits::is_material_limited;
use crate::nodes::{grey_unless, limit_look, push_node, shape};
use crate::numbers::{push_net, push_told};
use crate::picture::Picture;
use report_amounts::{MatSet, Material, Network, Problem, flow_at, material_of};
use std::alloc::AllocError;

/// Whether the material is one of the network's.
fn is_in(picture: &Picture<'_>, network: &Network, j: u32) -> bool
    requires material { j < length picture.now.problem.materials }
    requires feasible { IsFeasible picture.now.problem network.now }
    ensures value { result ≡ mats (shape_of picture.now.problem) (has network.now.units) j }
    ensures material { result ≡ true
        → has (materials_of (net_of picture.now.problem) (has network.now.units)) j ≡ true }
{
    let materials = picture.graph().materials(network.units());
    materials.has(j)
}

/// Appends the amount of a material of the network that comes in or goes out.
fn push_net_of(
    text: &mut String,
    problem: &Problem,
    network: &Network,
    j: u32,
) -> Result<(), AllocError>
    requires known { j < length problem.now.materials }
    requires material { has (materials_of (net_of problem.now) (has network.now.units)) j ≡ true }
    requires feasible { IsFeasible problem.now network.now }
    ensures { OnOk result
        (string_bytes text.new ≡ string_bytes text.old
        ++ net_label (material_at problem.now j).price
        (balance (net_of problem.now) (has network.now.units) (size_in network.now) j)
        network.now.d) }
{
    network.is_sized();
    let material = material_of(problem, j);
    let flow = flow_at(problem, network, j);
    push_net(text, material.price, flow, network.d())
}

fn push_flow_in(
    text: &mut String,
    picture: &Picture<'_>,
    network: &Network,
    j: u32,
) -> Result<(), AllocError>
    requires material { j < length picture.now.problem.materials }
    requires feasible { IsFeasible picture.now.problem network.now }
    ensures { OnOk result
        (string_bytes text.new ≡ string_bytes text.old
        ++ material_flow picture.now.problem (Some network.now) j) }
{
    if is_in(picture, network, j) {
        push_net_of(text, picture.problem(), network, j)
    } else {
        Ok(())
    }
}

/// Appends the amount of the material that comes in or goes out, if a network is given.
fn push_flow(text: &mut String, picture: &Picture<'_>, j: u32) -> Result<(), AllocError>
    requires { j < length picture.now.problem.materials }
    ensures { OnOk result
        (string_bytes text.new ≡ string_bytes text.old
        ++ material_flow picture.now.problem picture.now.network j) }
{
    match picture.network() {
        None => Ok(()),
        Some(network) => push_flow_in(text, picture, network, j),
    }
}

fn look_in(picture: &Picture<'_>, network: &Network, j: u32) -> &'static str
    requires material { j < length picture.now.problem.materials }
    requires feasible { IsFeasible picture.now.problem network.now }
    ensures { result.now ≡ drawn_look picture.now.problem (Some network.now) j }
{
    if is_in(picture, network, j) {
        limit_look(is_material_limited(picture.problem(), network, j))
    } else {
        grey_unless(false)
    }
}

/// The colours of the material.
fn drawn_look(picture: &Picture<'_>, j: u32) -> &'static str
    requires { j < length picture.now.problem.materials }
    ensures { result.now ≡ drawn_look picture.now.problem picture.now.network j }
{
    match picture.network() {
        None => "",
        Some(network) => look_in(picture, network, j),
    }
}

/// Appends what a pointer on the material shows.
fn push_tip(text: &mut String, material: &Material) -> Result<(), AllocError>
    ensures { OnOk result
        (string_bytes text.new ≡ string_bytes text.old ++ material_tip material.now) }
{
    text.push_str(&material.name)?;
    push_told(text, ": price ", material.price)?;
    push_told(text, ", from ", material.lower)?;
    push_told(text, " to ", material.upper)
}

/// Appends the line of a material.
fn push_material(text: &mut String, picture: &Picture<'_>, j: u32) -> Result<(), AllocError>
    requires { j < length picture.now.problem.materials }
    ensures { OnOk result
        (string_bytes text.new ≡ string_bytes text.old
        ++ material_line (picture_of picture.now) j) }
{
    let problem = picture.problem();
    let name = problem.material_name(j);
    let material = material_of(problem, j);
    text.push_str("  ")?;
    push_node(text, "material", name)?;
    text.push_str(" [label=\"")?;
    text.push_str(name)?;
    push_flow(text, picture, j)?;
    text.push_str("\", tooltip=\"")?;
    push_tip(text, material)?;
    text.push_str("\", ")?;
    text.push_str(shape(material.kind))?;
    text.push_str(drawn_look(picture, j))?;
    text.push_str("];")?;
    Ok(())
}

/// Appends the lines of the materials of a set.
pub(crate) fn push_materials(
    text: &mut String,
    picture: &Picture<'_>,
    materials: MatSet,
) -> Result<(), AllocError>
    requires known { (j : ℕ) → has materials j ≡ true → j < length picture.now.problem.materials }
    ensures { OnOk result
        (string_bytes text.new ≡ string_bytes text.old
        ++ printed (map (material_line (picture_of picture.now)) materials)) }
{
    for j in materials {
        push_material(text, picture, j)?;
        text.push('\n')?;
    }
    Ok(())
}
