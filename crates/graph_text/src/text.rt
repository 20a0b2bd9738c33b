//! The whole text.
ghost use Rattle.std.specs.Prelude.{◌≡◌, ◌++◌, ◌∷◌, ◌<◌, ◌^◌, ℕ, [], true, Some, OnOk, IfOk};
ghost use Rattle.std.specs.Prelude.{IfSome};
ghost use Rattle.std.specs.Prelude.{option_map, string_bytes, length};
ghost use Rattle.report_amounts.specs.number_sets.Sets.{has};
ghost use Rattle.report_amounts.specs.pns_problem.Printing.{printed};
ghost use Rattle.report_amounts.specs.tree_rules.Claim.{IsFeasible};
ghost use Rattle.report_amounts.specs.report_rules.Graph.{sort_words, total_lines};
ghost use Rattle.report_amounts.specs.report_rules.Graph.{total_line};
ghost use Rattle.report_amounts.specs.report_rules.Graph.{head_lines, legend, rate_legend};
ghost use Rattle.report_amounts.specs.report_rules.Graph.{flow_legend};
ghost use Rattle.report_amounts.specs.report_rules.Graph.{picture_lines, graph_lines, empty_lines};
ghost use Rattle.graph_text.specs.Kept.{picture_of};

use crate::list::push_list;
use crate::materials::push_materials;
use crate::numbers::push_cost;
use crate::picture::Picture;
use crate::units::push_units;
use report_amounts::{Network, Problem, Site, UnitSet};
use std::alloc::{AllocError, Global};

fn sort_words(cost: i128) -> &'static str
    ensures { result.now ≡ sort_words cost }
{
    if cost < 0 {
        " (an income)\";"
    } else {
        " (a cost)\";"
    }
}

/// What the shapes mean, and what the arcs and the colours of a plant or of a network mean.
const LEGEND: &str =
    "  legend [shape=note, fontsize=9, label=\"house: raw material; double line: product; box: unit\\l\"\n    + \"drawn at each user: a material with more than four\\l\"\n";

const RATE_LEGEND: &str = "    + \"at an arc: its rate, if not 1\\l\"];\n";

const FLOW_LEGEND: &str =
    "    + \"at an arc: its flow; wider above 1/10, 1/4 and 1/2 of the greatest\\l\"\n    + \"in, out: bought, left over; at its price: the money for it\\l\"\n    + \"orange: at a limit; grey: left out; broken line: size 0\\l\"];\n";

/// Appends the legend of a plant.
fn push_rate_legend(text: &mut String) -> Result<(), AllocError>
    ensures { OnOk result
        (string_bytes text.new ≡ string_bytes text.old ++ printed (legend ++ rate_legend)) }
{
    text.push_str(LEGEND)?;
    text.push_str(RATE_LEGEND)?;
    Ok(())
}

/// Appends the legend of a plant with a network.
fn push_flow_legend(text: &mut String) -> Result<(), AllocError>
    ensures { OnOk result
        (string_bytes text.new ≡ string_bytes text.old
        ++ (printed legend ++ printed flow_legend)) }
{
    text.push_str(LEGEND)?;
    text.push_str(FLOW_LEGEND)?;
    Ok(())
}

/// Appends the line of the total.
fn push_total_line(
    text: &mut String,
    problem: &Problem,
    network: &Network,
) -> Result<(), AllocError>
    ensures { OnOk result
        (string_bytes text.new ≡ string_bytes text.old
        ++ printed (total_line problem.now network.now ∷ [])) }
{
    text.push_str("  label=\"claimed total in one year: ")?;
    push_cost(text, problem, network)?;
    text.push_str(sort_words(network.cost()))?;
    text.push('\n')?;
    Ok(())
}

/// Appends the legend and the line of the total.
fn push_total_of(text: &mut String, problem: &Problem, network: &Network) -> Result<(), AllocError>
    ensures { OnOk result
        (string_bytes text.new ≡ string_bytes text.old
        ++ printed (total_lines problem.now (Some network.now))) }
{
    push_flow_legend(text)?;
    push_total_line(text, problem, network)
}

fn push_total(text: &mut String, picture: &Picture<'_>) -> Result<(), AllocError>
    ensures { OnOk result
        (string_bytes text.new ≡ string_bytes text.old
        ++ printed (total_lines picture.now.problem picture.now.network)) }
{
    match picture.network() {
        None => push_rate_legend(text),
        Some(network) => push_total_of(text, picture.problem(), network),
    }
}

/// The lines with which each text begins.
const HEAD: &str =
    "digraph pns {\n  rankdir=TB; nodesep=0.2; ranksep=0.35; labelloc=t; fontname=\"Helvetica\"; fontsize=14;\n  node [fontname=\"Helvetica\", fontsize=11, margin=\"0.08,0.03\", height=0.25, width=0.4];\n  edge [fontname=\"Helvetica\", fontsize=9, arrowsize=0.6];\n";

/// Appends the lines with which each text begins.
fn push_head(text: &mut String) -> Result<(), AllocError>
    ensures { OnOk result
        (string_bytes text.new ≡ string_bytes text.old ++ printed head_lines) }
{
    text.push_str(HEAD)?;
    Ok(())
}

/// The lines with which each text ends.
const LAST: &str = "  { rank=sink; legend; }\n}\n";

/// Appends all lines.
fn push_picture(
    alloc: Global,
    text: &mut String,
    picture: &Picture<'_>,
    networks: &[Network],
) -> Result<(), AllocError>
    requires { length networks.now < 2 ^ 32 }
    ensures { OnOk result
        (string_bytes text.new ≡ string_bytes text.old
        ++ printed (picture_lines (picture_of picture.now) networks.now)) }
{
    let units = picture.units();
    units.rises();
    let materials = picture.graph().materials(units);
    materials.rises();
    push_head(text)?;
    push_total(text, picture)?;
    push_list(alloc, text, picture.problem(), networks)?;
    push_materials(text, picture, materials)?;
    push_units(text, picture, units)?;
    text.push_str(LAST)?;
    Ok(())
}

/// The graph of these units, with the network in it if one is given, and with these networks as a
/// table if there are any.
pub fn graph_of(
    alloc: Global,
    site: &Site<'_>,
    network: Option<&Network>,
    networks: &[Network],
    units: UnitSet,
) -> Result<Vec<u8>, AllocError>
    requires known { (u : ℕ) → has units u ≡ true → u < length site.now.units }
    requires feasible { IfSome network (λ n. IsFeasible site.now n.now) }
    requires few { length networks.now < 2 ^ 32 }
    ensures { IfOk result
        (λ bytes. bytes.items
        ≡ printed
        (graph_lines site.now (option_map (λ n. n.now) network.entry) networks.now (has units))) }
{
    let picture = Picture::of(site, network, units);
    let mut text = String::new(alloc);
    push_picture(alloc, &mut text, &picture, networks)?;
    Ok(text.into_bytes())
}

/// The text for a problem without a solution structure.
pub fn empty_graph(alloc: Global) -> Result<Vec<u8>, AllocError>
    ensures { IfOk result (λ bytes. bytes.items ≡ printed empty_lines) }
{
    let mut text = String::new(alloc);
    push_head(&mut text)?;
    text.push_str("  label=\"no solution structure\";\n}\n")?;
    Ok(text.into_bytes())
}
