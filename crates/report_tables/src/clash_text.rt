//! All lines.
ghost use Rattle.std.specs.Prelude.{◌≡◌, ◌<◌, ◌^◌, ◌++◌, take, length, flat_map, IfOk, OnOk};
ghost use Rattle.std.specs.Prelude.{string_bytes};
ghost use Rattle.std.specs.List.{AllByRecursion};
ghost use Rattle.text_lines.specs.number_sets.Sets.{has};
ghost use Rattle.cert_check.specs.pns_problem.Printing.{printed};
ghost use Rattle.cert_check.specs.pgraph.View.{node_of};
ghost use Rattle.cert_check.specs.tree_rules.Claim.{infeasible};
ghost use Rattle.cert_check.specs.tree_rules.Accepted.{first_node, IsAccepted};
ghost use Rattle.report_amounts.specs.report_rules.Clash.{names_of, node_line, leaf_lines};
ghost use Rattle.report_amounts.specs.report_rules.Clash.{count_line};
ghost use Rattle.report_amounts.specs.report_rules.Clash.{leaves_lines, clash_lines};
ghost use Rattle.report_tables.specs.View.{leaf_of, leaves_of, IsGood};

use crate::bounds::push_bounds;
use crate::leaves::{multipliers_at, refuted_leaves};
use crate::push_names_or_none;
use cert_check::{Node, OpenLeaf, Site, Tree, TreeNode, UnitSet};
use std::alloc::{AllocError, Global};

/// Appends words, and the names of those of the units that the problem has.
fn push_names(
    text: &mut String,
    site: &Site<'_>,
    words: &str,
    units: UnitSet,
) -> Result<(), AllocError>
    ensures { OnOk result
        (string_bytes text.new ≡ string_bytes text.old
        ++ (words.now ++ names_of site.now (has units))) }
{
    let all = UnitSet::below(site.graph().unit_count());
    all.rises();
    text.push_str(words)?;
    push_names_or_none(text, site.problem(), all.meet(units))?;
    Ok(())
}

/// Appends which leaf it is.
fn push_node(text: &mut String, site: &Site<'_>, number: u32, node: &Node) -> Result<(), AllocError>
    ensures { OnOk result
        (string_bytes text.new ≡ string_bytes text.old
        ++ node_line site.now number (node_of node.now)) }
{
    text.push_str("node ")?;
    write!(text, "{number}")?;
    push_names(text, site, "; inside:", node.inside)?;
    push_names(text, site, "; outside:", node.outside)?;
    Ok(())
}

fn push_leaf(
    text: &mut String,
    site: &Site<'_>,
    nodes: &[TreeNode],
    leaf: &OpenLeaf,
) -> Result<(), AllocError>
    requires { IsGood site.now (leaf_of nodes.now leaf.now) }
    ensures { OnOk result
        (string_bytes text.new ≡ string_bytes text.old
        ++ printed (leaf_lines site.now (leaf_of nodes.now leaf.now))) }
{
    text.push('\n')?;
    push_node(text, site, leaf.number, &leaf.node)?;
    text.push('\n')?;
    push_bounds(text, site, &leaf.node, multipliers_at(nodes, leaf.number))?;
    Ok(())
}

fn push_leaves(
    text: &mut String,
    site: &Site<'_>,
    nodes: &[TreeNode],
    leaves: &[OpenLeaf],
) -> Result<(), AllocError>
    requires { AllByRecursion (IsGood site.now) (leaves_of nodes.now leaves.now) }
    ensures { OnOk result
        (string_bytes text.new ≡ string_bytes text.old
        ++ printed (flat_map (leaf_lines site.now) (leaves_of nodes.now leaves.now))) }
{
    'leaves: for leaf in leaves {
        push_leaf(text, site, nodes, leaf)?;
    }
    Ok(())
}

fn push_count(text: &mut String, shown: usize, all: usize) -> Result<(), AllocError>
    ensures { OnOk result (string_bytes text.new ≡ string_bytes text.old ++ count_line shown all) }
{
    text.push_str("Bounds that clash, at ")?;
    write!(text, "{shown}")?;
    text.push_str(" of ")?;
    write!(text, "{all}")?;
    text.push_str(" refuted leaves:")?;
    Ok(())
}

fn first_ten(leaves: &[OpenLeaf]) -> &[OpenLeaf]
    ensures { result.now ≡ take 10 leaves.now }
{
    if leaves.len() <= 10 {
        leaves
    } else {
        &leaves[..10]
    }
}

fn push_clashes(
    text: &mut String,
    site: &Site<'_>,
    nodes: &[TreeNode],
    leaves: &[OpenLeaf],
) -> Result<(), AllocError>
    requires { AllByRecursion (IsGood site.now) (leaves_of nodes.now leaves.now) }
    ensures { OnOk result
        (string_bytes text.new ≡ string_bytes text.old
        ++ printed (leaves_lines site.now (leaves_of nodes.now leaves.now))) }
{
    if leaves.is_empty() {
        return Ok(());
    }
    let shown = first_ten(leaves);
    push_count(text, shown.len(), leaves.len())?;
    text.push('\n')?;
    push_leaves(text, site, nodes, shown)?;
    Ok(())
}

/// The bounds that clash, of a tree that proves that no network meets the bounds: the lines of its
/// first ten refuted leaves, and how many it has.
pub fn clashes_of(alloc: Global, site: &Site<'_>, tree: &Tree) -> Result<Vec<u8>, AllocError>
    requires few { length tree.now < 2 ^ 32 }
    requires accepted { IsAccepted site.now first_node infeasible tree.now }
    ensures { IfOk result (λ bytes. bytes.items ≡ printed (clash_lines site.now tree.now)) }
{
    let leaves = refuted_leaves(alloc, site, tree)?;
    let mut text = String::new(alloc);
    push_clashes(&mut text, site, tree.nodes(), &leaves)?;
    Ok(text.into_bytes())
}
