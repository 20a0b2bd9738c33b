//! A whole tree.
ghost use Rattle.std.specs.Prelude.{◌≡◌, ◌<◌, ◌≤◌, ◌+◌, ◌-◌, ◌^◌, [], zero, Ok, IfOk, IfErr};
ghost use Rattle.std.specs.Prelude.{length};
ghost use Rattle.tree_text_rules.specs.tree_rules.Known.{KnowsTree};
ghost use Rattle.tree_text_rules.specs.tree_rules.Tree as trees;
ghost use Rattle.tree_text_rules.specs.Read.{tree_taken};
ghost use Rattle.tree_reading.specs.Gives.{GivesAt, begun};
ghost use Rattle.tree_reading.specs.Place.{IsCut, IsBehind, lines_at};
ghost use Rattle.tree_reading.specs.Taken.{taken};
ghost use Rattle.text_lines.specs.Tells.{Tells};

use crate::apart::parts_of;
use crate::cut::{Cut, next_line};
use crate::fault::{TreeFault, at_line};
use crate::head::read_option;
use crate::node::read_node;
use crate::node_line::root_line;
use branch_tree::{Problem, Tree, TreeNode, UnitSet};
use std::alloc::Global;

// How many subtrees are left after a node, if `pending` were left before its children.
fn more_subtrees(pending: u64, node: &TreeNode) -> u64
    requires { pending < 2 ^ 64 - 2 ^ 32 }
    ensures sum { result ≡ trees.children node.now.end + pending }
    ensures bound { result < pending + 2 ^ 32 }
{
    node.end.children() as u64 + pending
}

/// The nodes of a tree, from the line after the root's on, and the place after them.
pub fn read_nodes(
    alloc: Global,
    problem: &Problem,
    bytes: &[u8],
    cut: Cut,
) -> Result<(Tree, Cut), TreeFault>
    requires cut { IsCut bytes.now cut }
    requires few { length bytes.now < 2 ^ 32 - 1 }
    ensures ok { IfOk result
        (λ found. begun problem.now [] zero cut.line (lines_at bytes.now cut)
        ≡ Ok (taken found.0 bytes.now found.1)) }
    ensures behind { IfOk result (λ found. IsBehind bytes.now cut found.1) }
    ensures count { IfOk result (λ found. length found.0 ≤ found.1.at) }
    ensures known { IfOk result (λ found. KnowsTree problem.now found.0) }
    ensures fault { IfErr result
        (Tells (begun problem.now [] zero cut.line (lines_at bytes.now cut))) }
{
    let mut nodes = Vec::new(alloc);
    let mut option = UnitSet::empty();
    let mut pending: u64 = 0;
    let mut at = cut;
    'nodes: loop {
        let (node, behind) = read_node(alloc, problem, option, bytes, at)?;
        pending = more_subtrees(pending, &node);
        nodes.push(node)?;
        if pending == 0 {
            return Ok((Tree::from_nodes(nodes), behind));
        }
        pending -= 1;
        (option, at) = read_option(problem, bytes, behind)?;
    }
}

/// The tree whose root's line is at this place, and the place after it.
pub fn read_whole(
    alloc: Global,
    problem: &Problem,
    bytes: &[u8],
    cut: Cut,
) -> Result<(Tree, Cut), TreeFault>
    requires cut { IsCut bytes.now cut }
    requires few { length bytes.now < 2 ^ 32 - 1 }
    ensures gives { GivesAt (λ tree. tree) (KnowsTree problem.now) (tree_taken problem.now)
        bytes.now cut result }
    ensures count { IfOk result (λ found. length found.0 ≤ found.1.at) }
{
    let (line, first) = next_line(bytes, cut)?;
    at_line(cut, root_line(&parts_of(&line)))?;
    read_nodes(alloc, problem, bytes, first)
}
