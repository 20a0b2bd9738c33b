//! One node on the walk.
ghost use Rattle.std.specs.Prelude.{◌≡◌, ◌++◌, map, true, OnOk, IfOk, IfErr};
ghost use Rattle.tree_text_rules.specs.number_sets.Sets.{has};
ghost use Rattle.tree_text_rules.specs.pns_rules.Shape.{shape_of};
ghost use Rattle.tree_text_rules.specs.pns_rules.Structure.{is_needed};
ghost use Rattle.tree_text_rules.specs.pns_rules.Nodes.{options, child};
ghost use Rattle.tree_text_rules.specs.tree_rules.declared.why.Why.TheVariants as causes;
ghost use Rattle.tree_text_rules.specs.tree_rules.Tree as trees;
ghost use Rattle.tree_text_rules.specs.tree_rules.Tree.{after_all, below, EndPasses};
ghost use Rattle.tree_text_rules.specs.tree_rules.Ways.{at_material, either, MayBranch, options_at};
ghost use Rattle.tree_text_rules.specs.tree_rules.Ways.{children_at};
ghost use Rattle.tree_text_rules.specs.tree_rules.Fault.{EndFails, NodeFails};
ghost use Rattle.charges.specs.pgraph.Tables.{shape};
ghost use Rattle.charges.specs.pgraph.View.{node_of};
ghost use Rattle.branch_tree.specs.View.{end_of};
ghost use Rattle.cert_check.specs.Known.{KnowsInside};
ghost use Rattle.cert_check.specs.Subtrees.{rest_of, HasEnds, stack_of};
ghost use Rattle.cert_check.specs.Visits.{leaf_passes, leaf_fails, BranchPasses};
ghost use Rattle.cert_check.specs.Visits.{IsVisited};
ghost use Rattle.cert_check.specs.Visits.{Halts};

use crate::children::push_children;
use crate::leaf::judge_leaf_by;
use crate::subtrees::{Behind, roots};
use crate::{after_steps, are_all_options, are_options_of_unit, with_unit, without_unit};
use branch_tree::{End, TreeNode};
use charges::{CostOver, Facts, Graph, Node, Site, UnitSet};
use tree_text_rules::Why;

/// By what nodes are judged: the problem with its P-graph, the cost that is to be undercut, if
/// there is one, what is known of sizes, whether leaves may be open, and whether the bounds of open
/// leaves are judged.
#[derive(Clone, Copy)]
pub struct Judge<'a> {
    pub site: &'a Site<'a>,
    pub claimed: Option<CostOver>,
    pub facts: &'a Facts,
    pub partial: bool,
    pub bounds: bool,
}

/// Why a walk goes no further.
#[derive(Clone, Copy, Debug, PartialEq, Eq)]
pub enum Halt {
    Memory,
    /// The node fails.
    Fails(Why),
}

/// Judges a branch at the node, with this many of the subtrees that follow as its children, and
/// puts their nodes on the stack. `found` is room for their options.
fn visit_branch(
    graph: &Graph,
    node: &Node,
    material: u32,
    children: u32,
    behind: &Behind<'_>,
    found: &mut Vec<UnitSet>,
    stack: &mut Vec<Node>,
) -> Result<(), Halt>
    requires { HasEnds behind.now }
    ensures needed { OnOk result
        (is_needed (shape graph.now) (has node.now.inside) material ≡ true) }
    ensures options { OnOk result
        (trees.roots children (rest_of behind.now)
        ≡ options (shape graph.now) (node_of node.now) material) }
    ensures stack { OnOk result
        (stack_of stack.new.items
        ≡ map (child (shape graph.now) (node_of node.now) material)
        (options (shape graph.now) (node_of node.now) material) ++ stack_of stack.old.items) }
    ensures halts { IfErr result
        (Halts (λ why. (why ≡ causes.Options)
        × (BranchPasses (shape graph.now) (node_of node.now) (at_material material children)
        (rest_of behind.now) → ⊥))) }
{
    graph.is_proper();
    let Ok(()) = roots(behind.nodes, behind.ends, behind.from, children, found) else {
        return Err(Halt::Memory);
    };
    if !are_all_options(graph, node, material, found) {
        return Err(Halt::Fails(Why::Options));
    }
    match push_children(graph, node, material, found, stack) {
        Ok(()) => Ok(()),
        Err(_) => Err(Halt::Memory),
    }
}

/// Judges a branch in two at the unit, with the two subtrees that follow as its children, and puts
/// their nodes on the stack. The node in which the unit goes in is on top. `found` is room for
/// their options.
fn visit_either(
    graph: &Graph,
    node: &Node,
    unit: u32,
    behind: &Behind<'_>,
    found: &mut Vec<UnitSet>,
    stack: &mut Vec<Node>,
) -> Result<(), Halt>
    requires { HasEnds behind.now }
    ensures may { OnOk result (MayBranch (shape graph.now) (node_of node.now) (either unit)) }
    ensures options { OnOk result
        (trees.roots 2 (rest_of behind.now)
        ≡ options_at (shape graph.now) (node_of node.now) (either unit)) }
    ensures stack { OnOk result
        (stack_of stack.new.items ≡ children_at (shape graph.now) (node_of node.now) (either unit)
        ++ stack_of stack.old.items) }
    ensures halts { IfErr result
        (Halts (λ why. (why ≡ causes.Options)
        × (BranchPasses (shape graph.now) (node_of node.now) (either unit) (rest_of behind.now)
        → ⊥))) }
{
    graph.is_proper();
    let Ok(()) = roots(behind.nodes, behind.ends, behind.from, 2, found) else {
        return Err(Halt::Memory);
    };
    if !are_options_of_unit(graph, node, unit, found) {
        return Err(Halt::Fails(Why::Options));
    }
    let Ok(()) = stack.push(without_unit(node, unit)) else {
        return Err(Halt::Memory);
    };
    let Ok(()) = stack.push(with_unit(node, unit)) else {
        return Err(Halt::Memory);
    };
    Ok(())
}

/// Judges the end of a node, with the subtrees that follow as its children, and puts the nodes of
/// the children on the stack.
fn visit_end(
    judge: &Judge<'_>,
    node: &Node,
    end: &End,
    behind: &Behind<'_>,
    found: &mut Vec<UnitSet>,
    stack: &mut Vec<Node>,
) -> Result<(), Halt>
    requires known { KnowsInside (shape_of judge.now.site.now) (node_of node.now) }
    requires ends { HasEnds behind.now }
    ensures passes { OnOk result
        (EndPasses (shape_of judge.now.site.now) (leaf_passes judge.now) (node_of node.now)
        (end_of end.now) (rest_of behind.now)) }
    ensures children { OnOk result
        (stack_of stack.new.items
        ≡ below (shape_of judge.now.site.now) (node_of node.now) (end_of end.now)
        ++ stack_of stack.old.items) }
    ensures halts { IfErr result
        (Halts
        (EndFails (shape_of judge.now.site.now) (leaf_fails judge.now) (node_of node.now)
        (end_of end.now) (rest_of behind.now))) }
{
    match end {
        End::Branch { material, children } => visit_branch(
            judge.site.graph(),
            node,
            *material,
            *children,
            behind,
            found,
            stack,
        ),
        End::Either(unit) => visit_either(judge.site.graph(), node, *unit, behind, found, stack),
        end => match judge_leaf_by(judge, node, end) {
            Ok(()) => Ok(()),
            Err(why) => Err(Halt::Fails(why)),
        },
    }
}

/// Judges the item of the tree at its node, and puts the nodes of its children on the stack. It
/// gives the node that its steps leave.
pub(crate) fn visit(
    judge: &Judge<'_>,
    node: &Node,
    item: &TreeNode,
    behind: &Behind<'_>,
    found: &mut Vec<UnitSet>,
    stack: &mut Vec<Node>,
) -> Result<Node, Halt>
    requires known { KnowsInside (shape_of judge.now.site.now) (node_of node.now) }
    requires ends { HasEnds behind.now }
    ensures visited { OnOk result
        (IsVisited (shape_of judge.now.site.now) (leaf_passes judge.now) (node_of node.now)
        item.now
        (rest_of behind.now) (stack_of stack.old.items) (stack_of stack.new.items)) }
    ensures reached { IfOk result
        (λ n. node_of n ≡ after_all (shape_of judge.now.site.now) (node_of node.now)
        item.now.steps) }
    ensures halts { IfErr result
        (Halts
        (NodeFails (shape_of judge.now.site.now) (leaf_fails judge.now) (node_of node.now)
        item.now
        (rest_of behind.now))) }
{
    let steps = item.steps.steps();
    let Some(reached) = after_steps(judge.site.graph(), node, steps) else {
        return Err(Halt::Fails(Why::Step));
    };
    let end = &item.end;
    visit_end(judge, &reached, end, behind, found, stack)?;
    Ok(reached)
}
