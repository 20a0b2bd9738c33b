//! A ranking as an ordinary tree, which is to prove its best network.
ghost use Rattle.std.specs.Prelude.{◌≡◌, map, IfOk};
ghost use Rattle.tree_parts.specs.branch_tree.View.{claim_of, end_of};
ghost use Rattle.rank_check.specs.View.{mark_of};
ghost use Rattle.report_rules.specs.rank_rules.Marked.{marked, marked_node, marked_end};
ghost use Rattle.report_rules.specs.rank_rules.Marked.{marks_behind};
ghost use Rattle.report_rules.specs.RankLow as rules;

use rank_check::{Mark, RankText};
use std::alloc::{AllocError, Global};
use tree_parts::{
    Claim, End, Network, Steps, Tree, TreeNode, copied_end, copied_network, copied_scaled,
};

/// The claim of the first network, if there is one.
pub(crate) fn best_claim(alloc: Global, networks: &[Network]) -> Result<Claim, AllocError>
    ensures { IfOk result (λ claim. claim_of claim ≡ rules.best_claim networks.now) }
{
    match networks.split_first() {
        Some((first, _)) => Ok(Claim::Network(copied_network(alloc, first)?)),
        None => Ok(Claim::Unknown),
    }
}

/// The end, if the first mark is that of the first open leaf. A leaf that names a network is open,
/// with its bound.
fn plain_end(alloc: Global, end: &End, marks: &[Mark]) -> Result<End, AllocError>
    ensures { IfOk result
        (λ e. end_of e
        ≡ rules.plain_end (marked_end (map mark_of marks.now) (end_of end.now))) }
{
    match end {
        End::Open(_) => match marks {
            [Mark::Named(name), ..] => Ok(End::Open(Some(copied_scaled(alloc, &name.scaled)?))),
            [Mark::Open, ..] | [] => copied_end(alloc, end),
        },
        _ => copied_end(alloc, end),
    }
}

fn plain_node(alloc: Global, node: &TreeNode, marks: &[Mark]) -> Result<TreeNode, AllocError>
    ensures { IfOk result
        (λ t. t ≡ rules.plain_node (marked_node (map mark_of marks.now) node.now)) }
{
    let steps = node.steps.steps().to_vec(alloc)?;
    let end = plain_end(alloc, &node.end, marks)?;
    Ok(TreeNode {
        option: node.option,
        steps: Steps::from_vec(steps),
        end,
    })
}

/// The marks of the open leaves after the end.
fn marks_behind<'a>(end: &End, marks: &'a [Mark]) -> &'a [Mark]
    ensures { map mark_of result.now ≡ marks_behind (map mark_of marks.now) (end_of end.now) }
{
    match end {
        End::Open(_) => match marks {
            [_, rest @ ..] => rest,
            [] => marks,
        },
        _ => marks,
    }
}

fn plain_nodes(
    alloc: Global,
    nodes: &[TreeNode],
    marks: &[Mark],
) -> Result<Vec<TreeNode>, AllocError>
    ensures { IfOk result
        (λ ts. ts.items ≡ rules.plain_tree (marked (map mark_of marks.now) nodes.now)) }
{
    let mut plain = Vec::new(alloc);
    let mut rest = marks;
    'nodes: for node in nodes {
        let next = plain_node(alloc, node, rest)?;
        plain.push(next)?;
        rest = marks_behind(&node.end, rest);
    }
    Ok(plain)
}

/// The tree of the ranking, in which leaves that name a network are open, with their bounds.
pub(crate) fn plain_tree(alloc: Global, text: &RankText) -> Result<Tree, AllocError>
    ensures { IfOk result
        (λ tree. tree ≡ rules.plain_tree (marked text.now.marks text.now.tree)) }
{
    let tree = text.tree();
    tree.is_tree();
    let nodes = plain_nodes(alloc, tree.nodes(), text.marks())?;
    Ok(Tree::from_nodes(nodes))
}
