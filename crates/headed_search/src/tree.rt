//! Trees whose leaves charge.
ghost use Rattle.std.specs.Prelude.{◌≡◌, IfOk};
ghost use Rattle.tree_parts.specs.branch_tree.View.{end_of};
ghost use Rattle.tree_parts.specs.tree_laws.Recharged as rules;

use std::alloc::{AllocError, Global};
use tree_parts::{Covers, End, Scaled, Tree, TreeNode, recharged_is_tree};

/// The end, or one that charges by the same multipliers if it is refuted or has a bound.
fn recharged_end(alloc: Global, end: End) -> Result<End, AllocError>
    ensures { IfOk result (λ e. end_of e ≡ rules.recharged_end (end_of end)) }
{
    match end {
        End::Dead(material) => Ok(End::Dead(material)),
        End::Clash(exclusion) => Ok(End::Clash(exclusion)),
        End::Refuted(ys) => {
            ys.are_in_range();
            let scaled = Scaled::of(alloc, 0, ys.numbers())?;
            Ok(End::Charge {
                scaled,
                covers: Covers::from_vec(Vec::new(alloc)),
            })
        }
        End::Bound(scaled) => Ok(End::Charge {
            scaled,
            covers: Covers::from_vec(Vec::new(alloc)),
        }),
        End::Charge { scaled, covers } => Ok(End::Charge { scaled, covers }),
        End::Branch { material, children } => Ok(End::Branch { material, children }),
        End::Either(unit) => Ok(End::Either(unit)),
        End::Open(low) => Ok(End::Open(low)),
    }
}

fn recharged_node(alloc: Global, node: TreeNode) -> Result<TreeNode, AllocError>
    ensures { IfOk result (λ t. t ≡ rules.recharged_node node) }
{
    let end = recharged_end(alloc, node.end)?;
    Ok(TreeNode {
        option: node.option,
        steps: node.steps,
        end,
    })
}

/// The tree with its refuted and its bounded leaves made ones that charge. `Err` comes if memory is
/// refused.
pub fn recharged(alloc: Global, tree: Tree) -> Result<Tree, AllocError>
    ensures { IfOk result (λ t. t ≡ rules.recharged_tree tree) }
{
    recharged_is_tree();
    tree.is_tree();
    let mut nodes = Vec::new(alloc);
    'charging: for node in tree.into_nodes() {
        let next = recharged_node(alloc, node)?;
        nodes.push(next)?;
    }
    Ok(Tree::from_nodes(nodes))
}
