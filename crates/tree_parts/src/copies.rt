//! Copies of nodes and networks.
ghost use Rattle.std.specs.Prelude.{◌≡◌, ◌++◌, IfOk, OnOk};
ghost use Rattle.tree_text_laws.specs.branch_tree.View.{end_of};
ghost use Rattle.tree_text_laws.specs.tree_text_rules.Graft.{grafted};

use std::alloc::{AllocError, Global};
use tree_text_laws::{Covers, End, Multipliers, Network, Scaled, Steps, TreeNode};

/// A copy of a network.
pub fn copied_network(alloc: Global, network: &Network) -> Result<Network, AllocError>
    ensures { IfOk result (λ w. w ≡ network.now) }
{
    network.is_sized();
    let sizes = network.sizes().to_vec(alloc)?;
    Ok(Network::of(network.units(), sizes, network.d(), network.cost()))
}

/// A copy of an end.
pub fn copied_end(alloc: Global, end: &End) -> Result<End, AllocError>
    ensures { IfOk result (λ e. end_of e ≡ end_of end.now) }
{
    match end {
        End::Dead(material) => Ok(End::Dead(*material)),
        End::Clash(exclusion) => Ok(End::Clash(*exclusion)),
        End::Refuted(ys) => copied_refutation(alloc, ys),
        End::Bound(scaled) => Ok(End::Bound(copied_scaled(alloc, scaled)?)),
        End::Charge { scaled, covers } => copied_charge(alloc, scaled, covers),
        End::Branch { material, children } => Ok(End::Branch {
            material: *material,
            children: *children,
        }),
        End::Either(unit) => Ok(End::Either(*unit)),
        End::Open(low) => copied_open(alloc, low),
    }
}

fn copied_refutation(alloc: Global, ys: &Multipliers) -> Result<End, AllocError>
    ensures { IfOk result (λ e. end_of e ≡ end_of (End.Refuted ys.now)) }
{
    ys.are_in_range();
    let numbers = ys.numbers().to_vec(alloc)?;
    Ok(End::Refuted(Multipliers::from_vec(numbers)))
}

/// A copy of the multipliers of a bound.
pub fn copied_scaled(alloc: Global, scaled: &Scaled) -> Result<Scaled, AllocError>
    ensures { IfOk result (λ s. s ≡ scaled.now) }
{
    let numbers = scaled.numbers().to_vec(alloc)?;
    Ok(Scaled::from_vec(numbers))
}

fn copied_charge(alloc: Global, scaled: &Scaled, covers: &Covers) -> Result<End, AllocError>
    ensures { IfOk result (λ e. end_of e ≡ end_of (End.Charge scaled.now covers.now)) }
{
    let scaled = copied_scaled(alloc, scaled)?;
    covers.are_kept();
    let list = covers.covers().to_vec(alloc)?;
    Ok(End::Charge {
        scaled,
        covers: Covers::from_vec(list),
    })
}

fn copied_open(alloc: Global, low: &Option<Scaled>) -> Result<End, AllocError>
    ensures { IfOk result (λ e. end_of e ≡ end_of (End.Open low.now)) }
{
    match low {
        None => Ok(End::Open(None)),
        Some(scaled) => Ok(End::Open(Some(copied_scaled(alloc, scaled)?))),
    }
}

fn copied(alloc: Global, node: &TreeNode) -> Result<TreeNode, AllocError>
    ensures { IfOk result (λ t. t ≡ node.now) }
{
    let steps = node.steps.steps().to_vec(alloc)?;
    let end = copied_end(alloc, &node.end)?;
    Ok(TreeNode {
        option: node.option,
        steps: Steps::from_vec(steps),
        end,
    })
}

/// The leaf with the steps and the end of the part's root.
pub fn grafted(alloc: Global, leaf: &TreeNode, root: &TreeNode) -> Result<TreeNode, AllocError>
    ensures { IfOk result (λ t. t ≡ grafted leaf.now root.now) }
{
    let mut steps = leaf.steps.steps().to_vec(alloc)?;
    steps.extend_from_slice(root.steps.steps())?;
    let end = copied_end(alloc, &root.end)?;
    Ok(TreeNode {
        option: leaf.option,
        steps: Steps::from_vec(steps),
        end,
    })
}

/// Appends copies of the nodes.
pub fn push_copies(
    alloc: Global,
    nodes: &[TreeNode],
    into: &mut Vec<TreeNode>,
) -> Result<(), AllocError>
    ensures { OnOk result (into.new.items ≡ into.old.items ++ nodes.now) }
{
    'copying: for node in nodes {
        let copy = copied(alloc, node)?;
        into.push(copy)?;
    }
    Ok(())
}
