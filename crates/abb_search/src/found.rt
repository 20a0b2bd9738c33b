//! The tree that shows what is found.
ghost use Rattle.std.specs.Prelude.{◌≡◌, ◌<◌, [], length, IfOk, IfSome};
ghost use Rattle.node_evaluation.specs.tree_rules.Claim.{IsSized};
ghost use Rattle.node_evaluation.specs.search_tree.Cells.{IsLinked, cell_at};
ghost use Rattle.node_evaluation.specs.search_tree.Preorder.{IsTreeOf};
ghost use Rattle.node_evaluation.specs.search_tree.Shut.{shut_cells};
ghost use Rattle.abb_search.specs.Found.{found_with};
ghost use Rattle.abb_search.specs.Answers.{past_with};

use crate::growing::{Growing, StoppedLeaf};
use crate::outcome::Found;
use node_evaluation::{Network, Shut, Tree, nodes_in_preorder};
use std::alloc::{AllocError, Global};

/// A tree, and the place of one of its nodes.
#[derive(Drop)]
pub(crate) struct Placed {
    pub tree: Tree,
    pub place: u32,
}

/// A network has a set of units below 128. A call proves this, and does nothing.
pub(crate) fn is_sized(best: &Option<Network>)
    ensures { IfSome best.now IsSized }
{
    if let Some(network) = best {
        network.is_sized();
    }
}

/// The tree of the nodes, and the place of a node in it. An open leaf ends with the item of
/// `proofs` at its number, if there is one.
pub(crate) fn shut_tree(
    alloc: Global,
    growing: &Growing,
    proofs: &[Option<Shut>],
    leaf: u32,
) -> Result<Placed, AllocError>
    requires linked { IsLinked growing.now.pool.payloads }
    requires root { (cell_at growing.now.pool.payloads 0).option ≡ [] }
    requires leaf { leaf < length growing.now.pool.payloads }
    ensures tree { IfOk result
        (λ t. IsTreeOf (shut_cells proofs.now growing.now.pool.payloads) leaf t.tree t.place) }
    ensures sized { IfSome growing.now.best IsSized }
{
    node_evaluation::preorder_is_tree();
    is_sized(&growing.best);
    let preorder = nodes_in_preorder(alloc, &growing.pool, proofs, leaf)?;
    Ok(Placed {
        tree: Tree::from_nodes(preorder.nodes),
        place: preorder.place,
    })
}

/// The tree of the nodes as they are, and the place of the leaf in it.
pub(crate) fn tree_with(alloc: Global, growing: &Growing, leaf: u32) -> Result<Placed, AllocError>
    requires linked { IsLinked growing.now.pool.payloads }
    requires root { (cell_at growing.now.pool.payloads 0).option ≡ [] }
    requires leaf { leaf < length growing.now.pool.payloads }
    ensures tree { IfOk result (λ t. IsTreeOf growing.now.pool.payloads leaf t.tree t.place) }
    ensures sized { IfSome growing.now.best IsSized }
{
    shut_tree(alloc, growing, &[], leaf)
}

/// What is found if no leaf is open.
pub(crate) fn whole_found(best: Option<Network>, tree: Tree) -> Found
    ensures { result ≡ found_with best tree }
{
    match best {
        None => Found::Infeasible { tree },
        Some(network) => Found::Solved { network, tree },
    }
}

/// What is found if a leaf stops the search, which has this place in the tree.
pub(crate) fn past_found(
    best: Option<Network>,
    stop: Option<StoppedLeaf>,
    placed: Placed,
) -> Option<Found>
    ensures { result ≡ past_with best stop placed.tree placed.place }
{
    match stop {
        None => None,
        Some(stopped) => Some(Found::Past {
            best,
            tree: placed.tree,
            node: placed.place,
            nonbasic: stopped.stop.nonbasic,
            place: stopped.stop.place,
        }),
    }
}
