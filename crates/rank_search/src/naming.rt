//! Leaves that name networks.
ghost use Rattle.std.specs.Prelude.{◌≡◌, ◌<◌, ◌^◌, ◌++◌, ◌∷◌, [], map, length, IfOk, OnOk};
ghost use Rattle.rank_check.specs.problem_rules.Each.{Each};
ghost use Rattle.rank_check.specs.tree_rules.Claim.{IsSized};
ghost use Rattle.rank_check.specs.tree_rules.Tree.{IsTree};
ghost use Rattle.rank_check.specs.View.{mark_of};
ghost use Rattle.abb_search.specs.search_tree.Cells.{IsLinked, cell_at};
ghost use Rattle.rank_search.specs.Found.{networks_of};
ghost use Rattle.rank_search.specs.Naming.{AreWithin, IsNamedTree, names_of, name_at, names_at};
ghost use Rattle.rank_search.specs.Naming.{opened, opened_node, marks_in, marks_at, marks_of};

use crate::found::FoundAt;
use abb_search::{Cell, Pool, Shut, nodes_in_preorder};
use rank_check::{End, Mark, Name, Naming, Tree, TreeNode};
use std::alloc::{AllocError, Global};
use std::mem;

/// A tree with the marks of its open leaves in preorder, and the place of one of its nodes.
#[derive(Drop)]
pub struct NamedTree {
    pub tree: Tree,
    pub marks: Vec<Mark>,
    pub place: u32,
}

/// For each of so many nodes the network that was found there, by its number, counted from 1. The
/// networks are sized.
pub(crate) fn names_of(
    alloc: Global,
    found: &[FoundAt],
    nodes: usize,
) -> Result<Vec<Option<u32>>, AllocError>
    requires within { AreWithin nodes found.now }
    requires few { length found.now < 2 ^ 32 }
    ensures names { IfOk result (λ names. names.items ≡ names_of nodes found.now) }
    ensures sized { IfOk result (λ names. Each IsSized (networks_of found.now)) }
{
    let mut names = vec![in alloc; None; nodes]?;
    let mut number = 0;
    'naming: for one in found {
        one.network.is_sized();
        number += 1;
        names[one.leaf as usize] = Some(number);
    }
    Ok(names)
}

fn name_at(names: &[Option<u32>], number: u32) -> Option<u32>
    ensures { result ≡ name_at names.now number }
{
    match names.get(number as usize) {
        Some(name) => *name,
        None => None,
    }
}

/// The mark of a node whose leaf has this name. A bounded leaf that has one becomes an open leaf.
fn take_mark(node: &mut TreeNode, name: Option<u32>, way: Naming) -> Option<Mark>
    ensures node { node.new ≡ opened_node name node.old }
    ensures mark { marks_of result ≡ marks_at way name node.old.end }
{
    if let End::Open(_) = node.end {
        return Some(Mark::Open);
    }
    let network = name?;
    match mem::replace(&mut node.end, End::Open(None)) {
        End::Bound(scaled) => Some(Mark::Named(Name {
            way,
            network,
            scaled,
        })),
        other => {
            node.end = other;
            None
        }
    }
}

/// The marks of all nodes in order; `order` has the numbers of their leaves. Those that have a name
/// become open leaves.
fn take_marks(
    alloc: Global,
    nodes: &mut [TreeNode],
    order: &[u32],
    names: &[Option<u32>],
    way: Naming,
) -> Result<Vec<Mark>, AllocError>
    requires as_many { length nodes.old ≡ length order.now }
    ensures nodes { IfOk result
        (λ marks. nodes.new ≡ opened (names_at names.now order.now) nodes.old) }
    ensures marks { IfOk result
        (λ marks. map mark_of marks.items
        ≡ marks_in way (names_at names.now order.now) nodes.old) }
{
    let mut marks = Vec::new(alloc);
    'naming: for (at, number) in order.iter().enumerate() {
        let name = name_at(names, *number);
        if let Some(mark) = take_mark(&mut nodes[at], name, way) {
            marks.push(mark)?;
        }
    }
    Ok(marks)
}

/// The tree of the nodes, and the place of a node in it. Bounded leaves that have a name name their
/// network in this way. An open leaf ends with the item of `proofs` at its number, if there is one.
pub fn named_tree(
    alloc: Global,
    pool: &Pool<Cell>,
    way: Naming,
    names: &[Option<u32>],
    proofs: &[Option<Shut>],
    leaf: u32,
) -> Result<NamedTree, AllocError>
    requires linked { IsLinked pool.now.payloads }
    requires root { (cell_at pool.now.payloads 0).option ≡ [] }
    requires leaf { leaf < length pool.now.payloads }
    ensures { IfOk result
        (λ t. IsNamedTree pool.now.payloads way names.now proofs.now leaf t.tree
        (map mark_of t.marks.items) t.place) }
{
    abb_search::preorder_is_tree();
    let preorder = nodes_in_preorder(alloc, pool, proofs, leaf)?;
    let mut told = preorder.nodes;
    let marks = take_marks(alloc, &mut told, &preorder.order, names, way)?;
    Ok(NamedTree {
        tree: Tree::from_nodes(told),
        marks,
        place: preorder.place,
    })
}
