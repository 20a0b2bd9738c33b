//! The cells in preorder.
ghost use Rattle.std.specs.Prelude.{◌≡◌, ◌<◌, ◌+◌, ◌-◌, ◌^◌, [], ◌∷◌, ◌++◌, cond, None, IfOk, OnOk};
ghost use Rattle.std.specs.Prelude.{length, option_copied, slice_index_or};
ghost use Rattle.std.specs.List.{range_with_len};
ghost use Rattle.branch_tree.specs.View.{end_of};
ghost use Rattle.search_tree.specs.Cells.{IsLinked, numbers_below};
ghost use Rattle.search_tree.specs.Preorder.{IsTreeIn};
ghost use Rattle.search_tree.specs.Shut.{shut_end, shut_cells};
ghost use Rattle.search_tree.specs.Runs.{to_come};

use crate::cell::Cell;
use crate::shut::{Shut, copy_covers, copy_low, copy_multipliers, copy_scaled, end_by};
use branch_tree::{End, Steps, TreeNode};
use node_pool::Pool;
use std::alloc::{AllocError, Global};

/// The number of a cell, and how many follow it.
#[derive(Clone, Copy, Debug)]
struct Run {
    next: u32,
    more: u32,
}

/// Nodes in preorder, the numbers of their cells, and the place of one of them.
#[derive(Drop)]
pub struct Preorder {
    pub nodes: Vec<TreeNode>,
    pub order: Vec<u32>,
    pub place: u32,
}

fn copy_steps(alloc: Global, steps: &Steps) -> Result<Steps, AllocError>
    ensures { IfOk result (λ c. c ≡ steps.now) }
{
    let list = steps.steps().to_vec(alloc)?;
    Ok(Steps::from_vec(list))
}

fn copy_end(alloc: Global, end: &End) -> Result<End, AllocError>
    ensures { IfOk result (λ c. end_of c ≡ end_of end.now) }
{
    match end {
        End::Dead(material) => Ok(End::Dead(*material)),
        End::Clash(exclusion) => Ok(End::Clash(*exclusion)),
        End::Refuted(ys) => {
            let copy = copy_multipliers(alloc, ys)?;
            Ok(End::Refuted(copy))
        }
        End::Bound(scaled) => {
            let copy = copy_scaled(alloc, scaled)?;
            Ok(End::Bound(copy))
        }
        End::Charge { scaled, covers } => {
            let scaled = copy_scaled(alloc, scaled)?;
            let covers = copy_covers(alloc, covers)?;
            Ok(End::Charge { scaled, covers })
        }
        End::Branch { material, children } => Ok(End::Branch {
            material: *material,
            children: *children,
        }),
        End::Either(unit) => Ok(End::Either(*unit)),
        End::Open(low) => {
            let copy = copy_low(alloc, low)?;
            Ok(End::Open(copy))
        }
    }
}

/// A copy of the node's end; an open leaf ends with what is given for it.
fn copy_shut(alloc: Global, cell: &Cell, proof: Option<&Shut>) -> Result<End, AllocError>
    ensures { IfOk result (λ e. end_of e ≡ shut_end (option_copied proof.entry) cell.now.end) }
{
    if let Some(shut) = proof {
        if cell.ends_open() {
            return end_by(alloc, shut);
        }
    }
    copy_end(alloc, &cell.end)
}

fn copy_node(alloc: Global, cell: &Cell, proof: Option<&Shut>) -> Result<TreeNode, AllocError>
    ensures { IfOk result
        (λ t. t ≡ record {
          option = cell.now.option;
          steps = cell.now.steps;
          end =
              shut_end (option_copied proof.entry) cell.now.end;
        }) }
{
    let steps = copy_steps(alloc, &cell.steps)?;
    let end = copy_shut(alloc, cell, proof)?;
    Ok(TreeNode {
        option: cell.option,
        steps,
        end,
    })
}

/// Puts the numbers of a run that follow its first one back.
fn put_rest(stack: &mut Vec<Run>, run: Run) -> Result<(), AllocError>
    requires { run.next < 2 ^ 32 - 1 }
    ensures { OnOk result
        (to_come stack.new.items ≡ range_with_len (run.next + 1) run.more
        ++ to_come stack.old.items) }
{
    if run.more == 0 {
        return Ok(());
    }
    stack.push(Run {
        next: run.next + 1,
        more: run.more - 1,
    })?;
    Ok(())
}

/// Puts the numbers of a node's children on top.
fn put_children(stack: &mut Vec<Run>, cell: &Cell) -> Result<(), AllocError>
    ensures { OnOk result
        (to_come stack.new.items ≡ numbers_below cell.now.first cell.now.end
        ++ to_come stack.old.items) }
{
    let children = cell.end.children();
    if children == 0 {
        return Ok(());
    }
    stack.push(Run {
        next: cell.first,
        more: children - 1,
    })?;
    Ok(())
}

/// Visits the next cell of a run.
fn visit(
    alloc: Global,
    cell: &Cell,
    proof: Option<&Shut>,
    run: Run,
    stack: &mut Vec<Run>,
    order: &mut Vec<u32>,
    nodes: &mut Vec<TreeNode>,
) -> Result<(), AllocError>
    requires { run.next < 2 ^ 32 - 1 }
    ensures order { OnOk result (order.new.items ≡ order.old.items ++ run.next ∷ []) }
    ensures stack { OnOk result
        (to_come stack.new.items ≡ numbers_below cell.now.first cell.now.end
        ++ (range_with_len (run.next + 1) run.more ++ to_come stack.old.items)) }
    ensures nodes { OnOk result
        (nodes.new.items ≡ nodes.old.items
        ++ record {
          option = cell.now.option;
          steps = cell.now.steps;
          end =
              shut_end (option_copied proof.entry) cell.now.end;
        } ∷ []) }
{
    put_rest(stack, run)?;
    put_children(stack, cell)?;
    let node = copy_node(alloc, cell, proof)?;
    order.push(run.next)?;
    nodes.push(node)?;
    Ok(())
}

fn place_after(place: usize, here: bool, now: usize) -> usize
    ensures { result ≡ cond here now place }
{
    if here { now } else { place }
}

fn ended(nodes: Vec<TreeNode>, order: Vec<u32>, place: usize) -> Preorder
    requires { place < 2 ^ 32 }
    ensures nodes { result.nodes ≡ nodes }
    ensures order { result.order ≡ order }
    ensures place { result.place ≡ place }
{
    Preorder {
        nodes,
        order,
        place: place as u32,
    }
}

/// The item at a number, if there is one.
fn proof_at(proofs: &[Option<Shut>], number: u32) -> Option<&Shut>
    ensures { option_copied result ≡ slice_index_or proofs.now number None }
{
    match proofs.get(number as usize) {
        Some(Some(shut)) => Some(shut),
        _ => None,
    }
}

/// The branch tree of the cells, and the place of the cell `wanted` in it. An open leaf is shut if
/// `proofs` has something at its number. It takes a step for each cell, and no recursion.
pub fn nodes_in_preorder(
    alloc: Global,
    pool: &Pool<Cell>,
    proofs: &[Option<Shut>],
    wanted: u32,
) -> Result<Preorder, AllocError>
    requires linked { IsLinked pool.now.payloads }
    requires wanted { wanted < length pool.now.payloads }
    ensures { IfOk result
        (λ t. IsTreeIn (shut_cells proofs.now pool.now.payloads) wanted t.order.items t.nodes.items
        t.place) }
{
    pool.is_pool();
    let mut nodes = Vec::new(alloc);
    let mut order = Vec::new(alloc);
    let mut place = 0;
    let mut stack = Vec::new(alloc);
    stack.push(Run { next: 0, more: 0 })?;
    'walk: while let Some(run) = stack.pop() {
        let cell = pool.payload(run.next);
        place = place_after(place, run.next == wanted, nodes.len());
        let proof = proof_at(proofs, run.next);
        visit(alloc, cell, proof, run, &mut stack, &mut order, &mut nodes)?;
    }
    Ok(ended(nodes, order, place))
}
