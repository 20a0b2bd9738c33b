//! The worth of open leaves is settled: when a leaf is to be branched, and before a search ends
//! because its budget is spent.
ghost use Rattle.std.specs.Prelude.{◌≡◌, ◌<◌, true, IfOk, IfSome, IfNone, Option, length};
ghost use Rattle.node_evaluation.specs.pns_rules.Shape.{shape_of};
ghost use Rattle.node_evaluation.specs.pgraph.View.{node_of};
ghost use Rattle.node_evaluation.specs.search_tree.Cells.{cell_at};
ghost use Rattle.node_evaluation.specs.Looks.{IsSettling};
ghost use Rattle.node_evaluation.specs.tree_rules.Claim.{CostOver};
ghost use Rattle.abb_search.specs.Worth.{is_settled, is_settled_worth, is_put_off};
ghost use Rattle.abb_search.specs.Worth.{is_put_off_worth};
ghost use Rattle.abb_search.specs.Closing.{hand_of};
ghost use Rattle.abb_search.specs.Growing.{AreOpen, IsGrowingFor, IsSame, ready_at};
ghost use Rattle.abb_search.specs.Settling.{is_waiting, AreSettled, SettleHolds, StaysSettling};

use crate::closing::hand_at;
use crate::growing::{Growing, StoppedLeaf, key_at, node_at};
use crate::hand::put_worth;
use node_evaluation::{
    Evaluator, Node, Settling, Site, Workspace, Worth, copy_multipliers, settle,
};
use std::alloc::{AllocError, Global};

/// Whether the worth is settled, and the node has relaxed flows.
fn is_settled_worth(worth: &Worth) -> bool
    ensures { result ≡ is_settled_worth worth.now }
{
    match worth {
        Worth::Settled(_) => true,
        Worth::AtLeast(_) | Worth::Refuted(_) => false,
    }
}

/// Whether a lower bound is all that is known.
fn is_put_off_worth(worth: &Worth) -> bool
    ensures { result ≡ is_put_off_worth worth.now }
{
    match worth {
        Worth::AtLeast(_) => true,
        Worth::Settled(_) | Worth::Refuted(_) => false,
    }
}

/// Whether the worth of an open leaf is settled, and it has relaxed flows.
pub fn is_settled(growing: &Growing, leaf: u32) -> bool
    requires { leaf < length growing.now.pool.payloads }
    ensures { result ≡ is_settled (ready_at growing.now leaf) }
{
    match growing.ready.get(key_at(&growing.pool, leaf)) {
        None => false,
        Some(ready) => is_settled_worth(&ready.worth),
    }
}

/// Whether a node is an open leaf of which only a lower bound is known.
fn is_put_off(growing: &Growing, leaf: u32) -> bool
    requires { leaf < length growing.now.pool.payloads }
    ensures { result ≡ is_put_off (hand_of growing.now leaf) }
{
    match hand_at(growing, leaf) {
        None => false,
        Some(ready) => is_put_off_worth(&ready.worth),
    }
}

/// The leaf that follows that of least value in the order of the pool's open leaves, if its worth
/// is not settled.
pub fn next_waiting(growing: &Growing) -> Option<u32>
    ensures { IfSome result (λ leaf. is_waiting growing.now leaf ≡ true) }
{
    growing.pool.is_pool();
    let Some(next) = growing.pool.next_least() else {
        return None;
    };
    if is_settled(growing, next) {
        None
    } else {
        Some(next)
    }
}

/// The first open leaf of which only a lower bound is known.
pub fn first_put_off(growing: &Growing) -> Option<u32>
    requires counted { growing.now.nodes ≡ length growing.now.pool.payloads }
    requires open { AreOpen growing.now }
    ensures none { IfNone result (AreSettled growing.now) }
    ensures some { IfSome result (λ leaf. is_waiting growing.now leaf ≡ true) }
{
    'leaves: for leaf in 0..growing.nodes {
        if is_put_off(growing, leaf) {
            return Some(leaf);
        }
    }
    None
}

/// The worth of an open leaf: it is settled now, from what its first look found, or the leaf is
/// refuted already.
fn settling_at<E: Evaluator>(
    workspace: &mut Workspace<E>,
    site: &Site<'_>,
    growing: &Growing,
    leaf: u32,
    node: Node,
) -> Result<Settling, AllocError>
    requires own { E.values site.now workspace.old.evaluator }
    requires growing { (undercut : Option CostOver)
        × IsGrowingFor E.past site.now undercut growing.now }
    requires leaf { leaf < length growing.now.pool.payloads }
    requires node { node ≡ (cell_at growing.now.pool.payloads leaf).node }
    requires waits { is_waiting growing.now leaf ≡ true }
    ensures settled { IfOk result (IsSettling E.past site.now (node_of node)) }
    ensures own { E.values site.now workspace.new.evaluator }
    ensures makers { workspace.new.makers ≡ workspace.old.makers }
{
    let Some(ready) = growing.ready.get(key_at(&growing.pool, leaf)) else {
        unreachable!();
    };
    match &ready.worth {
        Worth::AtLeast(bound) => settle(workspace, site, node, bound),
        Worth::Refuted(ys) => {
            let copy = copy_multipliers(workspace.alloc, ys)?;
            Ok(Settling::Refuted(copy))
        }
        Worth::Settled(_) => unreachable!(),
    }
}

/// Settles the worth of an open leaf. Its value may rise then. If it turns out to have no relaxed
/// flows, it leaves the pool, and its cell stays open. The answer is the place at which a number
/// overflows there. `Err` comes if memory is refused.
pub fn settle_leaf<E: Evaluator>(
    workspace: &mut Workspace<E>,
    site: &Site<'_>,
    growing: &mut Growing,
    leaf: u32,
) -> Result<Option<StoppedLeaf>, AllocError>
    requires own { E.values site.now workspace.old.evaluator }
    requires growing { (undercut : Option CostOver)
        × IsGrowingFor E.past site.now undercut growing.old }
    requires waits { is_waiting growing.old leaf ≡ true }
    ensures settles { IfOk result (SettleHolds E.past site.now growing.old growing.new) }
    ensures same { IsSame E.past site.now growing.old growing.new }
    ensures own { E.values site.now workspace.new.evaluator }
    ensures makers { workspace.new.makers ≡ workspace.old.makers }
{
    growing.pool.is_pool();
    let node = node_at(&growing.pool, leaf);
    match settling_at(workspace, site, growing, leaf, node)? {
        Settling::Least(bound) => {
            let value = bound.value;
            put_worth(
                &mut growing.ready,
                key_at(&growing.pool, leaf),
                Worth::Settled(bound),
            );
            growing.pool.raise(leaf, value);
            Ok(None)
        }
        Settling::Refuted(ys) => {
            put_worth(
                &mut growing.ready,
                key_at(&growing.pool, leaf),
                Worth::Refuted(ys),
            );
            growing.pool.shut(leaf);
            Ok(None)
        }
        Settling::Stopped(stop) => Ok(Some(StoppedLeaf { leaf, stop })),
    }
}

/// Settles a node as [`settle_leaf`] does, if it is an open leaf of which only a lower bound is
/// known.
fn settle_put_off<E: Evaluator>(
    workspace: &mut Workspace<E>,
    site: &Site<'_>,
    growing: &mut Growing,
    leaf: u32,
) -> Result<Option<StoppedLeaf>, AllocError>
    requires own { E.values site.now workspace.old.evaluator }
    requires growing { (undercut : Option CostOver)
        × IsGrowingFor E.past site.now undercut growing.old }
    requires leaf { leaf < length growing.old.pool.payloads }
    ensures settles { IfOk result (StaysSettling E.past site.now growing.old growing.new) }
    ensures same { IsSame E.past site.now growing.old growing.new }
    ensures own { E.values site.now workspace.new.evaluator }
    ensures makers { workspace.new.makers ≡ workspace.old.makers }
{
    if is_put_off(growing, leaf) {
        settle_leaf(workspace, site, growing, leaf)
    } else {
        Ok(None)
    }
}

/// Settles an open leaf, and each later one in the order of adding of which only a lower bound is
/// known, in one pass. It ends at the first of them at which a number overflows, which is the
/// answer. `Err` comes if memory is refused.
pub fn settle_from<E: Evaluator>(
    workspace: &mut Workspace<E>,
    site: &Site<'_>,
    growing: &mut Growing,
    first: u32,
) -> Result<Option<StoppedLeaf>, AllocError>
    requires own { E.values site.now workspace.old.evaluator }
    requires growing { (undercut : Option CostOver)
        × IsGrowingFor E.past site.now undercut growing.old }
    requires waits { is_waiting growing.old first ≡ true }
    ensures settles { IfOk result (SettleHolds E.past site.now growing.old growing.new) }
    ensures same { IsSame E.past site.now growing.old growing.new }
    ensures own { E.values site.now workspace.new.evaluator }
    ensures makers { workspace.new.makers ≡ workspace.old.makers }
{
    growing.pool.is_pool();
    if let Some(stopped) = settle_leaf(workspace, site, growing, first)? {
        return Ok(Some(stopped));
    }
    'leaves: for leaf in first + 1..growing.nodes {
        if let Some(stopped) = settle_put_off(workspace, site, growing, leaf)? {
            return Ok(Some(stopped));
        }
    }
    Ok(None)
}
