//! The root of a search.
ghost use Rattle.std.specs.Prelude.{◌≡◌, ◌≤◌, [], ◌∷◌, cond, None, IfOk, OnOk, length};
ghost use Rattle.node_evaluation.specs.pns_rules.Shape.{shape_of};
ghost use Rattle.node_evaluation.specs.pns_rules.Ends.{IsSound};
ghost use Rattle.node_evaluation.specs.pgraph.View.{node_of};
ghost use Rattle.node_evaluation.specs.search_tree.Growth.{is_open};
ghost use Rattle.node_evaluation.specs.neutral_extension.Candidates.{AreMakersOf};
ghost use Rattle.node_evaluation.specs.Children.{AreSolvedBy};
ghost use Rattle.abb_search.specs.Growing.{root_stop, IsOpenRoot, IsLookedRoot};

use crate::growing::{Growing, StoppedLeaf};
use crate::hand::place;
use node_evaluation::{
    Cell, Evaluator, Fresh, Mixed, Network, Node, PastStop, Pool, Site, Steps, UnitSet, Workspace,
    cheaper, look, open_cell,
};
use slab::Slab;
use std::alloc::{AllocError, Global};

/// Adds the root. It is an open leaf if its cell is one.
fn add_root(pool: &mut Pool<Cell>, cell: Cell, value: Mixed) -> Result<(), AllocError>
    requires parents { pool.old.parents ≡ [] }
    requires cells { pool.old.payloads ≡ [] }
    requires values { pool.old.values ≡ [] }
    requires leaves { pool.old.leaves ≡ [] }
    ensures cells { OnOk result (pool.new.payloads ≡ cell ∷ []) }
    ensures values { OnOk result (pool.new.values ≡ value ∷ []) }
    ensures open { OnOk result (pool.new.leaves ≡ cond (is_open cell.end) (0 ∷ []) []) }
{
    let open = cell.ends_open();
    match pool.add(None, value, cell) {
        Err(_) => Err(AllocError),
        Ok(id) => {
            if !open {
                pool.shut(id);
            }
            Ok(())
        }
    }
}

/// The root alone.
fn root_pool(alloc: Global, cell: Cell, value: Mixed) -> Result<Pool<Cell>, AllocError>
    ensures cells { IfOk result (λ pool. pool.payloads ≡ cell ∷ []) }
    ensures values { IfOk result (λ pool. pool.values ≡ value ∷ []) }
    ensures open { IfOk result (λ pool. pool.leaves ≡ cond (is_open cell.end) (0 ∷ []) []) }
{
    let mut pool = Pool::open(alloc, 1)?;
    add_root(&mut pool, cell, value)?;
    Ok(pool)
}

pub(crate) fn copy_of(node: &Node) -> Node
    ensures { result ≡ node.now }
{
    *node
}

/// The root as an open leaf without steps, and the network that is to be undercut, if there is one.
pub(crate) fn open_root(
    alloc: Global,
    start: Node,
    budget: u32,
    best: Option<Network>,
) -> Result<Growing, AllocError>
    ensures { IfOk result (IsOpenRoot start budget best) }
{
    let root = copy_of(&start);
    let cell = open_cell(UnitSet::empty(), Steps::from_vec(Vec::new(alloc)), root);
    let pool = root_pool(alloc, cell, Mixed::of(0, 1))?;
    Ok(Growing {
        start,
        budget,
        nodes: 1,
        pool,
        ready: Slab::new(alloc),
        best,
        stop: None,
    })
}

/// The root is the first node.
fn root_stop(stop: Option<PastStop>) -> Option<StoppedLeaf>
    ensures { result ≡ root_stop stop }
{
    match stop {
        None => None,
        Some(stop) => Some(StoppedLeaf { leaf: 0, stop }),
    }
}

/// The root after the steps that are possible there. `best` is the network that is to be undercut,
/// if there is one.
pub fn look_at_root<E: Evaluator>(
    workspace: &mut Workspace<E>,
    site: &Site<'_>,
    start: Node,
    budget: u32,
    best: Option<Network>,
) -> Result<Growing, AllocError>
    requires own { E.values site.now workspace.old.evaluator }
    requires makers { AreMakersOf (shape_of site.now) workspace.old.makers.makers }
    requires sound { IsSound (shape_of site.now) (node_of start) }
    ensures root { IfOk result (IsLookedRoot E.past site.now start budget best) }
    ensures solved { IfOk result
        (λ s. best ≡ None → AreSolvedBy site.now s.pool.payloads (s.best ∷ [])) }
    ensures own { E.values site.now workspace.new.evaluator }
    ensures makers { workspace.new.makers.makers ≡ workspace.old.makers.makers }
{
    let node = copy_of(&start);
    let looked = look(workspace, site, UnitSet::empty(), node)?;
    let mut ready = Slab::new(workspace.alloc);
    ready.reserve(1)?;
    let fresh = Fresh {
        cell: looked.cell,
        value: looked.value,
    };
    let root = place(fresh, looked.ready, &mut ready);
    let pool = root_pool(workspace.alloc, root.cell, root.value)?;
    Ok(Growing {
        start,
        budget,
        nodes: 1,
        pool,
        ready,
        best: cheaper(best, looked.network),
        stop: root_stop(looked.stop),
    })
}
