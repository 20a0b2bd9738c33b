//! The answer of a search: its networks, with its tree as a ranked one.
ghost use Rattle.std.specs.Prelude.{◌≡◌, ◌<◌, ◌≤◌, ◌^◌, ℕ, true, false, [], map, length};
ghost use Rattle.std.specs.Prelude.{slice_index_or, None, IfOk};
ghost use Rattle.rank_check.specs.problem_rules.Each.{Each};
ghost use Rattle.rank_check.specs.tree_rules.Claim.{IsSized};
ghost use Rattle.rank_check.specs.tree_rules.Accepted.{first_node};
ghost use Rattle.rank_check.specs.tree_rules.Stops.{IsOpenAt};
ghost use Rattle.rank_check.specs.pgraph.View.{node_of};
ghost use Rattle.rank_check.specs.rank_rules.Marked.{marked};
ghost use Rattle.rank_check.specs.View.{mark_of};
ghost use Rattle.abb_search.specs.search_tree.Cells.{place_of, cell_at, IsLinked};
ghost use Rattle.abb_search.specs.search_tree.Growth.{EndsOpen};
ghost use Rattle.abb_search.specs.Closing.{ShutAll, EndSome, LeavesOpen, IsSpentFor};
ghost use Rattle.abb_search.specs.Growing.{IsTreeKeptFor};
ghost use Rattle.rank_search.specs.Found.{AreBest, networks_of, undercut_by};
ghost use Rattle.rank_search.specs.Naming.{AreWithin, IsNamedTree, names_of};
ghost use Rattle.rank_check.specs.rank_rules.declared.naming.Naming.TheVariants.{Only};
ghost use Rattle.rank_check.specs.rank_rules.Leaf.{IsOpenLeaf};
ghost use Rattle.rank_search.specs.Told.{IsTelling, IsSpentTelling};

use crate::found::{FoundAt, FoundNetworks};
use crate::naming::{named_tree, names_of};
use abb_search::{Growing, Shut};
use rank_check::{Mark, Naming, Network, Site, Tree};
use std::alloc::{AllocError, Global};

/// The networks, best first, the tree with the marks of its open leaves in preorder, and the place
/// of one of its nodes.
#[derive(Drop)]
pub struct Told {
    pub networks: Vec<Network>,
    pub tree: Tree,
    pub marks: Vec<Mark>,
    pub place: u32,
}

/// The networks without the leaves at which they were found.
pub fn into_networks(alloc: Global, found: Vec<FoundAt>) -> Result<Vec<Network>, AllocError>
    ensures { IfOk result (λ ws. ws.items ≡ networks_of found.items) }
{
    found.into_iter().map(|one| one.network).collect(alloc)
}

/// At least one network is asked for, and those of the list have numbers. A call proves this, and
/// does nothing.
fn are_numbered(found: &FoundNetworks)
    ensures asked { 1 ≤ found.now.count }
    ensures few { length found.now.found < 2 ^ 32 }
{
    found.is_listed();
    let _count = found.count();
}

/// The networks with the tree in which the leaves name them, and the place of a leaf in it.
fn tell(
    alloc: Global,
    growing: &Growing,
    found: FoundNetworks,
    proofs: &[Option<Shut>],
    leaf: u32,
) -> Result<Told, AllocError>
    requires linked { IsLinked growing.now.pool.payloads }
    requires root { (cell_at growing.now.pool.payloads 0).option ≡ [] }
    requires leaf { leaf < length growing.now.pool.payloads }
    requires counted { growing.now.nodes ≡ length growing.now.pool.payloads }
    requires within { AreWithin growing.now.nodes found.found }
    ensures asked { 1 ≤ found.count }
    ensures networks { IfOk result (λ t. t.networks.items ≡ networks_of found.found) }
    ensures tree { IfOk result
        (λ t. IsNamedTree growing.now.pool.payloads Only
        (names_of (length growing.now.pool.payloads) found.found) proofs.now leaf t.tree
        (map mark_of t.marks.items) t.place) }
    ensures sized { IfOk result (λ t. Each IsSized (networks_of found.found)) }
{
    are_numbered(&found);
    let names = names_of(alloc, found.found(), growing.nodes as usize)?;
    let named = named_tree(alloc, &growing.pool, Naming::Only, &names, proofs, leaf)?;
    let networks = into_networks(alloc, found.into_found())?;
    Ok(Told {
        networks,
        tree: named.tree,
        marks: named.marks,
        place: named.place,
    })
}

/// The answer of a search that is at its end: each open leaf is shut by the item at its number. The
/// place is that of the root.
pub fn tell_whole(
    alloc: Global,
    site: &Site<'_>,
    growing: &Growing,
    found: FoundNetworks,
    proofs: &[Option<Shut>],
) -> Result<Told, AllocError>
    requires kept { IsTreeKeptFor site.now (undercut_by found.count found.found) growing.now }
    requires start { node_of growing.now.start ≡ first_node }
    requires best { AreBest site.now found.count growing.now.pool.payloads found.found }
    requires shut { ShutAll site.now growing.now (undercut_by found.count found.found) proofs.now }
    ensures networks { IfOk result (λ t. t.networks.items ≡ networks_of found.found) }
    ensures tells { IfOk result
        (λ t. IsTelling false site.now found.count t.networks.items t.tree
        (map mark_of t.marks.items)) }
{
    site.problem();
    tell(alloc, growing, found, proofs, 0)
}

/// The answer of a search that stops before its end, and the place in its tree of a leaf that stays
/// open. Open leaves may be shut or get bounds, each by the item at its number.
pub fn tell_stopped(
    alloc: Global,
    site: &Site<'_>,
    growing: &Growing,
    found: FoundNetworks,
    proofs: &[Option<Shut>],
    leaf: u32,
) -> Result<Told, AllocError>
    requires kept { IsTreeKeptFor site.now (undercut_by found.count found.found) growing.now }
    requires start { node_of growing.now.start ≡ first_node }
    requires best { AreBest site.now found.count growing.now.pool.payloads found.found }
    requires leaf { leaf < length growing.now.pool.payloads }
    requires ends { EndSome site.now growing.now (undercut_by found.count found.found) proofs.now }
    requires stays { LeavesOpen (slice_index_or proofs.now leaf None) }
    ensures networks { IfOk result (λ t. t.networks.items ≡ networks_of found.found) }
    ensures tells { IfOk result
        (λ t. IsTelling true site.now found.count t.networks.items t.tree
        (map mark_of t.marks.items)) }
    ensures open { IfOk result (λ t. EndsOpen (cell_at growing.now.pool.payloads leaf).end
        → IsOpenAt site.now IsOpenLeaf first_node (marked (map mark_of t.marks.items) t.tree)
        t.place (place_of (cell_at growing.now.pool.payloads leaf))) }
    ensures spent { IfOk result
        (λ t. (options : ℕ)
        → IsSpentFor site.now (undercut_by found.count found.found) growing.now proofs.now leaf
        options
        → IsSpentTelling site.now found.count t.networks.items t.tree (map mark_of t.marks.items)
        t.place options growing.now.budget) }
{
    site.problem();
    tell(alloc, growing, found, proofs, leaf)
}
