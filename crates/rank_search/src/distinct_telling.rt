//! The answer of a search: its plants, with its tree as a ranked one.
ghost use Rattle.std.specs.Prelude.{◌≡◌, ◌<◌, ◌≤◌, ◌^◌, ℕ, true, false, [], map, length, take};
ghost use Rattle.std.specs.Prelude.{slice_index_or, None, IfOk};
ghost use Rattle.rank_check.specs.tree_rules.Accepted.{first_node};
ghost use Rattle.rank_check.specs.tree_rules.Stops.{IsOpenAt};
ghost use Rattle.rank_check.specs.pgraph.View.{node_of};
ghost use Rattle.rank_check.specs.rank_rules.Marked.{marked};
ghost use Rattle.rank_check.specs.rank_rules.Leaf.{IsOpenLeaf};
ghost use Rattle.rank_check.specs.View.{mark_of};
ghost use Rattle.abb_search.specs.search_tree.Cells.{place_of, cell_at, IsLinked};
ghost use Rattle.abb_search.specs.search_tree.Growth.{EndsOpen};
ghost use Rattle.abb_search.specs.Closing.{ShutAll, EndSome, LeavesOpen, IsSpentFor};
ghost use Rattle.abb_search.specs.Growing.{IsTreeKeptFor};
ghost use Rattle.rank_search.specs.Found.{networks_of};
ghost use Rattle.rank_search.specs.Told.{IsTellingOf, IsSpentOf};
ghost use Rattle.rank_search.specs.Plants.{AreDistinct};
ghost use Rattle.rank_search.specs.Listing.{IsListing, goal_of};
ghost use Rattle.rank_search.specs.Telling.{IsNamedBy};

use crate::listing::Listing;
use crate::names::names_for;
use crate::{Told, into_networks, named_tree};
use abb_search::{Growing, Shut};
use rank_check::{Naming, Site};
use std::alloc::{AllocError, Global};

/// The plants with the tree in which the leaves name them, and the place of a leaf in it.
fn tell(
    alloc: Global,
    growing: &Growing,
    listing: Listing,
    proofs: &[Option<Shut>],
    leaf: u32,
) -> Result<Told, AllocError>
    requires linked { IsLinked growing.now.pool.payloads }
    requires root { (cell_at growing.now.pool.payloads 0).option ≡ [] }
    requires leaf { leaf < length growing.now.pool.payloads }
    requires as_many { length listing.reached.items ≡ length growing.now.pool.payloads }
    requires numbered { length growing.now.pool.payloads < 2 ^ 32 }
    ensures distinct { AreDistinct listing.plants }
    ensures networks { IfOk result
        (λ t. t.networks.items ≡ networks_of (take listing.count listing.plants)) }
    ensures tree { IfOk result
        (λ t. IsNamedBy growing.now.pool.payloads (take listing.count listing.plants)
        listing.reached.items proofs.now leaf t.tree (map mark_of t.marks.items) t.place) }
{
    listing.plants.are_distinct();
    let count = listing.count;
    let listed = listing.plants.into_first(count);
    let names = names_for(alloc, &growing.pool, &listed, &listing.reached)?;
    let named = named_tree(alloc, &growing.pool, Naming::Within, &names, proofs, leaf)?;
    let networks = into_networks(alloc, listed)?;
    Ok(Told {
        networks,
        tree: named.tree,
        marks: named.marks,
        place: named.place,
    })
}

/// The answer of a search that is at its end: each open leaf is shut by the item at its number. The
/// place is that of the root.
pub(crate) fn tell_whole(
    alloc: Global,
    site: &Site<'_>,
    growing: &Growing,
    listing: Listing,
    proofs: &[Option<Shut>],
) -> Result<Told, AllocError>
    requires kept { IsTreeKeptFor site.now None growing.now }
    requires start { node_of growing.now.start ≡ first_node }
    requires asked { 1 ≤ listing.count }
    requires listing { IsListing site.now growing.now.pool.payloads listing.plants
        listing.reached.items }
    requires shut { ShutAll site.now growing.now (goal_of listing.count listing.plants) proofs.now }
    ensures { IfOk result
        (λ t. IsTellingOf true false site.now listing.count None t.networks.items t.tree
        (map mark_of t.marks.items)) }
{
    site.problem();
    tell(alloc, growing, listing, proofs, 0)
}

/// The answer of a search that stops before its end, and the place in its tree of a leaf that stays
/// open. Open leaves may be shut or get bounds, each by the item at its number.
pub(crate) fn tell_stopped(
    alloc: Global,
    site: &Site<'_>,
    growing: &Growing,
    listing: Listing,
    proofs: &[Option<Shut>],
    leaf: u32,
) -> Result<Told, AllocError>
    requires kept { IsTreeKeptFor site.now None growing.now }
    requires start { node_of growing.now.start ≡ first_node }
    requires asked { 1 ≤ listing.count }
    requires listing { IsListing site.now growing.now.pool.payloads listing.plants
        listing.reached.items }
    requires leaf { leaf < length growing.now.pool.payloads }
    requires ends { EndSome site.now growing.now None proofs.now }
    requires stays { LeavesOpen (slice_index_or proofs.now leaf None) }
    ensures tells { IfOk result
        (λ t. IsTellingOf true true site.now listing.count None t.networks.items t.tree
        (map mark_of t.marks.items)) }
    ensures open { IfOk result (λ t. EndsOpen (cell_at growing.now.pool.payloads leaf).end
        → IsOpenAt site.now IsOpenLeaf first_node (marked (map mark_of t.marks.items) t.tree)
        t.place (place_of (cell_at growing.now.pool.payloads leaf))) }
    ensures spent { IfOk result
        (λ t. (options : ℕ)
        → IsSpentFor site.now None growing.now proofs.now leaf options
        → IsSpentOf site.now None t.tree (map mark_of t.marks.items) t.place options
        growing.now.budget) }
{
    site.problem();
    tell(alloc, growing, listing, proofs, leaf)
}
