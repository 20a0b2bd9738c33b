//! The whole search, over any evaluator of nodes.
ghost use Rattle.std.specs.Prelude.{◌≡◌, ◌≤◌, IfOk};
ghost use Rattle.rank_check.specs.pns_rules.Shape.{shape_of};
ghost use Rattle.abb_search.specs.neutral_extension.Candidates.{AreMakersOf};
ghost use Rattle.rank_search.specs.DistinctListed.{IsListedBy};
ghost use Rattle.rank_search.specs.DistinctTurns.{IsSearching};

use crate::Ranked;
use crate::distinct_told::listed_by;
use crate::distinct_turns::run;
use crate::listing::{Listing, take_networks};
use crate::plants::Plants;
use abb_search::{Effort, Evaluator, Growing, Watch, Workspace, copy_of_network, look_at_root};
use rank_check::{Node, Site, UnitSet};
use std::alloc::{AllocError, Global};

/// A search before its first turn.
#[derive(Drop)]
struct Begun {
    growing: Growing,
    listing: Listing,
}

/// The root after the steps that are possible there, and the network that was found there, if there
/// is one.
fn begin<E: Evaluator>(
    workspace: &mut Workspace<E>,
    site: &Site<'_>,
    count: u32,
    budget: u32,
) -> Result<Begun, AllocError>
    requires own { E.values site.now workspace.old.evaluator }
    requires makers { AreMakersOf (shape_of site.now) workspace.old.makers.makers }
    requires asked { 1 ≤ count }
    requires some { 1 ≤ budget }
    ensures searching { IfOk result (λ b. IsSearching E.past site.now budget b.growing b.listing) }
    ensures count { IfOk result (λ b. b.listing.count ≡ count) }
    ensures own { E.values site.now workspace.new.evaluator }
    ensures makers { workspace.new.makers.makers ≡ workspace.old.makers.makers }
{
    let start = Node {
        inside: UnitSet::empty(),
        outside: UnitSet::empty(),
    };
    let alloc = workspace.alloc;
    let growing = look_at_root(workspace, site, start, budget, None)?;
    let mut networks = Vec::new(alloc);
    networks.push(copy_of_network(alloc, &growing.best)?)?;
    let mut listing = Listing {
        count,
        plants: Plants::new(alloc),
        reached: Vec::new(alloc),
    };
    listing.plants.are_distinct();
    take_networks(&mut listing, networks, 0)?;
    Ok(Begun { growing, listing })
}

/// Searches all structures of the site's problem for the best plants that differ, at most so many,
/// within a budget of nodes. `Err` comes if memory is refused.
fn listed<E: Evaluator, W: Watch>(
    workspace: &mut Workspace<E>,
    site: &Site<'_>,
    count: u32,
    effort: Effort<W>,
) -> Result<Ranked, AllocError>
    requires own { E.values site.now workspace.old.evaluator }
    requires makers { AreMakersOf (shape_of site.now) workspace.old.makers.makers }
    requires asked { 1 ≤ count }
    requires some { 1 ≤ effort.budget }
    ensures { IfOk result (IsListedBy E.past site.now count effort.budget) }
{
    let mut watch = effort.watch;
    let begun = begin(workspace, site, count, effort.budget)?;
    let mut growing = begun.growing;
    let mut listing = begun.listing;
    let ending = run(workspace, site, &mut growing, &mut listing, &mut watch)?;
    listed_by::<E>(workspace.alloc, site, &growing, listing, ending)
}

/// Searches all structures of the site's problem for the best plants that differ, at most so many,
/// within a budget of nodes.
pub fn alternatives_with<E: Evaluator, W: Watch>(
    workspace: &mut Workspace<E>,
    site: &Site<'_>,
    count: u32,
    effort: Effort<W>,
) -> Ranked
    requires own { E.values site.now workspace.old.evaluator }
    requires makers { AreMakersOf (shape_of site.now) workspace.old.makers.makers }
    requires asked { 1 ≤ count }
    requires some { 1 ≤ effort.budget }
    ensures { IsListedBy E.past site.now count effort.budget result }
{
    match listed(workspace, site, count, effort) {
        Ok(found) => found,
        Err(_) => Ranked::Memory,
    }
}
