//! The turns of a search for plants that differ, and the loop over them.
ghost use Rattle.std.specs.Prelude.{◌≡◌, IfOk, OnOk, None, true};
ghost use Rattle.rank_check.specs.pns_rules.Shape.{shape_of};
ghost use Rattle.abb_search.specs.neutral_extension.Candidates.{AreMakersOf};
ghost use Rattle.abb_search.specs.Rounds.{IsNextLeaf, FitsBudget, IsNext};
ghost use Rattle.rank_search.specs.DistinctTurns.{IsSearching, IsListEnd, GoesOn, TurnHolds};
ghost use Rattle.rank_search.specs.DistinctTurns.{left_over};

use crate::closing::{close_least, shut_by_last};
use crate::listing::{Listing, take_networks};
use abb_search::{
    Ending, Evaluator, Goal, Growing, Next, Watch, Workspace, branch_leaf, choice_at, next_leaf,
    node_at, report_progress, take_stop,
};
use rank_check::Site;
use std::alloc::{AllocError, Global};

/// Branches the leaf that comes next and takes what is found at its children.
fn branch_next<E: Evaluator>(
    workspace: &mut Workspace<E>,
    site: &Site<'_>,
    growing: &mut Growing,
    listing: &mut Listing,
    leaf: u32,
) -> Result<(), AllocError>
    requires own { E.values site.now workspace.old.evaluator }
    requires makers { AreMakersOf (shape_of site.now) workspace.old.makers.makers }
    requires searching { IsSearching E.past site.now growing.old.budget growing.old listing.old }
    requires goes_on { growing.old.stop ≡ None }
    requires next { IsNextLeaf growing.old None leaf }
    requires fits { FitsBudget growing.old leaf }
    ensures more { OnOk result
        (GoesOn E.past site.now growing.old.budget (left_over growing.old) growing.new
        listing.new) }
    ensures count { listing.new.count ≡ listing.old.count }
    ensures own { E.values site.now workspace.new.evaluator }
    ensures makers { workspace.new.makers.makers ≡ workspace.old.makers.makers }
{
    site.problem();
    growing.pool.is_pool();
    listing.plants.are_distinct();
    let choice = choice_at(growing, leaf);
    let node = node_at(&growing.pool, leaf);
    let first = growing.nodes;
    let networks = branch_leaf(workspace, site, growing, leaf, node, choice, true)?;
    take_networks(listing, networks, first)
}

/// Does what comes next: branches a leaf, or says how the search ends.
fn take_next<E: Evaluator>(
    workspace: &mut Workspace<E>,
    site: &Site<'_>,
    growing: &mut Growing,
    listing: &mut Listing,
    next: Next,
) -> Result<Option<Ending>, AllocError>
    requires own { E.values site.now workspace.old.evaluator }
    requires makers { AreMakersOf (shape_of site.now) workspace.old.makers.makers }
    requires searching { IsSearching E.past site.now growing.old.budget growing.old listing.old }
    requires goes_on { growing.old.stop ≡ None }
    requires next { IsNext E.past site.now growing.old None next }
    ensures holds { IfOk result
        (TurnHolds E.past site.now growing.old.budget (left_over growing.old) growing.new
        listing.new) }
    ensures count { listing.new.count ≡ listing.old.count }
    ensures own { E.values site.now workspace.new.evaluator }
    ensures makers { workspace.new.makers.makers ≡ workspace.old.makers.makers }
{
    site.problem();
    match next {
        Next::End(ending) => Ok(Some(ending)),
        Next::Stop(leaf) => {
            growing.pool.is_pool();
            let Some(stopped) = take_stop(growing, leaf) else {
                unreachable!();
            };
            Ok(Some(Ending::Past(stopped)))
        }
        Next::Branch(leaf) => {
            branch_next(workspace, site, growing, listing, leaf)?;
            Ok(None)
        }
    }
}

/// Shuts a leaf or branches one, or says how the search ends. No leaf stops it.
fn go_on<E: Evaluator>(
    workspace: &mut Workspace<E>,
    site: &Site<'_>,
    growing: &mut Growing,
    listing: &mut Listing,
) -> Result<Option<Ending>, AllocError>
    requires own { E.values site.now workspace.old.evaluator }
    requires makers { AreMakersOf (shape_of site.now) workspace.old.makers.makers }
    requires searching { IsSearching E.past site.now growing.old.budget growing.old listing.old }
    requires goes_on { growing.old.stop ≡ None }
    ensures holds { IfOk result
        (TurnHolds E.past site.now growing.old.budget (left_over growing.old) growing.new
        listing.new) }
    ensures count { listing.new.count ≡ listing.old.count }
    ensures own { E.values site.now workspace.new.evaluator }
    ensures makers { workspace.new.makers.makers ≡ workspace.old.makers.makers }
{
    let next = next_leaf(workspace, site, growing, &Goal::Given(None))?;
    if let Some(proofs) = shut_by_last(workspace, site, growing, listing)? {
        return Ok(Some(Ending::Whole(proofs)));
    }
    if close_least(workspace, site, growing, listing)? {
        return Ok(None);
    }
    take_next(workspace, site, growing, listing, next)
}

/// Shuts a leaf or adds nodes, or says how the search ends.
fn turn<E: Evaluator>(
    workspace: &mut Workspace<E>,
    site: &Site<'_>,
    growing: &mut Growing,
    listing: &mut Listing,
) -> Result<Option<Ending>, AllocError>
    requires own { E.values site.now workspace.old.evaluator }
    requires makers { AreMakersOf (shape_of site.now) workspace.old.makers.makers }
    requires searching { IsSearching E.past site.now growing.old.budget growing.old listing.old }
    ensures holds { IfOk result
        (TurnHolds E.past site.now growing.old.budget (left_over growing.old) growing.new
        listing.new) }
    ensures count { listing.new.count ≡ listing.old.count }
    ensures own { E.values site.now workspace.new.evaluator }
    ensures makers { workspace.new.makers.makers ≡ workspace.old.makers.makers }
{
    match growing.stop.take() {
        Some(stopped) => Ok(Some(Ending::Past(stopped))),
        None => go_on(workspace, site, growing, listing),
    }
}

/// Takes turns until the search ends.
pub(crate) fn run<E: Evaluator, W: Watch>(
    workspace: &mut Workspace<E>,
    site: &Site<'_>,
    growing: &mut Growing,
    listing: &mut Listing,
    watch: &mut W,
) -> Result<Ending, AllocError>
    requires own { E.values site.now workspace.old.evaluator }
    requires makers { AreMakersOf (shape_of site.now) workspace.old.makers.makers }
    requires searching { IsSearching E.past site.now growing.old.budget growing.old listing.old }
    ensures ends { IfOk result
        (IsListEnd E.past site.now growing.old.budget growing.new listing.new) }
    ensures count { listing.new.count ≡ listing.old.count }
    ensures own { E.values site.now workspace.new.evaluator }
{
    'turns: loop {
        report_progress(watch, site, growing);
        if let Some(ending) = turn(workspace, site, growing, listing)? {
            return Ok(ending);
        }
    }
}
