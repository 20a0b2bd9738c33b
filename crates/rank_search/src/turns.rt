//! The turns of a search for the best networks, and the loop over them.
ghost use Rattle.std.specs.Prelude.{◌≡◌, IfOk, OnOk, None, length};
ghost use Rattle.rank_check.specs.pns_rules.Shape.{shape_of};
ghost use Rattle.abb_search.specs.neutral_extension.Candidates.{AreMakersOf};
ghost use Rattle.abb_search.specs.Rounds.{IsNextLeaf, FitsBudget};
ghost use Rattle.rank_search.specs.Found.{undercut_by};
ghost use Rattle.rank_search.specs.Turns.{IsRanking, IsRankEnd, IsMore, TurnHolds};

use crate::found::FoundNetworks;
use abb_search::{
    Ending, Evaluator, Goal, Growing, Next, Watch, Workspace, branch_leaf, choice_at, next_leaf,
    node_at, report_progress, take_stop,
};
use rank_check::Site;
use std::alloc::{AllocError, Global};

/// Branches the leaf that comes next and adds what is found at its children.
fn branch_next<E: Evaluator>(
    workspace: &mut Workspace<E>,
    site: &Site<'_>,
    growing: &mut Growing,
    found: &mut FoundNetworks,
    leaf: u32,
) -> Result<(), AllocError>
    requires own { E.values site.now workspace.old.evaluator }
    requires makers { AreMakersOf (shape_of site.now) workspace.old.makers.makers }
    requires ranking { IsRanking E.past site.now growing.old.budget growing.old found.old }
    requires goes_on { growing.old.stop ≡ None }
    requires next { IsNextLeaf growing.old (undercut_by found.old.count found.old.found) leaf }
    requires fits { FitsBudget growing.old leaf }
    ensures more { OnOk result
        (IsMore E.past site.now growing.old.budget (length growing.old.pool.payloads) growing.new
        found.new) }
    ensures count { OnOk result (found.new.count ≡ found.old.count) }
    ensures own { E.values site.now workspace.new.evaluator }
    ensures makers { workspace.new.makers.makers ≡ workspace.old.makers.makers }
{
    site.problem();
    growing.pool.is_pool();
    found.is_listed();
    let choice = choice_at(growing, leaf);
    let node = node_at(&growing.pool, leaf);
    let first = growing.nodes;
    let networks = branch_leaf(workspace, site, growing, leaf, node, choice, true)?;
    found.add_all(networks, first)?;
    Ok(())
}

/// Branches an open leaf of least value and adds what is found at its children, or says how the
/// search ends. No leaf stops it.
fn go_on<E: Evaluator>(
    workspace: &mut Workspace<E>,
    site: &Site<'_>,
    growing: &mut Growing,
    found: &mut FoundNetworks,
) -> Result<Option<Ending>, AllocError>
    requires own { E.values site.now workspace.old.evaluator }
    requires makers { AreMakersOf (shape_of site.now) workspace.old.makers.makers }
    requires ranking { IsRanking E.past site.now growing.old.budget growing.old found.old }
    requires goes_on { growing.old.stop ≡ None }
    ensures holds { IfOk result
        (TurnHolds E.past site.now growing.old.budget (length growing.old.pool.payloads)
        growing.new
        found.new) }
    ensures count { OnOk result (found.new.count ≡ found.old.count) }
    ensures own { E.values site.now workspace.new.evaluator }
    ensures makers { workspace.new.makers.makers ≡ workspace.old.makers.makers }
{
    site.problem();
    let goal = Goal::Given(found.to_beat());
    match next_leaf(workspace, site, growing, &goal)? {
        Next::End(ending) => Ok(Some(ending)),
        Next::Stop(leaf) => {
            growing.pool.is_pool();
            let Some(stopped) = take_stop(growing, leaf) else {
                unreachable!();
            };
            Ok(Some(Ending::Past(stopped)))
        }
        Next::Branch(leaf) => {
            branch_next(workspace, site, growing, found, leaf)?;
            Ok(None)
        }
    }
}

/// Adds nodes, or says how the search ends.
fn turn<E: Evaluator>(
    workspace: &mut Workspace<E>,
    site: &Site<'_>,
    growing: &mut Growing,
    found: &mut FoundNetworks,
) -> Result<Option<Ending>, AllocError>
    requires own { E.values site.now workspace.old.evaluator }
    requires makers { AreMakersOf (shape_of site.now) workspace.old.makers.makers }
    requires ranking { IsRanking E.past site.now growing.old.budget growing.old found.old }
    ensures holds { IfOk result
        (TurnHolds E.past site.now growing.old.budget (length growing.old.pool.payloads)
        growing.new
        found.new) }
    ensures count { OnOk result (found.new.count ≡ found.old.count) }
    ensures own { E.values site.now workspace.new.evaluator }
    ensures makers { workspace.new.makers.makers ≡ workspace.old.makers.makers }
{
    match growing.stop.take() {
        Some(stopped) => Ok(Some(Ending::Past(stopped))),
        None => go_on(workspace, site, growing, found),
    }
}

/// Takes turns until the search ends.
pub(crate) fn run<E: Evaluator, W: Watch>(
    workspace: &mut Workspace<E>,
    site: &Site<'_>,
    growing: &mut Growing,
    found: &mut FoundNetworks,
    watch: &mut W,
) -> Result<Ending, AllocError>
    requires own { E.values site.now workspace.old.evaluator }
    requires makers { AreMakersOf (shape_of site.now) workspace.old.makers.makers }
    requires ranking { IsRanking E.past site.now growing.old.budget growing.old found.old }
    ensures ends { IfOk result
        (IsRankEnd E.past site.now growing.old.budget growing.new found.new) }
    ensures count { OnOk result (found.new.count ≡ found.old.count) }
    ensures own { E.values site.now workspace.new.evaluator }
{
    'turns: loop {
        report_progress(watch, site, growing);
        if let Some(ending) = turn(workspace, site, growing, found)? {
            return Ok(ending);
        }
    }
}
