//! A turn of a search.
ghost use Rattle.std.specs.Prelude.{◌≡◌, ◌≤◌, IfOk, OnOk, OnErr};
ghost use Rattle.node_evaluation.specs.pns_rules.Shape.{shape_of};
ghost use Rattle.node_evaluation.specs.pns_rules.Ends.{IsSound};
ghost use Rattle.node_evaluation.specs.tree_rules.Claim.{claimed_cost};
ghost use Rattle.node_evaluation.specs.pgraph.View.{node_of};
ghost use Rattle.node_evaluation.specs.neutral_extension.Candidates.{AreMakersOf};
ghost use Rattle.node_evaluation.specs.Children.{claim_with};
ghost use Rattle.abb_search.specs.Growing.{IsTreeKept, IsGrowing, IsGoing, IsSame};
ghost use Rattle.abb_search.specs.Rounds.{IsNextLeaf, IsStopLeaf, FitsBudget, EndsWith};
ghost use Rattle.abb_search.specs.Answers.{IsMore, StepHolds};
ghost use Rattle.abb_search.specs.Searched.{StandsAt};

use crate::charging::shut_by_charges;
use crate::found::{past_found, shut_tree, tree_with, whole_found};
use crate::growing::{Growing, branch_leaf, choice_at, node_at, stopped_leaf, take_stop};
use crate::outcome::Found;
use crate::root::look_at_root;
use crate::rounds::{Ending, Goal, Next, next_leaf};
use node_evaluation::{Evaluator, Site, Workspace, copy_of_network};
use std::alloc::{AllocError, Global};

/// Branches the leaf that comes next. After `Err`, which comes when memory is refused, the tree is
/// as before.
fn branch_next<E: Evaluator>(
    workspace: &mut Workspace<E>,
    site: &Site<'_>,
    growing: &mut Growing,
    leaf: u32,
) -> Result<(), AllocError>
    requires own { E.values site.now workspace.old.evaluator }
    requires makers { AreMakersOf (shape_of site.now) workspace.old.makers.makers }
    requires growing { IsGrowing E.past site.now growing.old }
    requires next { IsNextLeaf growing.old (claimed_cost (claim_with growing.old.best)) leaf }
    requires fits { FitsBudget growing.old leaf }
    ensures more { OnOk result (IsMore E.past site.now growing.old growing.new) }
    ensures same { OnErr result (IsSame E.past site.now growing.old growing.new) }
    ensures own { E.values site.now workspace.new.evaluator }
    ensures makers { workspace.new.makers.makers ≡ workspace.old.makers.makers }
{
    site.problem();
    growing.pool.is_pool();
    let choice = choice_at(growing, leaf);
    let node = node_at(&growing.pool, leaf);
    branch_leaf(workspace, site, growing, leaf, node, choice, false)?;
    Ok(())
}

/// What is found if the search stops at a leaf because its least cost overflows. After `Err`, which
/// comes if memory is refused, the tree is as before.
fn stop_there<E: Evaluator>(
    alloc: Global,
    site: &Site<'_>,
    growing: &mut Growing,
    leaf: u32,
) -> Result<Option<Found>, AllocError>
    requires growing { IsGrowing E.past site.now growing.old }
    requires stop { IsStopLeaf growing.old (claimed_cost (claim_with growing.old.best)) leaf }
    ensures holds { IfOk result (StepHolds E.past site.now growing.old growing.new) }
    ensures same { OnErr result (IsSame E.past site.now growing.old growing.new) }
{
    site.problem();
    growing.pool.is_pool();
    let placed = tree_with(alloc, growing, leaf)?;
    let stop = take_stop(growing, leaf);
    Ok(past_found(growing.best.take(), stop, placed))
}

/// What is found if the search ends in this way. After `Err`, which comes if memory is refused, the
/// tree is as before.
fn found_by<E: Evaluator>(
    alloc: Global,
    site: &Site<'_>,
    growing: &mut Growing,
    ending: Ending,
) -> Result<Option<Found>, AllocError>
    requires kept { IsTreeKept site.now growing.old }
    requires ends { EndsWith E.past site.now growing.old
        (claimed_cost (claim_with growing.old.best)) ending }
    ensures holds { IfOk result (StepHolds E.past site.now growing.old growing.new) }
    ensures same { OnErr result (IsSame E.past site.now growing.old growing.new) }
{
    site.problem();
    match ending {
        Ending::Whole(proofs) => {
            let whole = shut_tree(alloc, growing, &proofs, 0)?;
            Ok(Some(whole_found(growing.best.take(), whole.tree)))
        }
        Ending::Spent {
            leaf,
            options,
            ends,
        } => {
            let placed = shut_tree(alloc, growing, &ends, leaf)?;
            Ok(Some(Found::Spent {
                best: growing.best.take(),
                tree: placed.tree,
                next: placed.place,
                options,
            }))
        }
        Ending::Past(stopped) => {
            let placed = tree_with(alloc, growing, stopped.leaf)?;
            Ok(past_found(growing.best.take(), Some(stopped), placed))
        }
    }
}

/// Branches the open leaf that comes next, so that the nodes are more, and shuts leaves by charges;
/// or says what is found. No leaf stops the search yet.
fn go_on<E: Evaluator>(
    workspace: &mut Workspace<E>,
    site: &Site<'_>,
    growing: &mut Growing,
) -> Result<Option<Found>, AllocError>
    requires own { E.values site.now workspace.old.evaluator }
    requires makers { AreMakersOf (shape_of site.now) workspace.old.makers.makers }
    requires growing { IsGrowing E.past site.now growing.old }
    ensures holds { IfOk result (StepHolds E.past site.now growing.old growing.new) }
    ensures same { OnErr result (IsSame E.past site.now growing.old growing.new) }
    ensures own { E.values site.now workspace.new.evaluator }
    ensures makers { workspace.new.makers.makers ≡ workspace.old.makers.makers }
{
    match next_leaf(workspace, site, growing, &Goal::Best)? {
        Next::Branch(leaf) => {
            branch_next(workspace, site, growing, leaf)?;
            shut_by_charges(workspace, site, growing);
            Ok(None)
        }
        Next::Stop(leaf) => stop_there::<E>(workspace.alloc, site, growing, leaf),
        Next::End(ending) => found_by::<E>(workspace.alloc, site, growing, ending),
    }
}

/// Adds nodes, or says what is found. After `Err`, which comes if memory is refused, the tree is as
/// before.
pub(crate) fn step<E: Evaluator>(
    workspace: &mut Workspace<E>,
    site: &Site<'_>,
    growing: &mut Growing,
) -> Result<Option<Found>, AllocError>
    requires own { E.values site.now workspace.old.evaluator }
    requires makers { AreMakersOf (shape_of site.now) workspace.old.makers.makers }
    requires going { IsGoing E.past site.now growing.old }
    ensures holds { IfOk result (StepHolds E.past site.now growing.old growing.new) }
    ensures same { OnErr result (IsSame E.past site.now growing.old growing.new) }
    ensures own { E.values site.now workspace.new.evaluator }
    ensures makers { workspace.new.makers.makers ≡ workspace.old.makers.makers }
{
    let Some(leaf) = stopped_leaf(&growing.stop) else {
        return go_on(workspace, site, growing);
    };
    let placed = tree_with(workspace.alloc, growing, leaf)?;
    Ok(past_found(growing.best.take(), growing.stop.take(), placed))
}

/// Takes a search on until it has more nodes, or to its end. Before the first turn the root is not
/// looked at yet. After `Err`, which comes if memory is refused, the tree is as before.
pub(crate) fn take_turn<E: Evaluator>(
    workspace: &mut Workspace<E>,
    site: &Site<'_>,
    growing: &mut Growing,
    looked: bool,
) -> Result<Option<Found>, AllocError>
    requires own { E.values site.now workspace.old.evaluator }
    requires makers { AreMakersOf (shape_of site.now) workspace.old.makers.makers }
    requires sound { IsSound (shape_of site.now) (node_of growing.old.start) }
    requires some { 1 ≤ growing.old.budget }
    requires stands { StandsAt E.past site.now growing.old looked }
    ensures holds { IfOk result (StepHolds E.past site.now growing.old growing.new) }
    ensures same { OnErr result (IsSame E.past site.now growing.old growing.new) }
    ensures own { E.values site.now workspace.new.evaluator }
    ensures makers { workspace.new.makers.makers ≡ workspace.old.makers.makers }
{
    if looked {
        return step(workspace, site, growing);
    }
    let mut root = look_at_root(
        workspace,
        site,
        growing.start,
        growing.budget,
        copy_of_network(workspace.alloc, &growing.best)?,
    )?;
    let found = step(workspace, site, &mut root)?;
    *growing = root;
    Ok(found)
}
