//! Rounds, which settle the worth of open leaves until it is known which leaf is branched next, or
//! how the search ends.
ghost use Rattle.std.specs.Prelude.{◌≡◌, ◌↔◌, ◌<◌, ◌+◌, IsTrue, IfOk, Option, option_copied};
ghost use Rattle.std.specs.Prelude.{length};
ghost use Rattle.node_evaluation.specs.link_lists.Lists.{first};
ghost use Rattle.node_evaluation.specs.pns_rules.Shape.{shape_of};
ghost use Rattle.node_evaluation.specs.tree_rules.Claim.{CostOver};
ghost use Rattle.node_evaluation.specs.Choices.{option_count};
ghost use Rattle.node_evaluation.specs.Looks.{cost_of};
ghost use Rattle.abb_search.specs.Growing.{IsGrowingFor, IsSame, IsSettledAt, LeafUndercuts};
ghost use Rattle.abb_search.specs.Growing.{choice_of, ready_at};
ghost use Rattle.abb_search.specs.Rounds.{IsBeating, IsClosing, ClosingHolds, ValueUndercuts};
ghost use Rattle.abb_search.specs.Rounds.{IsNextLeaf, IsNext, RoundHolds, ends_at, undercut_of};

use crate::closing::{Closing, close_all, shut_refuted, tell_leaves};
use crate::growing::{
    Growing, StoppedLeaf, choice_at, is_over, is_within, leads, reached_at, reaches,
};
use crate::settling::{first_put_off, is_settled, next_waiting, settle_from, settle_leaf};
use node_evaluation::{Evaluator, Mixed, Network, Shut, Site, Workspace};
use std::alloc::{AllocError, Global};

/// What is to be undercut.
#[derive(Drop)]
pub enum Goal<'a> {
    /// The search's own best network, if there is one.
    Best,
    /// This network, or nothing yet.
    Given(Option<&'a Network>),
}

/// How a search ends.
#[derive(Drop)]
pub enum Ending {
    /// This shuts each leaf that is open, by its number.
    Whole(Vec<Option<Shut>>),
    /// The leaf would be branched next, into too many children. The worth of each open leaf is
    /// settled, and open leaves end with these, by their numbers: each that is refuted with its
    /// refutation, and others with their bounds.
    Spent {
        leaf: u32,
        options: u128,
        ends: Vec<Option<Shut>>,
    },
    /// A number overflows at an open leaf.
    Past(StoppedLeaf),
}

/// What a turn does if no leaf stops the search.
#[derive(Drop)]
pub enum Next {
    /// Branches this leaf.
    Branch(u32),
    /// Stops at this leaf. Its least cost overflows, and it may cost more than another leaf, or
    /// more than what is to be undercut.
    Stop(u32),
    /// Ends the search.
    End(Ending),
}

impl<'a> Goal<'a> {
    /// The network that is to be undercut, if there is one.
    fn to_beat<'b>(&'b self, growing: &'b Growing) -> Option<&'b Network>
        ensures { cost_of (option_copied result) ≡ undercut_of self.now growing.now }
    {
        match self {
            Goal::Best => growing.best.as_ref(),
            Goal::Given(network) => *network,
        }
    }

    /// The network that is to be undercut, if it costs no more than the value.
    fn beating<'b>(&'b self, growing: &'b Growing, value: &Mixed) -> Option<&'b Network>
        ensures { IsBeating (undercut_of self.now growing.now) value.now (option_copied result) }
    {
        let network = self.to_beat(growing)?;
        if reaches(value, network) {
            Some(network)
        } else {
            None
        }
    }

    /// Whether a settled open leaf has relaxed flows that cost at most as much as what is to be
    /// undercut.
    fn may_be_undercut(&self, growing: &Growing, leaf: u32) -> bool
        requires { leaf < length growing.now.pool.payloads }
        ensures { IsTrue result
            ↔ LeafUndercuts growing.now (undercut_of self.now growing.now) leaf }
    {
        let reached = reached_at(growing, leaf);
        match self.to_beat(growing) {
            None => true,
            Some(network) => is_within(&reached, network),
        }
    }
}

/// The search ends if a number overflows at the leaf that was to be settled.
fn ends_at(stopped: Option<StoppedLeaf>) -> Option<Next>
    ensures { result ≡ ends_at stopped }
{
    match stopped {
        None => None,
        Some(stopped) => Some(Next::End(Ending::Past(stopped))),
    }
}

/// The search ends before a leaf whose children are above the budget. First the worth of each open
/// leaf is settled, since another leaf may then be a least one.
fn spend<E: Evaluator>(
    workspace: &mut Workspace<E>,
    site: &Site<'_>,
    growing: &mut Growing,
    leaf: u32,
    options: u128,
) -> Result<Option<Next>, AllocError>
    requires own { E.values site.now workspace.old.evaluator }
    requires growing { (undercut : Option CostOver)
        × IsGrowingFor E.past site.now undercut growing.old }
    requires options { options ≡ option_count (choice_of (ready_at growing.old leaf)) }
    requires over { growing.old.budget < length growing.old.pool.payloads + options }
    ensures holds { (undercut : Option CostOver) → IsGrowingFor E.past site.now undercut growing.old
        → IsNextLeaf growing.old undercut leaf
        → IfOk result (RoundHolds E.past site.now growing.old growing.new undercut) }
    ensures same { IsSame E.past site.now growing.old growing.new }
    ensures own { E.values site.now workspace.new.evaluator }
    ensures makers { workspace.new.makers ≡ workspace.old.makers }
{
    site.problem();
    growing.pool.is_pool();
    if let Some(first) = first_put_off(growing) {
        let stopped = settle_from(workspace, site, growing, first)?;
        return Ok(ends_at(stopped));
    }
    let ends = tell_leaves(workspace.alloc, growing)?;
    Ok(Some(Next::End(Ending::Spent {
        leaf,
        options,
        ends,
    })))
}

/// Branches a least leaf that may undercut what is to be undercut, or says that the budget is
/// spent.
fn branch_least<E: Evaluator>(
    workspace: &mut Workspace<E>,
    site: &Site<'_>,
    growing: &mut Growing,
    goal: &Goal<'_>,
    leaf: u32,
) -> Result<Option<Next>, AllocError>
    requires own { E.values site.now workspace.old.evaluator }
    requires growing { IsGrowingFor E.past site.now (undercut_of goal.now growing.old) growing.old }
    requires next { IsNextLeaf growing.old (undercut_of goal.now growing.old) leaf }
    ensures holds { IfOk result
        (RoundHolds E.past site.now growing.old growing.new (undercut_of goal.now growing.old)) }
    ensures same { IsSame E.past site.now growing.old growing.new }
    ensures own { E.values site.now workspace.new.evaluator }
    ensures makers { workspace.new.makers ≡ workspace.old.makers }
{
    site.problem();
    growing.pool.is_pool();
    let choice = choice_at(growing, leaf);
    let options = choice.options();
    if is_over(options, growing.nodes, growing.budget) {
        return spend(workspace, site, growing, leaf, options);
    }
    Ok(Some(Next::Branch(leaf)))
}

/// What shuts each open leaf, if the network that is to be undercut costs no more than the value of
/// this leaf, which is the least.
fn close<E: Evaluator>(
    workspace: &mut Workspace<E>,
    site: &Site<'_>,
    growing: &Growing,
    goal: &Goal<'_>,
    leaf: u32,
) -> Result<Option<Closing>, AllocError>
    requires own { E.values site.now workspace.old.evaluator }
    requires growing { IsGrowingFor E.past site.now (undercut_of goal.now growing.now) growing.now }
    requires leaf { first growing.now.pool.leaves ≡ Some leaf }
    ensures closing { IfOk result
        (IsClosing E.past site.now growing.now (undercut_of goal.now growing.now) leaf) }
    ensures own { E.values site.now workspace.new.evaluator }
    ensures makers { workspace.new.makers ≡ workspace.old.makers }
{
    site.problem();
    growing.pool.is_pool();
    let value = growing.pool.value(leaf);
    let Some(network) = goal.beating(growing, &value) else {
        return Ok(None);
    };
    let closing = close_all(workspace, site, growing, network)?;
    Ok(Some(closing))
}

/// Ends the search if all open leaves are shut. A leaf at which a number overflows cannot be shut.
/// It is branched if it has relaxed flows that cost just as much as what is to be undercut; else
/// the search ends there.
fn after_closing<E: Evaluator>(
    workspace: &mut Workspace<E>,
    site: &Site<'_>,
    growing: &mut Growing,
    goal: &Goal<'_>,
    closing: Closing,
) -> Result<Option<Next>, AllocError>
    requires own { E.values site.now workspace.old.evaluator }
    requires growing { IsGrowingFor E.past site.now (undercut_of goal.now growing.old) growing.old }
    requires closing { ClosingHolds E.past site.now growing.old (undercut_of goal.now growing.old)
        closing }
    ensures holds { IfOk result
        (RoundHolds E.past site.now growing.old growing.new (undercut_of goal.now growing.old)) }
    ensures same { IsSame E.past site.now growing.old growing.new }
    ensures own { E.values site.now workspace.new.evaluator }
    ensures makers { workspace.new.makers ≡ workspace.old.makers }
{
    match closing {
        Closing::Proved(proofs) => Ok(Some(Next::End(Ending::Whole(proofs)))),
        Closing::Stopped(stopped) => {
            if goal.may_be_undercut(growing, stopped.leaf) {
                let leaf = stopped.leaf;
                branch_least(workspace, site, growing, goal, leaf)
            } else {
                Ok(Some(Next::End(Ending::Past(stopped))))
            }
        }
    }
}

/// Branches the settled leaf of least value. If it may cost more than the next leaf in the order of
/// values, the worth of that one is settled first. The search stops at a leaf whose least cost
/// overflows, if it may cost more than another one or than what is to be undercut.
fn take_least<E: Evaluator>(
    workspace: &mut Workspace<E>,
    site: &Site<'_>,
    growing: &mut Growing,
    goal: &Goal<'_>,
    leaf: u32,
) -> Result<Option<Next>, AllocError>
    requires own { E.values site.now workspace.old.evaluator }
    requires growing { IsGrowingFor E.past site.now (undercut_of goal.now growing.old) growing.old }
    requires leaf { first growing.old.pool.leaves ≡ Some leaf }
    requires settled { IsSettledAt growing.old leaf }
    requires below { ValueUndercuts growing.old (undercut_of goal.now growing.old) leaf }
    ensures holds { IfOk result
        (RoundHolds E.past site.now growing.old growing.new (undercut_of goal.now growing.old)) }
    ensures same { IsSame E.past site.now growing.old growing.new }
    ensures own { E.values site.now workspace.new.evaluator }
    ensures makers { workspace.new.makers ≡ workspace.old.makers }
{
    site.problem();
    growing.pool.is_pool();
    if leads(growing, leaf) {
        if goal.may_be_undercut(growing, leaf) {
            return branch_least(workspace, site, growing, goal, leaf);
        }
    } else if let Some(next) = next_waiting(growing) {
        let stopped = settle_leaf(workspace, site, growing, next)?;
        return Ok(ends_at(stopped));
    }
    Ok(Some(Next::Stop(leaf)))
}

/// Takes a round at the leaf of least value: its worth is settled, or it is found out what comes
/// next. If the network that is to be undercut costs no more than that value, all open leaves are
/// shut. Two kinds of leaves stop the search: the leaf of least value, if it may not be branched
/// since its least cost overflows, and one at which a number overflows as it is settled or shut.
fn round<E: Evaluator>(
    workspace: &mut Workspace<E>,
    site: &Site<'_>,
    growing: &mut Growing,
    goal: &Goal<'_>,
) -> Result<Option<Next>, AllocError>
    requires own { E.values site.now workspace.old.evaluator }
    requires growing { IsGrowingFor E.past site.now (undercut_of goal.now growing.old) growing.old }
    ensures holds { IfOk result
        (RoundHolds E.past site.now growing.old growing.new (undercut_of goal.now growing.old)) }
    ensures same { IsSame E.past site.now growing.old growing.new }
    ensures own { E.values site.now workspace.new.evaluator }
    ensures makers { workspace.new.makers ≡ workspace.old.makers }
{
    site.problem();
    growing.pool.is_pool();
    let Some(leaf) = growing.pool.least() else {
        let proofs = shut_refuted(workspace.alloc, growing)?;
        return Ok(Some(Next::End(Ending::Whole(proofs))));
    };
    if let Some(closing) = close(workspace, site, growing, goal, leaf)? {
        return after_closing(workspace, site, growing, goal, closing);
    }
    if is_settled(growing, leaf) {
        return take_least(workspace, site, growing, goal, leaf);
    }
    let stopped = settle_leaf(workspace, site, growing, leaf)?;
    Ok(ends_at(stopped))
}

/// Takes rounds until it is known what comes next. After each round but the last, fewer leaves wait
/// for their worth to be settled. `Err` comes if memory is refused.
pub fn next_leaf<E: Evaluator>(
    workspace: &mut Workspace<E>,
    site: &Site<'_>,
    growing: &mut Growing,
    goal: &Goal<'_>,
) -> Result<Next, AllocError>
    requires own { E.values site.now workspace.old.evaluator }
    requires growing { IsGrowingFor E.past site.now (undercut_of goal.now growing.old) growing.old }
    ensures next { IfOk result
        (IsNext E.past site.now growing.new (undercut_of goal.now growing.old)) }
    ensures same { IsSame E.past site.now growing.old growing.new }
    ensures own { E.values site.now workspace.new.evaluator }
    ensures makers { workspace.new.makers ≡ workspace.old.makers }
{
    'rounds: loop {
        if let Some(next) = round(workspace, site, growing, goal)? {
            return Ok(next);
        }
    }
}
