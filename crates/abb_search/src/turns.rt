//! A search that is taken turn by turn.
ghost use Rattle.std.specs.Prelude.{◌≡◌, ◌≤◌, true, false, is_some, IfOk, option_copied, length};
ghost use Rattle.node_evaluation.specs.pns_rules.Shape.{shape_of};
ghost use Rattle.node_evaluation.specs.pns_rules.Ends.{IsSound};
ghost use Rattle.node_evaluation.specs.pgraph.View.{node_of};
ghost use Rattle.node_evaluation.specs.neutral_extension.Candidates.{AreMakersOf};
ghost use Rattle.node_evaluation.specs.Looks.{has_bounded};
ghost use Rattle.node_evaluation.specs.tree_rules.Claim.{ClaimPasses};
ghost use Rattle.node_evaluation.specs.Children.{claim_with};
ghost use Rattle.node_evaluation.specs.tree_rules.Proved.{IsStopped};
ghost use Rattle.abb_search.specs.Searched.{opened, TurnHolds, AreNodesOf};

use crate::found::{is_sized, tree_with};
use crate::growing::Growing;
use crate::outcome::Turn;
use crate::root::open_root;
use crate::step::take_turn;
use node_evaluation::{Evaluator, Network, Node, Site, Tree, Workspace};
use std::alloc::{AllocError, Global};
use std::marker::Model;

/// A search of the structures of the family of a node for one whose flows are cheapest. It always
/// takes an open leaf of least value.
#[derive(Drop)]
pub struct SearchWith<'a, E: Evaluator> {
    site: Site<'a>,
    workspace: Workspace<E>,
    growing: Growing,
    looked: bool,
    ended: bool,
}

impl<'a, E: Evaluator> Model for SearchWith<'a, E> {
    ghost use Rattle.abb_search.specs.Searched.{Searched, IsSearching};

    ghost Value = { Searched };

    ghost view = { λ s. record {
      problem = s.site;
      start = s.growing.start;
      budget = s.growing.budget;
      cells = s.growing.pool.payloads;
      best = s.growing.best;
      ended = s.ended;
    } };

    ghost invariant = { λ s. E.values s.site s.workspace.evaluator
        × IsSearching E.past s.site s.workspace.makers.makers s.growing s.looked s.ended };
}

impl<'a, E: Evaluator + Drop> SearchWith<'a, E> {
    /// A search before its first turn, for a network that is cheaper than `best` if there is one.
    pub fn open_with(
        workspace: Workspace<E>,
        site: Site<'a>,
        start: Node,
        budget: u32,
        best: Option<Network>,
    ) -> Result<SearchWith<'a, E>, AllocError>
        requires own { E.values site workspace.evaluator }
        requires makers { AreMakersOf (shape_of site) workspace.makers.makers }
        requires sound { IsSound (shape_of site) (node_of start) }
        requires some { 1 ≤ budget }
        requires passes { ClaimPasses true site (claim_with best) }
        ensures { IfOk result (λ s. s ≡ opened site.entry start budget best) }
    {
        is_sized(&best);
        let growing = open_root(workspace.alloc, start, budget, best)?;
        Ok(SearchWith {
            site,
            workspace,
            growing,
            looked: false,
            ended: false,
        })
    }

    /// Takes the search on until it has more nodes, or to its end. It takes all its memory before
    /// it changes a node.
    pub fn turn(&mut self) -> Turn
        requires { self.old.ended ≡ false }
        ensures { TurnHolds E.past self.old self.new result }
    {
        match take_turn(
            &mut self.workspace,
            &self.site,
            &mut self.growing,
            self.looked,
        ) {
            Err(_) => Turn::Memory,
            Ok(None) => {
                self.looked = true;
                Turn::More
            }
            Ok(Some(found)) => {
                self.ended = true;
                Turn::Ended(found)
            }
        }
    }

    /// How many nodes the tree has.
    pub fn nodes(&self) -> u32
        ensures nodes { result ≡ length self.now.cells }
        ensures few { result ≤ self.now.budget }
    {
        self.growing.nodes
    }

    /// Whether a turn answered `Ended`.
    pub fn ended(&self) -> bool
        ensures { result ≡ self.now.ended }
    {
        self.ended
    }

    /// The cheapest network that was found or given. There is none only if no leaf of the tree is
    /// bounded.
    pub fn best(&self) -> Option<&Network>
        requires { self.now.ended ≡ false }
        ensures best { option_copied result ≡ self.now.best }
        ensures bounded { has_bounded self.now.cells ≡ true → is_some self.now.best ≡ true }
    {
        self.growing.best.as_ref()
    }

    /// The tree so far.
    pub fn tree(&self, alloc: Global) -> Result<Tree, AllocError>
        requires { self.now.ended ≡ false }
        ensures stopped { IfOk result
            (IsStopped self.now.problem (node_of self.now.start) (claim_with self.now.best)) }
        ensures nodes { IfOk result (AreNodesOf self.now.cells) }
    {
        let placed = tree_with(alloc, &self.growing, 0)?;
        Ok(placed.tree)
    }
}
