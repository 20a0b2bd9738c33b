//! A search over the simplex method that is taken turn by turn.
ghost use Rattle.std.specs.Prelude.{◌≡◌, ◌≤◌, true, false, is_some, None, Some, IfOk};
ghost use Rattle.std.specs.Prelude.{option_copied, length};
ghost use Rattle.flow_evaluator.specs.pns_rules.Shape.{shape_of};
ghost use Rattle.flow_evaluator.specs.pns_rules.Ends.{IsSound};
ghost use Rattle.flow_evaluator.specs.pgraph.Tables.{shape};
ghost use Rattle.flow_evaluator.specs.pgraph.View.{node_of};
ghost use Rattle.flow_evaluator.specs.tree_rules.Claim.{IsFeasible, ClaimPasses};
ghost use Rattle.flow_evaluator.specs.tree_rules.Past.{IsPastAt};
ghost use Rattle.flow_evaluator.specs.tree_rules.Proved.{IsStopped};
ghost use Rattle.flow_evaluator.specs.node_evaluation.Looks.{has_bounded};
ghost use Rattle.flow_evaluator.specs.node_evaluation.Children.{claim_with};
ghost use Rattle.rank_search.specs.abb_search.Searched.{opened, TurnHolds, AreNodesOf};

use crate::workspace::workspace_of;
use flow_evaluator::{FlowEvaluator, Graph, Network, Node, Problem, Site, Tree};
use rank_search::{SearchWith, Turn};
use std::alloc::{AllocError, Global};
use std::marker::Model;

/// A search whose nodes are bounded by the simplex method. It always takes an open leaf of least
/// value.
#[derive(Drop)]
pub struct Search<'a> {
    bounded: SearchWith<'a, FlowEvaluator>,
}

impl<'a> Model for Search<'a> {
    ghost use Rattle.rank_search.specs.abb_search.Searched.{Searched};

    ghost Value = { Searched };

    ghost view = { λ s. s.bounded };
}

impl<'a> Search<'a> {
    /// A search before its first turn, for a network that is cheaper than `best` if there is one.
    fn open_at(
        alloc: Global,
        site: Site<'a>,
        start: Node,
        budget: u32,
        best: Option<Network>,
    ) -> Result<Search<'a>, AllocError>
        requires sound { IsSound (shape_of site) (node_of start) }
        requires some { 1 ≤ budget }
        requires passes { ClaimPasses true site (claim_with best) }
        ensures { IfOk result (λ s. s ≡ opened site.entry start budget best) }
    {
        let workspace = workspace_of(alloc, &site)?;
        let bounded = SearchWith::open_with(workspace, site, start, budget, best)?;
        Ok(Search { bounded })
    }

    /// A search before its first turn, whose nodes are bounded by the simplex method. The graph is
    /// that of the problem.
    pub fn open(
        alloc: Global,
        problem: &'a Problem,
        graph: &'a Graph,
        start: Node,
        budget: u32,
    ) -> Result<Search<'a>, AllocError>
        requires graph { shape graph.now ≡ shape_of problem.now }
        requires sound { IsSound (shape_of problem.now) (node_of start) }
        requires some { 1 ≤ budget }
        ensures { IfOk result (λ s. s ≡ opened problem.now start budget None) }
    {
        Search::open_at(alloc, Site::of(problem, graph), start, budget, None)
    }

    /// A search before its first turn for a network that is cheaper than the given one, which
    /// passes as a claim. What it finds in the end is that network or a cheaper one.
    pub fn open_against(
        alloc: Global,
        problem: &'a Problem,
        graph: &'a Graph,
        start: Node,
        budget: u32,
        network: Network,
    ) -> Result<Search<'a>, AllocError>
        requires graph { shape graph.now ≡ shape_of problem.now }
        requires sound { IsSound (shape_of problem.now) (node_of start) }
        requires some { 1 ≤ budget }
        requires passes { IsFeasible problem.now network }
        ensures { IfOk result (λ s. s ≡ opened problem.now start budget (Some network)) }
    {
        Search::open_at(
            alloc,
            Site::of(problem, graph),
            start,
            budget,
            Some(network),
        )
    }

    /// Takes the search on until it has more nodes, or to its end. It takes all its memory before
    /// it changes a node.
    pub fn turn(&mut self) -> Turn
        requires { self.old.ended ≡ false }
        ensures { TurnHolds IsPastAt self.old self.new result }
    {
        self.bounded.turn()
    }

    /// How many nodes the tree has.
    pub fn nodes(&self) -> u32
        ensures nodes { result ≡ length self.now.cells }
        ensures few { result ≤ self.now.budget }
    {
        self.bounded.nodes()
    }

    /// Whether a turn answered `Ended`.
    pub fn ended(&self) -> bool
        ensures { result ≡ self.now.ended }
    {
        self.bounded.ended()
    }

    /// The cheapest network that was found or given. There is none only if no leaf of the tree is
    /// bounded.
    pub fn best(&self) -> Option<&Network>
        requires { self.now.ended ≡ false }
        ensures best { option_copied result ≡ self.now.best }
        ensures bounded { has_bounded self.now.cells ≡ true → is_some self.now.best ≡ true }
    {
        self.bounded.best()
    }

    /// The tree so far.
    pub fn tree(&self, alloc: Global) -> Result<Tree, AllocError>
        requires { self.now.ended ≡ false }
        ensures stopped { IfOk result
            (IsStopped self.now.problem (node_of self.now.start) (claim_with self.now.best)) }
        ensures nodes { IfOk result (AreNodesOf self.now.cells) }
    {
        self.bounded.tree(alloc)
    }
}
