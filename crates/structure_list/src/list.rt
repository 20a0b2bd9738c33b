//! The list of structures that are still to come.
ghost use Rattle.std.specs.Prelude.{◌≡◌, ◌+◌, ◌*◌, ◌<◌, ◌≤◌, ◌↔◌, ◌∷◌, ◌++◌, ℕ, List, [], false};
ghost use Rattle.std.specs.Prelude.{length, Some, IfOk, IfErr, IfSome, IfNone, IsOk, IsTrue};
ghost use Rattle.pgraph.specs.number_sets.Sets.{has, IsRising};
ghost use Rattle.pgraph.specs.pns_rules.Structure.{IsStructure, IsUnion};
ghost use Rattle.pgraph.specs.Tables.{shape};
ghost use Rattle.structure_list.specs.Rest.{Rest, IsToCome, IsUnderWay};

use crate::Steps;
use crate::search::{next_structure, stack_after};
use crate::stack::Stack;
use pgraph::{Graph, UnitSet, Verdict};
use std::alloc::Global;
use std::marker::Model;
use std::sync::ledger::Ledger;
use thiserror::Error;

/// Why a listing cannot begin.
#[derive(Clone, Copy, PartialEq, Eq, Debug, Drop, Error)]
pub enum OpenFault {
    /// The set has a unit that the problem does not have, or breaks an axiom.
    #[error("the set is no solution structure of this problem")]
    NotAStructure,
    /// There is no memory left. A listing has its room in itself, so this never comes today.
    #[error("out of memory")]
    Memory,
}

/// A listing of which a part was given. Contracts see it by its graph and the structure that was
/// given last: what is still to come is the listing after that.
#[derive(Drop)]
pub struct StructureList<'a> {
    graph: &'a Graph,
    stack: Stack,
    last: Option<UnitSet>,
}

impl<'a> Model for StructureList<'a> {
    ghost use Rattle.pgraph.specs.Tables.{shape};
    ghost use Rattle.structure_list.specs.Rest.{Rest, IsUnderWay};

    ghost Value = { Rest };

    ghost view = { λ l. record { graph = l.graph.now; last = l.last } };

    ghost invariant = { λ l. IsUnderWay (shape l.graph.now) l.stack l.last };
}

impl<'a> StructureList<'a> {
    /// The listing after a solution structure, clash-free or not, or from the beginning.
    /// `NotAStructure` exactly if `after` is no solution structure of this graph.
    pub fn open(
        _alloc: Global,
        graph: &'a Graph,
        after: Option<UnitSet>,
    ) -> Result<StructureList<'a>, OpenFault>
        ensures ok { IfOk result (λ l. l ≡ record { graph = graph.now; last = after }) }
        ensures structure { IsOk result
            ↔ IfSome after (λ s. IsStructure (shape graph.now) (has s)) }
        ensures fault { IfErr result (λ e. e ≡ OpenFault.NotAStructure) }
    {
        if let Some(set) = after {
            if !is_structure(graph, set) {
                return Err(OpenFault::NotAStructure);
            }
        }
        let stack = stack_after(graph, &after);
        Ok(StructureList::new(graph, stack, after))
    }

    fn new(graph: &'a Graph, stack: Stack, last: Option<UnitSet>) -> StructureList<'a>
        requires { IsUnderWay (shape graph.now) stack last }
        ensures { result ≡ record { graph = graph.now; last = last } }
    {
        StructureList { graph, stack, last }
    }

    /// Gives the next structure, and leaves those after it: the list is then the one that `open`
    /// gives at this structure. `None` exactly if nothing is to come, and again at each later call.
    /// Without exclusions it counts at most two viability tests for each unit of the maximal
    /// structure. It takes no memory.
    pub fn next<L: Ledger>(&mut self, steps: &mut Steps<L>) -> Option<UnitSet>
        ensures head { IfSome result
            (λ r. (xs : List (List ℕ)) → IsToCome self.new xs ↔ IsToCome self.old (r ∷ xs)) }
        ensures last { IfSome result
            (λ r. self.new ≡ record { graph = self.old.graph; last = Some r }) }
        ensures end { IfNone result (IsToCome self.old []) }
        ensures stays { IfNone result (self.new ≡ self.old) }
        ensures few_tests { (shape self.old.graph).exclusions ≡ 0 → (m : List ℕ) → IsRising m
            → IsUnion (shape self.old.graph) (λ _. false) (has m)
            → steps.new ≤ steps.old + 2 * length m }
    {
        let Some(set) = next_structure(self.graph, &mut self.stack, steps) else {
            return None;
        };
        set.rises();
        self.last = Some(set);
        Some(set)
    }

    /// What is to come is one list, and no other. A call gives this to a proof.
    pub fn is_one(&self)
        ensures exists { (xs : List (List ℕ)) × IsToCome self.now xs }
        ensures unique { (xs ys : List (List ℕ)) → IsToCome self.now xs → IsToCome self.now ys
            → xs ≡ ys }
    {
        self.graph.is_proper();
        pgraph::listing_exists();
    }
}

/// Whether the set is a solution structure.
fn is_structure(graph: &Graph, set: UnitSet) -> bool
    ensures { IsTrue result ↔ IsStructure (shape graph.now) (has set) }
{
    graph.is_proper();
    if !set.within(UnitSet::below(graph.unit_count())) {
        return false;
    }
    matches!(graph.judge(set), Verdict::Meets)
}
