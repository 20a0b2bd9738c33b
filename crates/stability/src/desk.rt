//! The problem of a case with one value after the other in the spot, and what the searches over it
//! share.
ghost use Rattle.std.specs.Prelude.{◌≡◌, ◌≤◌, IfOk, Some};
ghost use Rattle.stability_laws.specs.pns_rules.Shape.{shape_of};
ghost use Rattle.solver.specs.pgraph.Tables.{shape};
ghost use Rattle.solver.specs.neutral_extension.Candidates.{AreMakersOf};
ghost use Rattle.stability_laws.specs.tree_rules.Accepted.{first_node};
ghost use Rattle.stability_laws.specs.tree_rules.Claim.{IsFeasible};
ghost use Rattle.solver.specs.abb_search.Found.{IsFound};
ghost use Rattle.solver.specs.abb_search.Answers.{IsAgainst};
ghost use Rattle.stability_laws.specs.report_rules.Spot.{valued, IsAllowedValue};
ghost use Rattle.stability.specs.Desk.{IsDesk};

use crate::case::Case;
use crate::setting::set;
use solver::{
    Effort, FlowWorkspace, Found, Graph, Network, Node, Problem, Site, UnitSet, Watch,
    search_flows, workspace_of,
};
use stability_laws::{present_stays, valued_is_valid};
use std::alloc::{AllocError, Global};
use std::marker::Model;

/// A copy of a case's problem, of which only the spot changes, with what its searches keep, and
/// with who watches them.
#[derive(Drop)]
pub(crate) struct Desk<W: Watch> {
    problem: Problem,
    workspace: FlowWorkspace,
    watch: W,
}

impl<W: Watch> Model for Desk<W> {
    ghost use Rattle.stability.specs.Desk as desks;

    ghost Value = { desks.Desk };

    ghost view = { λ d. record { problem = d.problem; makers = d.workspace.makers.makers } };
}

/// Searches all structures of the site's problem for a network that is cheaper than this one.
fn search_at<W: Watch>(
    workspace: &mut FlowWorkspace,
    site: &Site<'_>,
    effort: Effort<W>,
    network: Network,
) -> Found
    requires makers { AreMakersOf (shape_of site.now) workspace.old.makers.makers }
    requires some { 1 ≤ effort.budget }
    requires passes { IsFeasible site.now network }
    ensures found { IsFound site.now first_node effort.budget result }
    ensures against { IsAgainst (Some network) result }
    ensures makers { workspace.new.makers.makers ≡ workspace.old.makers.makers }
{
    let start = Node {
        inside: UnitSet::empty(),
        outside: UnitSet::empty(),
    };
    match workspace.rebind(site) {
        Ok(()) => search_flows(workspace, site, start, effort, Some(network)),
        Err(_) => Found::Memory,
    }
}

impl<W: Watch> Desk<W> {
    /// A desk with the present value. `Err` comes if memory is refused.
    pub(crate) fn of(case: &Case, watch: W) -> Result<Desk<W>, AllocError>
        ensures problem { IfOk result (λ d. d.problem ≡ case.now.problem) }
        ensures desk { IfOk result (IsDesk case.now) }
    {
        present_stays();
        let problem = case.problem.copy(case.alloc)?;
        let workspace = workspace_of(case.alloc, &Site::of(&problem, case.graph))?;
        Ok(Desk {
            problem,
            workspace,
            watch,
        })
    }

    /// The case's problem with the value that was set last.
    pub(crate) fn problem(&self) -> &Problem
        ensures { result.now ≡ self.now.problem }
    {
        &self.problem
    }

    /// Sets the value in the spot. It takes no memory.
    pub(crate) fn set(&mut self, case: &Case, value: i64)
        requires desk { IsDesk case.now self.old }
        requires allowed { IsAllowedValue case.now.spot value }
        ensures problem { self.new.problem ≡ valued case.now.problem case.now.spot value }
        ensures own { AreMakersOf (shape_of case.now.problem) self.new.makers }
        ensures desk { IsDesk case.now self.new }
    {
        case.is_known();
        valued_is_valid();
        set(&mut self.problem, case.spot, value);
    }

    /// Searches all structures of the problem for a network that is cheaper than this one.
    pub(crate) fn search(&mut self, graph: &Graph, budget: u32, network: Network) -> Found
        requires graph { shape graph.now ≡ shape_of self.old.problem }
        requires own { AreMakersOf (shape graph.now) self.old.makers }
        requires some { 1 ≤ budget }
        requires passes { IsFeasible self.old.problem network }
        ensures found { IsFound self.old.problem first_node budget result }
        ensures against { IsAgainst (Some network) result }
        ensures same { self.new ≡ self.old }
    {
        let site = Site::of(&self.problem, graph);
        let effort = Effort {
            budget,
            watch: &mut self.watch,
        };
        search_at(&mut self.workspace, &site, effort, network)
    }
}
