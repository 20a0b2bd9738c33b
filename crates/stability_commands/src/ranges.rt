//! The command `stable` without a price or cost: a table of all.
ghost use Rattle.std.specs.Prelude.{◌≡◌, ◌≤◌};
ghost use Rattle.stability.specs.tree_rules.Claim.{IsFeasible};
ghost use Rattle.stability.specs.branch_tree.View.{claim_of};
ghost use Rattle.network_commands.specs.studio_rules.Reading.{TwoFilesSay};
ghost use Rattle.network_commands.specs.studio_rules.HeadedFile.{AnyHead, OnHeaded};
ghost use Rattle.network_commands.specs.studio_rules.Network.{OnNetwork};
ghost use Rattle.network_commands.specs.studio_rules.StableTable.{RangesWork};
ghost use Rattle.network_commands.specs.studio_rules.Ending.{Ends, Says, Tells};
ghost use Rattle.network_commands.specs.studio_rules.Keeps.{Keeps};

use crate::cells::TableFault;
use crate::stable::say_not_best;
use crate::table::table_of;
use network_commands::say::{say_memory, say_text};
use network_commands::{Headed, Status, headed_of, network_of, problem_of};
use stability::{Claim, Effort, Graph, Network, Outputs, Problem, Shelf, Sink, Site, Tree, Watch};
use std::alloc::Global;

/// The tree of a call, and what its searches may take.
#[derive(Drop)]
pub struct Asked<'a, W: Watch> {
    pub tree: &'a str,
    pub effort: Effort<W>,
}

/// Prints the table for a network, or a cheaper network.
fn say_table<K: Sink, E: Sink, W: Watch>(
    alloc: Global,
    out: &mut Outputs<K, E>,
    site: &Site<'_>,
    network: &Network,
    effort: Effort<W>,
) -> Status
    requires passes { IsFeasible site.now network.now }
    requires some { 1 ≤ effort.budget }
    ensures { Ends (Tells (RangesWork effort.budget site.now network.now)) out.old out.new result }
{
    match table_of(alloc, site, network, effort) {
        Ok(bytes) => say_text(out, &bytes, Status::Done),
        Err(TableFault::NotBest(cheaper)) => say_not_best(alloc, out, site.problem(), &cheaper),
        Err(TableFault::Memory) => say_memory(out),
    }
}

/// Prints the same for the network of a claim, of which each line is judged. The tree is not.
fn say_claimed<K: Sink, E: Sink, W: Watch>(
    alloc: Global,
    out: &mut Outputs<K, E>,
    problem: &Problem,
    claimed: (Claim, Tree),
    effort: Effort<W>,
) -> Status
    requires some { 1 ≤ effort.budget }
    ensures { Ends
        (Tells
        (OnNetwork (RangesWork effort.budget) problem.now (claim_of claimed.0) claimed.1))
        out.old out.new result }
{
    let (claim, _) = claimed;
    let Ok(graph) = Graph::of(alloc, problem) else {
        return say_memory(out);
    };
    let site = Site::of(problem, &graph);
    match network_of(alloc, out, &site, claim) {
        Ok(network) => say_table(alloc, out, &site, &network, effort),
        Err(status) => status,
    }
}

/// Prints the same for the claim of a tree file.
fn say_tree<F: Shelf, K: Sink, E: Sink, W: Watch>(
    alloc: Global,
    problem: &Problem,
    asked: Asked<'_, W>,
    shelf: &mut F,
    out: &mut Outputs<K, E>,
) -> Status
    requires some { 1 ≤ asked.effort.budget }
    ensures ends { Ends
        (Says
        (OnHeaded (AnyHead (OnNetwork (RangesWork asked.entry.effort.budget)))
        (F.state shelf.old).held asked.entry.tree.now problem.now)
        (λ other. other ≡ asked.entry.tree.now) (F.state shelf.old) (F.state shelf.new)) out.old
        out.new result }
    ensures keeps { Keeps (F.state shelf.old) (F.state shelf.new) }
{
    match headed_of(alloc, shelf, out, asked.tree, problem) {
        Ok(text) => {
            let Headed { claim, tree, .. } = text;
            say_claimed(alloc, out, problem, (claim, tree), asked.effort)
        }
        Err(status) => status,
    }
}

/// Prints how far each price and each cost of the network may move that the tree claims on the
/// problem of the file. Within its range, with all others as they are, the network stays optimal.
pub fn ranges<F: Shelf, K: Sink, E: Sink, W: Watch>(
    alloc: Global,
    file: &str,
    asked: Asked<'_, W>,
    shelf: &mut F,
    out: &mut Outputs<K, E>,
) -> Status
    requires some { 1 ≤ asked.effort.budget }
    ensures ends { Ends
        (TwoFilesSay (OnHeaded (AnyHead (OnNetwork (RangesWork asked.entry.effort.budget))))
        file.now asked.entry.tree.now (F.state shelf.old) (F.state shelf.new)) out.old out.new
        result }
    ensures keeps { Keeps (F.state shelf.old) (F.state shelf.new) }
{
    match problem_of(alloc, shelf, out, file) {
        Ok(problem) => say_tree(alloc, &problem, asked, shelf, out),
        Err(status) => status,
    }
}
