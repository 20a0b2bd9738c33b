//! The text of the network of a claim.
ghost use Rattle.std.specs.Prelude.{◌≡◌, ℕ, List, IfOk};
ghost use Rattle.verdicts.specs.tree_rules.Claim.{IsFeasible};
ghost use Rattle.verdicts.specs.branch_tree.View.{claim_of};
ghost use Rattle.command_files.specs.studio_rules.Lines.{text_of};
ghost use Rattle.command_files.specs.studio_rules.Network.{OnNetwork};
ghost use Rattle.network_commands.specs.Texts.{TextWork};
ghost use Rattle.command_files.specs.studio_rules.declared.status.Status.TheVariants.{Done};
ghost use Rattle.command_files.specs.studio_rules.Ending.{Ends, Tells};

use crate::claim::network_of;
use crate::graph::network_graph;
use crate::table::tables;
use command_files::say::{say_memory, say_text};
use command_files::{Scene, Status};
use std::alloc::{AllocError, Global};
use verdicts::{Claim, Graph, Network, Outputs, Problem, Sink, Site, Tree};

/// Which text of a network is printed.
#[derive(Clone, Copy, Debug, PartialEq, Eq)]
pub enum NetworkText {
    /// Its units and its materials as tables for a spreadsheet.
    Table,
    /// The graph of this scene with the network in it, for Graphviz.
    Graph(Scene),
}

/// The text, whole.
fn text_of(
    alloc: Global,
    what: NetworkText,
    site: &Site<'_>,
    network: &Network,
) -> Result<Vec<u8>, AllocError>
    requires feasible { IsFeasible site.now network.now }
    ensures { IfOk result (λ bytes. (lines : List (List ℕ))
        × TextWork what site.now network.now Done lines × (bytes.items ≡ text_of lines)) }
{
    match what {
        NetworkText::Table => tables(alloc, site, network),
        NetworkText::Graph(scene) => network_graph(alloc, scene, site, network),
    }
}

fn say_network<K: Sink, E: Sink>(
    alloc: Global,
    what: NetworkText,
    out: &mut Outputs<K, E>,
    site: &Site<'_>,
    network: &Network,
) -> Status
    requires feasible { IsFeasible site.now network.now }
    ensures { Ends (Tells (TextWork what site.now network.now)) out.old out.new result }
{
    match text_of(alloc, what, site, network) {
        Ok(bytes) => say_text(out, &bytes, Status::Done),
        Err(_) => say_memory(out),
    }
}

/// Prints this text of the network of the claim.
pub fn say_claimed<K: Sink, E: Sink>(
    alloc: Global,
    what: NetworkText,
    out: &mut Outputs<K, E>,
    problem: &Problem,
    claim: Claim,
    tree: &Tree,
) -> Status
    ensures { Ends (Tells (OnNetwork (TextWork what) problem.now (claim_of claim) tree.now))
        out.old
        out.new result }
{
    let Ok(graph) = Graph::of(alloc, problem) else {
        return say_memory(out);
    };
    let site = Site::of(problem, &graph);
    match network_of(alloc, out, &site, claim) {
        Ok(network) => say_network(alloc, what, out, &site, &network),
        Err(status) => status,
    }
}
