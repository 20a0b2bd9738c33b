//! The command `graph` without a tree, and the graphs with a network in them.
ghost use Rattle.std.specs.Prelude.{◌≡◌, ◌<◌, ◌^◌, [], ℕ, List, Some, None, IfOk, IfSome, true};
ghost use Rattle.std.specs.Prelude.{length, option_map};
ghost use Rattle.verdicts.specs.number_sets.Sets.{has};
ghost use Rattle.verdicts.specs.tree_rules.Claim.{IsFeasible};
ghost use Rattle.verdicts.specs.report_rules.Graph.{graph_lines};
ghost use Rattle.command_files.specs.studio_rules.Lines.{text_of};
ghost use Rattle.command_files.specs.studio_rules.Reading.{FileSays};
ghost use Rattle.command_files.specs.studio_rules.Graph.{AreGraphLines, AreSceneLines};
ghost use Rattle.command_files.specs.studio_rules.Graph.{PlantGraphWork};
ghost use Rattle.command_files.specs.studio_rules.Ending.{Ends, Tells};
ghost use Rattle.command_files.specs.studio_rules.Keeps.{Keeps};

use command_files::say::{say_memory, say_text};
use command_files::{Scene, Status, problem_of};
use graph_text::{empty_graph, graph_of};
use std::alloc::{AllocError, Global};
use verdicts::{Graph, Network, Outputs, Problem, Shelf, Sink, Site, UnitSet, maximal};

/// The graph of the maximal structure, with the network in it if one is given, and with these
/// networks as a table if there are any.
fn drawn(
    alloc: Global,
    site: &Site<'_>,
    network: Option<&Network>,
    networks: &[Network],
) -> Result<Vec<u8>, AllocError>
    requires feasible { IfSome network (λ n. IsFeasible site.now n.now) }
    requires few { length networks.now < 2 ^ 32 }
    ensures { IfOk result (λ bytes. (lines : List (List ℕ))
        × AreGraphLines site.now (option_map (λ n. n.now) network.entry) networks.now lines
        × (bytes.items ≡ text_of lines)) }
{
    match maximal(site.graph(), UnitSet::empty()) {
        Some(units) => graph_of(alloc, site, network, networks, units),
        None => empty_graph(alloc),
    }
}

/// The graph of the network's own units, with these networks as a table if there are any.
fn drawn_alone(
    alloc: Global,
    site: &Site<'_>,
    network: &Network,
    networks: &[Network],
) -> Result<Vec<u8>, AllocError>
    requires feasible { IsFeasible site.now network.now }
    requires few { length networks.now < 2 ^ 32 }
    ensures { IfOk result
        (λ bytes. bytes.items ≡ text_of
        (graph_lines site.now (Some network.now) networks.now (has network.now.units))) }
{
    graph_of(alloc, site, Some(network), networks, network.units())
}

/// The graph of this scene with the first network of a list in it, and the list as a table if it
/// is not empty.
pub fn list_graph(
    alloc: Global,
    scene: Scene,
    site: &Site<'_>,
    first: &Network,
    networks: &[Network],
) -> Result<Vec<u8>, AllocError>
    requires feasible { IsFeasible site.now first.now }
    requires few { length networks.now < 2 ^ 32 }
    ensures { IfOk result (λ bytes. (lines : List (List ℕ))
        × AreSceneLines scene site.now first.now networks.now lines
        × (bytes.items ≡ text_of lines)) }
{
    match scene {
        Scene::Plant => drawn(alloc, site, Some(first), networks),
        Scene::Network => drawn_alone(alloc, site, first, networks),
    }
}

/// The graph of this scene with the network in it.
pub(crate) fn network_graph(
    alloc: Global,
    scene: Scene,
    site: &Site<'_>,
    network: &Network,
) -> Result<Vec<u8>, AllocError>
    requires feasible { IsFeasible site.now network.now }
    ensures { IfOk result (λ bytes. (lines : List (List ℕ))
        × AreSceneLines scene site.now network.now [] lines × (bytes.items ≡ text_of lines)) }
{
    list_graph(alloc, scene, site, network, &[])
}

fn say_plant<K: Sink, E: Sink>(alloc: Global, out: &mut Outputs<K, E>, problem: &Problem) -> Status
    ensures { Ends (Tells (PlantGraphWork problem.now)) out.old out.new result }
{
    let Ok(graph) = Graph::of(alloc, problem) else {
        return say_memory(out);
    };
    let site = Site::of(problem, &graph);
    match drawn(alloc, &site, None, &[]) {
        Ok(bytes) => say_text(out, &bytes, Status::Done),
        Err(_) => say_memory(out),
    }
}

/// Prints the graph of the maximal structure of the file's problem, for Graphviz.
pub fn plant_graph<F: Shelf, K: Sink, E: Sink>(
    alloc: Global,
    file: &str,
    shelf: &mut F,
    out: &mut Outputs<K, E>,
) -> Status
    ensures ends { Ends (FileSays PlantGraphWork file.now (F.state shelf.old) (F.state shelf.new))
        out.old out.new result }
    ensures keeps { Keeps (F.state shelf.old) (F.state shelf.new) }
{
    match problem_of(alloc, shelf, out, file) {
        Ok(problem) => say_plant(alloc, out, &problem),
        Err(status) => status,
    }
}
