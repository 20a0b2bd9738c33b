//! The command `part`.
ghost use Rattle.std.specs.Prelude.{◌≡◌, ◌≤◌, Some, None};
ghost use Rattle.network_commands.specs.pns_rules.Shape.{shape_of};
ghost use Rattle.network_commands.specs.pns_rules.Ends.{IsSound};
ghost use Rattle.network_commands.specs.pgraph.Tables.{shape};
ghost use Rattle.network_commands.specs.pgraph.View.{node_of};
ghost use Rattle.network_commands.specs.tree_rules.Claim.{IsFeasible};
ghost use Rattle.network_commands.specs.tree_rules.Known.{AreUnits};
ghost use Rattle.network_commands.specs.branch_tree.View.{claim_of};
ghost use Rattle.network_commands.specs.studio_rules.Reading.{FileSays, TwoFilesSay};
ghost use Rattle.network_commands.specs.studio_rules.TreeFile.{OnTree};
ghost use Rattle.network_commands.specs.studio_rules.Part.{PartSays, PartWork, ClaimSays};
ghost use Rattle.network_commands.specs.studio_rules.Part.{AgainstWork};
ghost use Rattle.network_commands.specs.studio_rules.Ending.{Ends, Says, Tells};
ghost use Rattle.network_commands.specs.studio_rules.Keeps.{Keeps};

use crate::found::say_found;
use crate::start::start_of;
use network_commands::say::{say_memory, tell};
use network_commands::{
    Claim, Effort, Graph, Network, Node, Outputs, Problem, Shelf, Sink, Site, Status, Tree, Watch,
    bad_node, network_of, problem_of, tree_of,
};
use searches::search_watched;
use std::alloc::Global;

// Searches the structures of the node.
fn say_searched<K: Sink, E: Sink, W: Watch>(
    alloc: Global,
    out: &mut Outputs<K, E>,
    problem: &Problem,
    graph: &Graph,
    start: &Node,
    effort: Effort<W>,
) -> Status
    requires graph { shape graph.now ≡ shape_of problem.now }
    requires sound { IsSound (shape_of problem.now) (node_of start.now) }
    requires known { AreUnits problem.now start.now.inside
        × AreUnits problem.now start.now.outside }
    requires some { 1 ≤ effort.budget }
    requires few { effort.budget ≤ 1000000 }
    ensures { Ends
        (Tells (PartSays effort.budget None start.now.inside start.now.outside problem.now)) out.old
        out.new result }
{
    let site = Site::of(problem, graph);
    let budget = u64::from(effort.budget);
    let found = search_watched(alloc, &site, *start, effort, None);
    say_found(alloc, out, problem, start, found, budget)
}

// Searches the structures of the node for a network that is cheaper than this one.
fn say_against<K: Sink, E: Sink, W: Watch>(
    alloc: Global,
    out: &mut Outputs<K, E>,
    problem: &Problem,
    graph: &Graph,
    start: &Node,
    effort: Effort<W>,
    network: Network,
) -> Status
    requires graph { shape graph.now ≡ shape_of problem.now }
    requires sound { IsSound (shape_of problem.now) (node_of start.now) }
    requires known { AreUnits problem.now start.now.inside
        × AreUnits problem.now start.now.outside }
    requires some { 1 ≤ effort.budget }
    requires few { effort.budget ≤ 1000000 }
    requires passes { IsFeasible problem.now network }
    ensures { Ends
        (Tells
        (PartSays effort.budget (Some network) start.now.inside start.now.outside problem.now))
        out.old out.new result }
{
    let site = Site::of(problem, graph);
    let budget = u64::from(effort.budget);
    let found = search_watched(alloc, &site, *start, effort, Some(network));
    say_found(alloc, out, problem, start, found, budget)
}

// If the claim has a network, its lines are judged, and the search begins with the network. A claim
// without a network is ignored.
fn say_claimed<K: Sink, E: Sink, W: Watch>(
    alloc: Global,
    out: &mut Outputs<K, E>,
    problem: &Problem,
    graph: &Graph,
    start: &Node,
    effort: Effort<W>,
    claim: Claim,
    tree: &Tree,
) -> Status
    requires graph { shape graph.now ≡ shape_of problem.now }
    requires sound { IsSound (shape_of problem.now) (node_of start.now) }
    requires known { AreUnits problem.now start.now.inside
        × AreUnits problem.now start.now.outside }
    requires some { 1 ≤ effort.budget }
    requires few { effort.budget ≤ 1000000 }
    ensures { Ends
        (Tells
        (ClaimSays effort.budget start.now.inside start.now.outside problem.now (claim_of claim)
        tree.now)) out.old out.new result }
{
    match claim {
        Claim::Network(network) => {
            let site = Site::of(problem, graph);
            match network_of(alloc, out, &site, Claim::Network(network)) {
                Ok(known) => say_against(alloc, out, problem, graph, start, effort, known),
                Err(status) => status,
            }
        }
        Claim::Infeasible => say_searched(alloc, out, problem, graph, start, effort),
        Claim::Unknown => say_searched(alloc, out, problem, graph, start, effort),
    }
}

fn say_tree<F: Shelf, K: Sink, E: Sink, W: Watch>(
    alloc: Global,
    problem: &Problem,
    graph: &Graph,
    start: &Node,
    effort: Effort<W>,
    name: &str,
    shelf: &mut F,
    out: &mut Outputs<K, E>,
) -> Status
    requires graph { shape graph.now ≡ shape_of problem.now }
    requires sound { IsSound (shape_of problem.now) (node_of start.now) }
    requires known { AreUnits problem.now start.now.inside
        × AreUnits problem.now start.now.outside }
    requires some { 1 ≤ effort.budget }
    requires few { effort.budget ≤ 1000000 }
    ensures ends { Ends
        (Says
        (OnTree (ClaimSays effort.budget start.now.inside start.now.outside)
        (F.state shelf.old).held name.now problem.now) (λ other. other ≡ name.now)
        (F.state shelf.old) (F.state shelf.new)) out.old out.new result }
    ensures keeps { Keeps (F.state shelf.old) (F.state shelf.new) }
{
    match tree_of(alloc, shelf, out, name, problem) {
        Ok((claim, tree)) => say_claimed(alloc, out, problem, graph, start, effort, claim, &tree),
        Err(status) => status,
    }
}

// The search from the node of the words.
fn say_from<K: Sink, E: Sink, W: Watch>(
    alloc: Global,
    out: &mut Outputs<K, E>,
    problem: &Problem,
    inside: &str,
    outside: &str,
    effort: Effort<W>,
) -> Status
    requires some { 1 ≤ effort.budget }
    requires few { effort.budget ≤ 1000000 }
    ensures { Ends (Tells (PartWork effort.budget inside.now outside.now problem.now)) out.old
        out.new result }
{
    let Ok(graph) = Graph::of(alloc, problem) else {
        return say_memory(out);
    };
    match start_of(problem, &graph, inside, outside) {
        Some(start) => say_searched(alloc, out, problem, &graph, &start, effort),
        None => {
            let notes = bad_node(alloc);
            tell(out, b"bad node\n", notes.bytes(), Status::BadNode)
        }
    }
}

// The search from the node of the words, with the network of the tree as its best.
fn say_from_against<F: Shelf, K: Sink, E: Sink, W: Watch>(
    alloc: Global,
    problem: &Problem,
    inside: &str,
    outside: &str,
    effort: Effort<W>,
    tree: &str,
    shelf: &mut F,
    out: &mut Outputs<K, E>,
) -> Status
    requires some { 1 ≤ effort.budget }
    requires few { effort.budget ≤ 1000000 }
    ensures ends { Ends
        (Says
        (AgainstWork effort.budget (F.state shelf.old).held tree.now inside.now outside.now
        problem.now) (λ other. other ≡ tree.now) (F.state shelf.old) (F.state shelf.new)) out.old
        out.new result }
    ensures keeps { Keeps (F.state shelf.old) (F.state shelf.new) }
{
    let Ok(graph) = Graph::of(alloc, problem) else {
        return say_memory(out);
    };
    match start_of(problem, &graph, inside, outside) {
        Some(start) => say_tree(alloc, problem, &graph, &start, effort, tree, shelf, out),
        None => {
            let notes = bad_node(alloc);
            tell(out, b"bad node\n", notes.bytes(), Status::BadNode)
        }
    }
}

/// Prints what a search of the structures of a node of the file's problem finds within the budget,
/// as the text of a part. The words are the tokens of the units that are taken in at the node and
/// of those that are left out.
pub fn part<F: Shelf, K: Sink, E: Sink, W: Watch>(
    alloc: Global,
    file: &str,
    inside: &str,
    outside: &str,
    effort: Effort<W>,
    shelf: &mut F,
    out: &mut Outputs<K, E>,
) -> Status
    requires some { 1 ≤ effort.budget }
    requires few { effort.budget ≤ 1000000 }
    ensures ends { Ends
        (FileSays (PartWork effort.budget inside.now outside.now) file.now (F.state shelf.old)
        (F.state shelf.new)) out.old out.new result }
    ensures keeps { Keeps (F.state shelf.old) (F.state shelf.new) }
{
    match problem_of(alloc, shelf, out, file) {
        Ok(problem) => say_from(alloc, out, &problem, inside, outside, effort),
        Err(status) => status,
    }
}

/// The same, but the search begins with the network that the tree of the other file claims as its
/// best. A claim without a network is ignored.
pub fn part_against<F: Shelf, K: Sink, E: Sink, W: Watch>(
    alloc: Global,
    file: &str,
    inside: &str,
    outside: &str,
    effort: Effort<W>,
    tree: &str,
    shelf: &mut F,
    out: &mut Outputs<K, E>,
) -> Status
    requires some { 1 ≤ effort.budget }
    requires few { effort.budget ≤ 1000000 }
    ensures ends { Ends
        (TwoFilesSay (λ held name. AgainstWork effort.budget held name inside.now outside.now)
        file.now tree.now (F.state shelf.old) (F.state shelf.new)) out.old out.new result }
    ensures keeps { Keeps (F.state shelf.old) (F.state shelf.new) }
{
    match problem_of(alloc, shelf, out, file) {
        Ok(problem) => {
            say_from_against(alloc, &problem, inside, outside, effort, tree, shelf, out)
        }
        Err(status) => status,
    }
}
