//! The summary of a whole search.
ghost use Rattle.std.specs.Prelude.{◌≡◌, ◌≤◌, ◌++◌, ◌∷◌, [], ℕ, Bool, IfOk, codes, decimal, length};
ghost use Rattle.std.specs.Prelude.{string_bytes};
ghost use Rattle.std.specs.Fmt.{signed_decimal};
ghost use Rattle.tree_text.specs.pns_rules.Shape.{shape_of};
ghost use Rattle.tree_text.specs.pns_rules.Structure.{IsStructure};
ghost use Rattle.tree_text.specs.pgraph.Tables.{shape};
ghost use Rattle.tree_text.specs.tree_rules.Claim as claims;
ghost use Rattle.command_files.specs.studio_rules.Solve.{Solves};
ghost use Rattle.command_files.specs.studio_rules.Summary.{CountsMaximal, SummarySays, SummaryWork};
ghost use Rattle.command_files.specs.studio_rules.Summary.{summary_lines};
ghost use Rattle.command_files.specs.studio_rules.Lines.{text_of};
ghost use Rattle.command_files.specs.studio_rules.Ending.{Ends, Tells};

use crate::certificate::say_found;
use crate::search::search_all;
use command_files::Status;
use command_files::line::push_unit_names;
use command_files::say::{say_made, say_memory};
use headed_search::{
    Effort, Found, Graph, Network, Outputs, Problem, Sink, Tree, UnitSet, Watch,
    accepted_is_optimal, maximal,
};
use std::alloc::{AllocError, Global};

/// How many units the maximal structure has.
fn maximal_count(problem: &Problem, graph: &Graph) -> u32
    requires graph { shape graph.now ≡ shape_of problem.now }
    ensures { (s : ℕ → Bool) → IsStructure (shape_of problem.now) s
        → CountsMaximal problem.now result }
{
    match maximal(graph, UnitSet::empty()) {
        Some(all) => {
            all.rises();
            all.count()
        }
        None => 0,
    }
}

// The lines before the names of the network, and those after them.
fn sizes_text(alloc: Global, units: usize, most: u32) -> Result<String, AllocError>
    ensures { IfOk result
        (λ text. string_bytes text ≡ codes "units "
        ++ (decimal units ++ (10 ∷ codes "maximal " ++ (decimal most ++ 10 ∷ codes "network")))) }
{
    let text = format!(in alloc; "units {units}\nmaximal {most}\nnetwork")?;
    Ok(text)
}

fn cost_text(alloc: Global, cost: i128, d: i128, nodes: usize) -> Result<String, AllocError>
    ensures { IfOk result
        (λ text. string_bytes text ≡ 10 ∷ codes "cost "
        ++ (signed_decimal cost
        ++ (32 ∷ signed_decimal d ++ (10 ∷ codes "nodes " ++ (decimal nodes ++ 10 ∷ []))))) }
{
    let text = format!(in alloc; "\ncost {cost} {d}\nnodes {nodes}\n")?;
    Ok(text)
}

fn summary(
    alloc: Global,
    problem: &Problem,
    most: u32,
    network: &Network,
    nodes: usize,
) -> Result<Vec<u8>, AllocError>
    requires { length problem.now.units ≤ 128 }
    ensures { IfOk result
        (λ text. text.items ≡ text_of (summary_lines problem.now most network.now nodes)) }
{
    let sizes = sizes_text(alloc, problem.units().len(), most)?;
    let cost = cost_text(alloc, network.cost(), network.d(), nodes)?;
    let mut text = sizes.as_bytes().to_vec(alloc)?;
    push_unit_names(&mut text, problem.units(), network.units())?;
    text.extend_from_slice(cost.as_bytes())?;
    Ok(text)
}

fn say_summary<K: Sink, E: Sink>(
    alloc: Global,
    out: &mut Outputs<K, E>,
    problem: &Problem,
    graph: &Graph,
    network: &Network,
    tree: &Tree,
) -> Status
    requires graph { shape graph.now ≡ shape_of problem.now }
    requires solves { Solves problem.now (claims.network network.now) tree.now }
    ensures { Ends (Tells (SummarySays problem.now)) out.old out.new result }
{
    problem.is_valid();
    let most = maximal_count(problem, graph);
    say_made(
        out,
        summary(alloc, problem, most, network, tree.nodes().len()),
    )
}

/// Prints a summary of what the search solves, or how far it came.
pub fn say_summed<K: Sink, E: Sink, W: Watch>(
    alloc: Global,
    out: &mut Outputs<K, E>,
    problem: &Problem,
    effort: Effort<W>,
) -> Status
    requires some { 1 ≤ effort.budget }
    requires few { effort.budget ≤ 1000000 }
    ensures { Ends (Tells (SummaryWork effort.budget problem.now)) out.old out.new result }
{
    let Ok(graph) = Graph::of(alloc, problem) else {
        return say_memory(out);
    };
    problem.is_valid();
    accepted_is_optimal();
    let budget = u64::from(effort.budget);
    match search_all(alloc, problem, &graph, effort) {
        Found::Solved { network, tree } => {
            say_summary(alloc, out, problem, &graph, &network, &tree)
        }
        stopped => say_found(alloc, out, problem, stopped, budget),
    }
}
