//! The command `rankcheck`.
ghost use Rattle.std.specs.Prelude.{◌≡◌, ◌<◌, ◌^◌, IfOk, length, string_bytes};
ghost use Rattle.searches.specs.studio_rules.Lines.{line};
ghost use Rattle.searches.specs.studio_rules.RankWords.{network_line, rank_node_line};
ghost use Rattle.searches.specs.studio_rules.Reading.{TwoFilesSay};
ghost use Rattle.searches.specs.studio_rules.Rankcheck.{RankcheckWork, OnRank, FilesListBest};
ghost use Rattle.searches.specs.studio_rules.Rankcheck.{AcceptedAreBest};
ghost use Rattle.searches.specs.studio_rules.Ending.{Ends, Says, Tells, Only, OrMemory};
ghost use Rattle.searches.specs.studio_rules.Keeps.{Keeps};
ghost use Rattle.searches.specs.studio_rules.declared.status.Status.TheVariants.{Done, Refused};

use crate::rank_file::rank_of;
use rank_text::{
    Graph, Outputs, Problem, RankRefusal, RankText, RankWhy, Shelf, Sink, Site,
    alternatives_are_right, check_rank, listed_are_least, others_are_no_better,
    read_ranks_are_spelled,
};
use searches::say::{say, say_memory};
use searches::{Status, network_line, problem_of, rank_why_word};
use std::alloc::{AllocError, Global};

fn node_line(alloc: Global, node: u32, why: RankWhy) -> Result<String, AllocError>
    ensures { IfOk result (λ text. string_bytes text ≡ line (rank_node_line node why)) }
{
    let mut text = String::from_str(alloc, "refused node ")?;
    write!(text, "{node}")?;
    text.push(' ')?;
    text.push_str(rank_why_word(why))?;
    text.push('\n')?;
    Ok(text)
}

fn say_network<K: Sink, E: Sink>(
    alloc: Global,
    out: &mut Outputs<K, E>,
    number: u32,
    why: RankWhy,
) -> Status
    ensures { Ends (OrMemory (Only Refused (line (network_line number why)))) out.old out.new
        result }
{
    match network_line(alloc, number, why) {
        Ok(text) => say(out, text.as_bytes(), Status::Refused),
        Err(_) => say_memory(out),
    }
}

fn say_node<K: Sink, E: Sink>(
    alloc: Global,
    out: &mut Outputs<K, E>,
    node: u32,
    why: RankWhy,
) -> Status
    ensures { Ends (OrMemory (Only Refused (line (rank_node_line node why)))) out.old out.new
        result }
{
    match node_line(alloc, node, why) {
        Ok(text) => say(out, text.as_bytes(), Status::Refused),
        Err(_) => say_memory(out),
    }
}

/// Prints that the tree proves the ranking, or the first network or the first node that fails.
fn say_judged<K: Sink, E: Sink>(
    alloc: Global,
    out: &mut Outputs<K, E>,
    site: &Site<'_>,
    text: &RankText,
) -> Status
    requires few { length text.now.tree < 2 ^ 32 }
    ensures { Ends (Tells (RankcheckWork site.now text.now)) out.old out.new result }
{
    match check_rank(alloc, site, text) {
        Ok(()) => say(out, b"accepted\n", Status::Done),
        Err(RankRefusal::Network { number, why }) => say_network(alloc, out, number, why),
        Err(RankRefusal::Node { node, why }) => say_node(alloc, out, node, why),
        Err(RankRefusal::Memory) => say_memory(out),
    }
}

/// The same, once the problem's graph is made.
fn say_checked<K: Sink, E: Sink>(
    alloc: Global,
    out: &mut Outputs<K, E>,
    problem: &Problem,
    text: &RankText,
) -> Status
    requires few { length text.now.tree < 2 ^ 32 }
    ensures { Ends (Tells (RankcheckWork problem.now text.now)) out.old out.new result }
{
    let Ok(graph) = Graph::of(alloc, problem) else {
        return say_memory(out);
    };
    let site = Site::of(problem, &graph);
    say_judged(alloc, out, &site, text)
}

fn say_rank<F: Shelf, K: Sink, E: Sink>(
    alloc: Global,
    problem: &Problem,
    name: &str,
    shelf: &mut F,
    out: &mut Outputs<K, E>,
) -> Status
    ensures ends { Ends
        (Says (OnRank (F.state shelf.old).held name.now problem.now) (λ other. other ≡ name.now)
        (F.state shelf.old) (F.state shelf.new)) out.old out.new result }
    ensures keeps { Keeps (F.state shelf.old) (F.state shelf.new) }
{
    match rank_of(alloc, shelf, out, name, problem) {
        Ok(text) => say_checked(alloc, out, problem, &text),
        Err(status) => status,
    }
}

/// If `rankcheck` accepts, the networks are the best, or alternatives.
pub fn accepted_are_best()
    ensures { AcceptedAreBest }
{
    listed_are_least();
    others_are_no_better();
    alternatives_are_right();
    read_ranks_are_spelled();
}

/// Prints whether the tree of the ranking of the one file proves it on the problem of the other.
pub fn rankcheck<F: Shelf, K: Sink, E: Sink>(
    alloc: Global,
    file: &str,
    rank: &str,
    shelf: &mut F,
    out: &mut Outputs<K, E>,
) -> Status
    ensures ends { Ends
        (TwoFilesSay OnRank file.now rank.now (F.state shelf.old) (F.state shelf.new)) out.old
        out.new result }
    ensures keeps { Keeps (F.state shelf.old) (F.state shelf.new) }
    // If the status is 0, the one file gives a valid problem and the other networks that are the
    // best, or alternatives.
    ensures accepted { result ≡ Done → FilesListBest (F.state shelf.old).held file.now rank.now }
{
    accepted_are_best();
    match problem_of(alloc, shelf, out, file) {
        Ok(problem) => say_rank(alloc, &problem, rank, shelf, out),
        Err(status) => status,
    }
}
