//! The command `show`.
ghost use Rattle.std.specs.Prelude.{◌≡◌, ◌≤◌, ◌<◌, ◌^◌, ℕ, List, IfSome, length};
ghost use Rattle.rank_text.specs.tree_rules.Accepted.{first_node};
ghost use Rattle.rank_text.specs.branch_tree.View.{claim_of, tail_of};
ghost use Rattle.searches.specs.abb_search.Found.{IsFound};
ghost use Rattle.json_text.specs.report_rules.Measures.{measures_of};
ghost use Rattle.network_commands.specs.studio_rules.Reading.{GivesProblem, TextSays};
ghost use Rattle.network_commands.specs.studio_rules.Show.{ShowWork, ShownIsProved};
ghost use Rattle.network_commands.specs.studio_rules.Show.{CertificateShows, HeadedShows};
ghost use Rattle.network_commands.specs.studio_rules.Report.{ReportSays};
ghost use Rattle.network_commands.specs.studio_rules.Lines.{text_of};
ghost use Rattle.network_commands.specs.studio_rules.Seconds.{AreSeconds};
ghost use Rattle.network_commands.specs.studio_rules.Solve.{status_of};
ghost use Rattle.network_commands.specs.studio_rules.Ending.{Ends, Tells, Only};
ghost use Rattle.network_commands.specs.studio_rules.Keeps.{Keeps};
ghost use Rattle.searches.specs.Solution.{certificate_of};
ghost use Rattle.report_commands.specs.Shown.{FoundShows};

use crate::stopped::say_stopped;
use json_text::{Measures, Plant};
use network_commands::say::{say_memory, say_text};
use network_commands::{Status, plant_of, report_text_by, verdict_of, verdict_text};
use rank_text::{
    Claim, Effort, Graph, Outputs, Problem, Shelf, Sink, Site, Tail, Tree, Watch,
    accepted_is_optimal,
};
use searches::{
    Certificate, Found, Headed, Solution, certificate_of, claimed, search_best, stopped_notes,
};
use std::alloc::Global;

/// Prints a report with the status of the search, which says why that stopped if it did.
fn say_report<K: Sink, E: Sink>(
    out: &mut Outputs<K, E>,
    text: &[u8],
    tail: &Tail,
    notes: &[u8],
) -> Status
    requires { AreSeconds notes.now }
    ensures { Ends (Only (status_of (tail_of tail.now)) text.now) out.old out.new result }
{
    match tail {
        Tail::Whole => say_text(out, text, Status::Done),
        Tail::Spent { .. } => say_stopped(out, text, notes, Status::Spent),
        Tail::Past { .. } => say_stopped(out, text, notes, Status::Past),
    }
}

/// What the tree proves of the claim, and the network. The claim of a search passes, so there is no
/// report only if there is no memory.
fn report_of(alloc: Global, plant: &Plant<'_>, claim: &Claim, tree: &Tree) -> Option<Vec<u8>>
    requires few { length tree.now < 2 ^ 32 }
    ensures { IfSome result (λ bytes. (lines : List (List ℕ))
        × ReportSays plant.now.measures.now plant.now.site.now (claim_of claim.now) tree.now lines
        × (bytes.items ≡ text_of lines)) }
{
    let Ok(verdict) = verdict_of(alloc, plant.site, claim, tree) else {
        return None;
    };
    match verdict_text(alloc, plant, claim, tree, verdict) {
        Ok(text) => Some(text),
        Err(_) => None,
    }
}

/// Prints for people what a search found.
fn say_certificate<K: Sink, E: Sink>(
    alloc: Global,
    out: &mut Outputs<K, E>,
    plant: &Plant<'_>,
    certificate: Certificate,
    budget: u64,
) -> Status
    requires few { length certificate.tree < 2 ^ 32 }
    ensures { Ends
        (Tells (CertificateShows plant.now.measures.now plant.now.site.now certificate)) out.old
        out.new result }
{
    let (claim, tree, tail) = certificate.into_parts();
    match report_of(alloc, plant, &claim, &tree) {
        Some(text) => {
            let problem = plant.site.problem();
            let notes = stopped_notes(alloc, problem, claimed(&claim), &tail, budget);
            say_report(out, &text, &tail, notes.bytes())
        }
        None => say_memory(out),
    }
}

/// The same, if there was memory for the search.
fn say_found<K: Sink, E: Sink>(
    alloc: Global,
    out: &mut Outputs<K, E>,
    plant: &Plant<'_>,
    found: Found,
    budget: u64,
) -> Status
    requires { (budget : ℕ) × IsFound plant.now.site.now first_node budget found }
    ensures { Ends (Tells (FoundShows plant.now.measures.now plant.now.site.now found)) out.old
        out.new result }
{
    match certificate_of(found) {
        Some(certificate) => say_certificate(alloc, out, plant, certificate, budget),
        None => say_memory(out),
    }
}

/// Prints for people a network with a head and a tree that prove it.
fn say_headed<K: Sink, E: Sink>(
    alloc: Global,
    out: &mut Outputs<K, E>,
    plant: &Plant<'_>,
    headed: Headed,
) -> Status
    requires few { length headed.tree < 2 ^ 32 }
    ensures { Ends
        (Tells (HeadedShows plant.now.measures.now plant.now.site.now
        (certificate_of headed.network headed.head headed.tree))) out.old out.new result }
{
    let claim = Claim::Network(headed.network);
    match report_text_by(alloc, plant, &claim, &headed.head, &headed.tree) {
        Ok(text) => say_text(out, &text, Status::Done),
        Err(_) => say_memory(out),
    }
}

/// Searches the problem, and prints what was found.
fn say_shown<K: Sink, E: Sink, W: Watch>(
    alloc: Global,
    out: &mut Outputs<K, E>,
    problem: &Problem,
    bytes: &[u8],
    effort: Effort<W>,
) -> Status
    requires gives { GivesProblem bytes.now problem.now }
    requires some { 1 ≤ effort.budget }
    requires few { effort.budget ≤ 1000000 }
    ensures { Ends (Tells (ShowWork effort.budget bytes.now problem.now)) out.old out.new result }
{
    let Ok(measures) = Measures::of(alloc, bytes) else {
        return say_memory(out);
    };
    let Ok(graph) = Graph::of(alloc, problem) else {
        return say_memory(out);
    };
    problem.is_valid();
    accepted_is_optimal();
    let budget = u64::from(effort.budget);
    let solution = search_best(alloc, problem, &graph, effort);
    let site = Site::of(problem, &graph);
    let plant = Plant {
        site: &site,
        measures: &measures,
    };
    match solution {
        Solution::Plain(found) => say_found(alloc, out, &plant, found, budget),
        Solution::WithHead(headed) => say_headed(alloc, out, &plant, headed),
    }
}

/// What is shown with status 0 is proved.
pub fn shown_is_proved()
    ensures { ShownIsProved }
{}

/// Prints for people what the search of the file's problem finds and what its tree proves.
pub fn show<F: Shelf, K: Sink, E: Sink, W: Watch>(
    alloc: Global,
    file: &str,
    effort: Effort<W>,
    shelf: &mut F,
    out: &mut Outputs<K, E>,
) -> Status
    requires some { 1 ≤ effort.budget }
    requires few { effort.budget ≤ 1000000 }
    ensures ends { Ends
        (TextSays (ShowWork effort.budget) file.now (F.state shelf.old) (F.state shelf.new)) out.old
        out.new result }
    ensures keeps { Keeps (F.state shelf.old) (F.state shelf.new) }
{
    match plant_of(alloc, shelf, out, file) {
        Ok((bytes, problem)) => say_shown(alloc, out, &problem, &bytes, effort),
        Err(status) => status,
    }
}
