//! From the ranking to its text.
ghost use Rattle.std.specs.Prelude.{◌≡◌, ◌<◌, ◌≤◌, ◌^◌, [], ℕ, List, IfOk, length};
ghost use Rattle.rank_text.specs.rank_rules.Networks.{ArePassing};
ghost use Rattle.rank_text.specs.rank_rules.Text.{ranking_of};
ghost use Rattle.report_commands.specs.Works.{RankWork, VerdictWork, RankLines};
ghost use Rattle.network_commands.specs.studio_rules.Lines.{line, text_of};
ghost use Rattle.network_commands.specs.studio_rules.RankWords.{network_line};
ghost use Rattle.network_commands.specs.studio_rules.TextFile.{RankSays};
ghost use Rattle.network_commands.specs.studio_rules.Ending.{Ends, Tells, Only, OrMemory};
ghost use Rattle.network_commands.specs.studio_rules.declared.status.Status.TheVariants.{BadClaim};

use crate::drawing::say_drawn;
use crate::form::{Form, Reader};
use crate::object::rank_object;
use crate::report::rank_report;
use json_text::{Plant, RankVerdict};
use network_commands::say::{say_memory, say_told, tell_made};
use network_commands::{
    Format, Notes, RankUnjudged, Source, Status, network_line, rank_verdict_of, refused,
    say_tree_fault,
};
use rank_text::{Graph, Outputs, Problem, RankText, RankWhy, Sink, Site, TreeFault, read_rank};
use std::alloc::{AllocError, Global};

/// The text of a ranking for this reader.
fn text_of(
    alloc: Global,
    reader: Reader<'_>,
    site: &Site<'_>,
    ranking: &RankText,
    verdict: RankVerdict,
) -> Result<Vec<u8>, AllocError>
    requires listed { ArePassing ranking.now.distinct site.now [] ranking.now.networks }
    ensures { IfOk result
        (λ bytes. (lines : List (List ℕ))
        × RankLines reader.entry site.now (ranking_of ranking.now) verdict lines
        × (bytes.items ≡ text_of lines)) }
{
    match reader {
        Reader::People(measures) => {
            rank_report(alloc, &Plant { site, measures }, ranking, verdict)
        }
        Reader::Programs => rank_object(alloc, site, ranking, verdict),
    }
}

// What follows the line on a network that fails.
fn notes_on(alloc: Global, why: RankWhy) -> Notes {
    match why {
        RankWhy::Plain(cause) => refused(alloc, cause),
        RankWhy::Order | RankWhy::Contains | RankWhy::Named | RankWhy::Over => Notes::new(alloc),
    }
}

/// Prints which network fails first, and why.
pub(crate) fn say_network<K: Sink, E: Sink>(
    alloc: Global,
    out: &mut Outputs<K, E>,
    number: u32,
    why: RankWhy,
) -> Status
    ensures { Ends (OrMemory (Only BadClaim (line (network_line number why)))) out.old out.new
        result }
{
    let notes = notes_on(alloc, why);
    tell_made(
        out,
        network_line(alloc, number, why),
        notes.bytes(),
        Status::BadClaim,
    )
}

/// Prints what the tree proves, and the networks; or the first network that fails.
fn say_judged<K: Sink, E: Sink>(
    alloc: Global,
    reader: Reader<'_>,
    out: &mut Outputs<K, E>,
    site: &Site<'_>,
    ranking: &RankText,
) -> Status
    requires few { length ranking.now.tree < 2 ^ 32 }
    ensures { Ends (Tells (VerdictWork reader.entry site.now ranking.now)) out.old out.new result }
{
    match rank_verdict_of(alloc, site, ranking) {
        Ok(verdict) => say_told(out, text_of(alloc, reader, site, ranking, verdict)),
        Err(RankUnjudged::Network { number, why }) => say_network(alloc, out, number, why),
        Err(RankUnjudged::Memory) => say_memory(out),
    }
}

/// The same, once the problem's graph is made.
fn say_ranked<K: Sink, E: Sink>(
    alloc: Global,
    form: Form<'_>,
    out: &mut Outputs<K, E>,
    problem: &Problem,
    ranking: &RankText,
) -> Status
    requires few { length ranking.now.tree < 2 ^ 32 }
    ensures { Ends (Tells (RankWork form.entry problem.now ranking.now)) out.old out.new result }
{
    let Ok(graph) = Graph::of(alloc, problem) else {
        return say_memory(out);
    };
    let site = Site::of(problem, &graph);
    match form {
        Form::Report(measures) => {
            say_judged(alloc, Reader::People(measures), out, &site, ranking)
        }
        Form::Json => say_judged(alloc, Reader::Programs, out, &site, ranking),
        Form::Graph(scene) => say_drawn(alloc, scene, out, &site, ranking),
    }
}

/// Prints the ranking of the bytes of a file, or their first fault.
pub(crate) fn say_ranking<K: Sink, E: Sink>(
    alloc: Global,
    form: Form<'_>,
    out: &mut Outputs<K, E>,
    problem: &Problem,
    bytes: &[u8],
) -> Status
    requires { length bytes.now ≤ 268435456 }
    ensures { (name : List ℕ)
        → Ends (Tells (RankSays (RankWork form.entry) name problem.now bytes.now)) out.old out.new
        result }
{
    match read_rank(alloc, problem, bytes) {
        Ok(ranking) => say_ranked(alloc, form, out, problem, &ranking),
        Err(TreeFault::At { line, kind }) => {
            let source = Source {
                text: bytes,
                format: Format::Rank,
            };
            say_tree_fault(alloc, out, source, line, kind)
        }
        Err(TreeFault::Memory) => say_memory(out),
    }
}
