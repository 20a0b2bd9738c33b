//! The command `check`.
ghost use Rattle.std.specs.Prelude.{◌≡◌, ◌<◌, ◌^◌, length};
ghost use Rattle.command_files.specs.tree_reading.Said.{said_by};
ghost use Rattle.command_files.specs.studio_rules.Reading.{TwoFilesSay};
ghost use Rattle.command_files.specs.studio_rules.HeadedFile.{OnHeaded};
ghost use Rattle.command_files.specs.studio_rules.Check.{CheckWork};
ghost use Rattle.command_files.specs.studio_rules.Best.{AcceptedIsBest, FilesClaimBest};
ghost use Rattle.command_files.specs.studio_rules.Ending.{Ends, Says, Tells};
ghost use Rattle.command_files.specs.studio_rules.Keeps.{Keeps};
ghost use Rattle.command_files.specs.studio_rules.declared.status.Status.TheVariants.{Done};

use cert_check::{
    Graph, HeadRefusal, Problem, Site, accepted_by_has_flows, accepted_by_is_optimal, check_headed,
};
use command_files::say::{say, say_memory, say_of};
use command_files::{
    Headed, Outputs, Shelf, Sink, Status, headed_of, problem_of, say_head, say_node, why_word,
};
use std::alloc::Global;

/// Prints that the head and the tree prove the claim, or the first line of the claim, the first
/// line of the head, or the first node, that fails.
fn say_judged<K: Sink, E: Sink>(
    alloc: Global,
    out: &mut Outputs<K, E>,
    site: &Site<'_>,
    text: &Headed,
) -> Status
    requires few { length text.now.tree < 2 ^ 32 }
    ensures { Ends
        (Tells (CheckWork site.now (said_by text.now))) out.old out.new result }
{
    match check_headed(alloc, site, &text.claim, &text.head, &text.tree) {
        Ok(()) => say(out, b"accepted\n", Status::Done),
        Err(HeadRefusal::Claim(why)) => {
            say_of(alloc, out, "refused claim ", why_word(why), Status::Refused)
        }
        Err(HeadRefusal::Line { line, why }) => say_head(alloc, out, line, why),
        Err(HeadRefusal::Node { node, why }) => say_node(alloc, out, node, why),
        Err(HeadRefusal::Memory) => say_memory(out),
    }
}

/// The same, once the problem's graph is made.
fn say_checked<K: Sink, E: Sink>(
    alloc: Global,
    out: &mut Outputs<K, E>,
    problem: &Problem,
    text: &Headed,
) -> Status
    requires few { length text.now.tree < 2 ^ 32 }
    ensures { Ends
        (Tells (CheckWork problem.now (said_by text.now))) out.old out.new result }
{
    let Ok(graph) = Graph::of(alloc, problem) else {
        return say_memory(out);
    };
    let site = Site::of(problem, &graph);
    say_judged(alloc, out, &site, text)
}

fn say_tree<F: Shelf, K: Sink, E: Sink>(
    alloc: Global,
    problem: &Problem,
    name: &str,
    shelf: &mut F,
    out: &mut Outputs<K, E>,
) -> Status
    ensures ends { Ends
        (Says (OnHeaded CheckWork (F.state shelf.old).held name.now problem.now)
        (λ other. other ≡ name.now) (F.state shelf.old) (F.state shelf.new)) out.old out.new
        result }
    ensures keeps { Keeps (F.state shelf.old) (F.state shelf.new) }
{
    match headed_of(alloc, shelf, out, name, problem) {
        Ok(text) => say_checked(alloc, out, problem, &text),
        Err(status) => status,
    }
}

/// If `check` accepts, the claim is best. It is a network that no other undercuts, or it is that no
/// network has flows, and none has.
pub fn accepted_is_best()
    ensures { AcceptedIsBest }
{
    accepted_by_is_optimal();
    accepted_by_has_flows();
}

/// Prints whether the tree of the one file proves its claim on the problem of the other.
pub fn check<F: Shelf, K: Sink, E: Sink>(
    alloc: Global,
    file: &str,
    tree: &str,
    shelf: &mut F,
    out: &mut Outputs<K, E>,
) -> Status
    ensures ends { Ends
        (TwoFilesSay (OnHeaded CheckWork) file.now tree.now (F.state shelf.old) (F.state shelf.new))
        out.old out.new result }
    ensures keeps { Keeps (F.state shelf.old) (F.state shelf.new) }
    // If the status is 0, the one file gives a valid problem and the other a claim that is best.
    ensures accepted { result ≡ Done → FilesClaimBest (F.state shelf.old).held file.now tree.now }
{
    accepted_is_best();
    match problem_of(alloc, shelf, out, file) {
        Ok(problem) => say_tree(alloc, &problem, tree, shelf, out),
        Err(status) => status,
    }
}
