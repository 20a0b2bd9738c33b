//! The object of a tree.
ghost use Rattle.std.specs.Prelude.{◌<◌, ◌^◌, length};
ghost use Rattle.rank_text.specs.tree_reading.Said.{said_by};
ghost use Rattle.network_commands.specs.studio_rules.Json.{JsonWork};
ghost use Rattle.network_commands.specs.studio_rules.Ending.{Ends, Tells};

use crate::headed::object_of;
use network_commands::say::{say_memory, say_text};
use network_commands::{Status, Unjudged, say_refused};
use rank_text::{Graph, Headed, Outputs, Problem, Sink, Site};
use std::alloc::Global;

/// Prints what the tree proves of the claim, and the facts of its network if it has one; or the
/// first line of the claim that fails.
fn say_judged<K: Sink, E: Sink>(
    alloc: Global,
    out: &mut Outputs<K, E>,
    site: &Site<'_>,
    text: &Headed,
) -> Status
    requires few { length text.now.tree < 2 ^ 32 }
    ensures { Ends (Tells (JsonWork site.now (said_by text.now))) out.old out.new result }
{
    match object_of(alloc, site, &text.claim, &text.head, &text.tree) {
        Ok(bytes) => say_text(out, &bytes, Status::Done),
        Err(Unjudged::Claim(why)) => say_refused(alloc, out, why),
        Err(Unjudged::Memory) => say_memory(out),
    }
}

/// The same, once the problem's graph is made.
pub fn say_stated<K: Sink, E: Sink>(
    alloc: Global,
    out: &mut Outputs<K, E>,
    problem: &Problem,
    text: &Headed,
) -> Status
    requires few { length text.now.tree < 2 ^ 32 }
    ensures { Ends (Tells (JsonWork problem.now (said_by text.now))) out.old out.new result }
{
    let Ok(graph) = Graph::of(alloc, problem) else {
        return say_memory(out);
    };
    let site = Site::of(problem, &graph);
    say_judged(alloc, out, &site, text)
}
