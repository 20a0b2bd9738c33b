//! The part that a search found.
ghost use Rattle.std.specs.Prelude.{◌≡◌, ◌<◌, ◌^◌, ℕ, length};
ghost use Rattle.network_commands.specs.pgraph.View.{node_of};
ghost use Rattle.network_commands.specs.tree_rules.Known.{AreUnits, KnowsClaim, KnowsTree};
ghost use Rattle.network_commands.specs.tree_rules.Known.{KnowsTail};
ghost use Rattle.network_commands.specs.tree_text_rules.Part.{IsApart};
ghost use Rattle.searches.specs.abb_search.Found.{IsFound};
ghost use Rattle.network_commands.specs.studio_rules.Part.{part_from};
ghost use Rattle.part_commands.specs.Found.{ReadsBack, TextSays, FoundSays};
ghost use Rattle.network_commands.specs.studio_rules.Ending.{Ends, Tells};

use network_commands::say::{say_memory, say_searched};
use network_commands::{
    Node, Outputs, Part, Problem, Sink, Status, print_part, read_texts_are_spelled,
    spelled_parts_read,
};
use searches::{Certificate, Found, certificate_of, claimed, status_of, stopped_notes};
use std::alloc::Global;

// The text of the part of a run from the node reads back as it. A call shows this to a proof, and
// does nothing.
fn reads_back(problem: &Problem, start: &Node, found: &Certificate)
    requires inside { AreUnits problem.now start.now.inside }
    requires outside { AreUnits problem.now start.now.outside }
    requires apart { IsApart start.now.inside start.now.outside }
    requires claim { KnowsClaim problem.now found.now.claim }
    requires tree { KnowsTree problem.now found.now.tree }
    requires tail { KnowsTail problem.now found.now.tail }
    requires few { length found.now.tree < 2 ^ 32 }
    ensures { ReadsBack problem.now (part_from start.now.inside start.now.outside found.now) }
{
    found.reads_back(problem);
    problem.is_valid();
    read_texts_are_spelled();
    spelled_parts_read();
}

// The part of a run from the node.
fn part_of(start: Node, found: Certificate) -> Part
    requires { IsApart start.inside start.outside }
    ensures { result ≡ part_from start.inside start.outside found }
{
    let (claim, tree, tail) = found.into_parts();
    Part::of(start, claim, tree, tail)
}

// Prints the part. The status is that of its tail, so it says why the search stopped.
fn say_part<K: Sink, E: Sink>(
    alloc: Global,
    out: &mut Outputs<K, E>,
    problem: &Problem,
    part: &Part,
    budget: u64,
) -> Status
    requires claim { KnowsClaim problem.now part.now.claim }
    requires tree { KnowsTree problem.now part.now.tree }
    requires tail { KnowsTail problem.now part.now.tail }
    requires reads { ReadsBack problem.now part.now }
    ensures { Ends (Tells (TextSays problem.now part.now)) out.old out.new result }
{
    let printed = print_part(alloc, problem, part, &mut out.out);
    let notes = stopped_notes(alloc, problem, claimed(part.claim()), part.tail(), budget);
    say_searched(out, printed, notes.bytes(), status_of(part.tail()))
}

/// Prints what a search from the node found.
pub(crate) fn say_found<K: Sink, E: Sink>(
    alloc: Global,
    out: &mut Outputs<K, E>,
    problem: &Problem,
    start: &Node,
    found: Found,
    budget: u64,
) -> Status
    requires known { AreUnits problem.now start.now.inside
        × AreUnits problem.now start.now.outside }
    requires apart { IsApart start.now.inside start.now.outside }
    requires found { (budget : ℕ) × IsFound problem.now (node_of start.now) budget found }
    ensures { Ends (Tells (FoundSays problem.now start.now.inside start.now.outside found)) out.old
        out.new result }
{
    match certificate_of(found) {
        Some(certificate) => {
            reads_back(problem, start, &certificate);
            let part = part_of(*start, certificate);
            say_part(alloc, out, problem, &part, budget)
        }
        None => say_memory(out),
    }
}
