//! A file that has a ranking: it is read and judged by its grammar.
ghost use Rattle.std.specs.Prelude.{◌≡◌, ◌<◌, ◌^◌, ℕ, List, IfOk, IfErr, OnOk, length};
ghost use Rattle.rank_text.specs.Known.{KnowsText};
ghost use Rattle.searches.specs.studio_rules.Reading.{AreHeld};
ghost use Rattle.searches.specs.studio_rules.Rankcheck.{GivesRanking, RankFaults};
ghost use Rattle.searches.specs.studio_rules.Ending.{Ends, Says};
ghost use Rattle.searches.specs.studio_rules.Keeps.{Keeps};

use rank_text::{Outputs, Problem, RankText, Shelf, Sink, TreeFault, read_rank};
use searches::say::say_memory;
use searches::{Format, Source, Status, bytes_of, say_tree_fault};
use std::alloc::Global;

/// The most bytes of a file that has a ranking.
const RANK_LIMIT: u64 = 268_435_456;

/// Reads the file, and judges its text as a ranking for the problem. If that gives none, the text
/// that says why is printed, and `Err` has the status of the call.
pub(crate) fn rank_of<F: Shelf, K: Sink, E: Sink>(
    alloc: Global,
    shelf: &mut F,
    out: &mut Outputs<K, E>,
    name: &str,
    problem: &Problem,
) -> Result<RankText, Status>
    ensures ranking { IfOk result
        (λ t. (file : List ℕ) × AreHeld ((F.state shelf.old).held name.now) file
        × GivesRanking problem.now file t) }
    ensures few { IfOk result (λ t. length t.tree < 2 ^ 32) }
    ensures known { IfOk result (KnowsText problem.now) }
    ensures silent { OnOk result (out.new ≡ out.old) }
    ensures keeps { Keeps (F.state shelf.old) (F.state shelf.new) }
    ensures told { IfErr result
        (Ends
        (Says (RankFaults (F.state shelf.old).held name.now problem.now) (λ other. other ≡ name.now)
        (F.state shelf.old) (F.state shelf.new)) out.old out.new) }
{
    let bytes = match bytes_of(alloc, shelf, out, name, RANK_LIMIT) {
        Ok(bytes) => bytes,
        Err(status) => return Err(status),
    };
    match read_rank(alloc, problem, &bytes) {
        Ok(text) => Ok(text),
        Err(TreeFault::At { line, kind }) => {
            let source = Source {
                text: &bytes,
                format: Format::Rank,
            };
            Err(say_tree_fault(alloc, out, source, line, kind))
        }
        Err(TreeFault::Memory) => Err(say_memory(out)),
    }
}
