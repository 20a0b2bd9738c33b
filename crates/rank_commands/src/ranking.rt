//! The text of what a search for networks found.
ghost use Rattle.std.specs.Prelude.{◌≡◌, ◌<◌, ◌^◌, Ok, Some, length, map};
ghost use Rattle.rank_text.specs.problem_rules.Each.{Each};
ghost use Rattle.rank_text.specs.branch_tree.Sized.{IsKept};
ghost use Rattle.rank_text.specs.rank_check.View.{mark_of};
ghost use Rattle.rank_text.specs.Known.{KnowsText};
ghost use Rattle.rank_text.specs.rank_rules.Text.{Text};
ghost use Rattle.rank_text.specs.rank_rules.Read.{read_text};
ghost use Rattle.rank_text.specs.rank_rules.Spelling.{rank_text};
ghost use Rattle.rank_commands.specs.Normal.{normal, IsMarkInRange};
ghost use Rattle.rank_commands.specs.Found.{ranking_found, CanPrint, RankingSays};
ghost use Rattle.rank_commands.specs.Found.{FoundSays};
ghost use Rattle.searches.specs.studio_rules.Ending.{Ends, Tells};

use rank_text::{Mark, Network, Outputs, Problem, RankText, Sink, print_rank, spelled_ranks_read};
use searches::say::{say_memory, say_searched};
use searches::{Ranked, Status, status_of, stopped_notes, tail_is_counted};
use std::alloc::Global;

/// The ranking that was found. It is `None` if and only if there was no memory for the search.
fn ranking_found(ranked: Ranked) -> Option<RankText>
    ensures { result ≡ ranking_found ranked }
{
    match ranked {
        Ranked::Whole(text) => Some(text),
        Ranked::Spent(text) => Some(text),
        Ranked::Past(text) => Some(text),
        Ranked::Memory => None,
    }
}

// Networks are sized, and their numbers are in range. A call shows this to a proof, and changes
// nothing.
fn networks_are_kept(networks: &[Network])
    ensures { Each IsKept networks.now }
{
    'networks: for network in networks {
        network.is_sized();
    }
}

// The numbers of a mark are in range. A call shows this to a proof, and does nothing.
fn mark_is_in_range(mark: &Mark)
    ensures { IsMarkInRange (mark_of mark.now) }
{
    match mark {
        Mark::Open => {}
        Mark::Named(name) => {
            let _network = name.network;
            name.scaled.are_in_range();
        }
    }
}

// The numbers of all marks are in range.
fn marks_are_in_range(marks: &[Mark])
    ensures { Each IsMarkInRange (map mark_of marks.now) }
{
    'marks: for mark in marks {
        mark_is_in_range(mark);
    }
}

// The count of a ranking is a number that a line can have. A call shows this to a proof, and does
// nothing.
fn count_is_held(text: &RankText)
    ensures { text.now.count < 2 ^ 32 }
{
    let _count = text.count();
}

/// The text of a ranking reads back as it, with exactly one mark for each open leaf. A call shows
/// this to a proof, and changes nothing.
fn reads_back(problem: &Problem, text: &RankText)
    requires known { KnowsText problem.now text.now }
    requires few { length text.now.tree < 2 ^ 32 }
    ensures { read_text problem.now (rank_text problem.now (normal text.now))
        ≡ Ok (normal text.now) }
{
    problem.is_valid();
    text.is_counted();
    text.tree().is_tree();
    count_is_held(text);
    networks_are_kept(text.networks());
    marks_are_in_range(text.marks());
    tail_is_counted(text.tail());
    spelled_ranks_read();
}

/// Prints the ranking. The status is that of its tail, so it says why the search stopped.
fn say_ranking<K: Sink, E: Sink>(
    alloc: Global,
    out: &mut Outputs<K, E>,
    problem: &Problem,
    text: &RankText,
    budget: u64,
) -> Status
    requires known { KnowsText problem.now text.now }
    requires few { length text.now.tree < 2 ^ 32 }
    ensures { Ends (Tells (RankingSays problem.now text.now)) out.old out.new result }
{
    reads_back(problem, text);
    let printed = print_rank(alloc, problem, text, &mut out.out);
    let notes = stopped_notes(alloc, problem, text.networks().first(), text.tail(), budget);
    say_searched(out, printed, notes.bytes(), status_of(text.tail()))
}

/// Prints what was found.
pub(crate) fn say_found<K: Sink, E: Sink>(
    alloc: Global,
    out: &mut Outputs<K, E>,
    problem: &Problem,
    ranked: Ranked,
    budget: u64,
) -> Status
    requires { (t : Text) → ranking_found ranked ≡ Some t → CanPrint problem.now t }
    ensures { Ends (Tells (FoundSays problem.now ranked)) out.old out.new result }
{
    match ranking_found(ranked) {
        Some(text) => say_ranking(alloc, out, problem, &text, budget),
        None => say_memory(out),
    }
}
