//! Tails, and the last line.
ghost use Rattle.std.specs.Prelude.{◌≡◌, ◌<◌, ◌-◌, ◌^◌, Ok, IfOk, IfErr, length};
ghost use Rattle.branch_tree.specs.View.{tail_of};
ghost use Rattle.tree_text_rules.specs.tree_rules.Known.{KnowsTail};
ghost use Rattle.tree_text_rules.specs.Read.{nothing_behind, tail_taken, past_taken, close_taken};
ghost use Rattle.tree_reading.specs.Gives.{Gives};
ghost use Rattle.tree_reading.specs.Place.{IsCut, lines_at};
ghost use Rattle.text_lines.specs.Tells.{Tells};

use crate::apart::parts_of;
use crate::cut::{Cut, line_at, next_line};
use crate::fault::{TreeFault, at_line, kind_at};
use crate::opening::TailOpening;
use crate::tail_line::{close_line, nonbasic_line, place_line, tail_opening_line};
use branch_tree::{Columns, Problem, Tail};
use std::alloc::Global;
use tree_text_rules::TreeKind;

// The tail, if nothing is left at this place.
fn read_nothing(tail: Tail, bytes: &[u8], cut: Cut) -> Result<Tail, TreeFault>
    requires cut { IsCut bytes.now cut }
    requires few { length bytes.now < 2 ^ 32 - 1 }
    ensures { Gives tail_of (λ found. found ≡ tail_of tail)
        (nothing_behind (tail_of tail) cut.line (lines_at bytes.now cut)) result }
{
    match line_at(bytes, cut) {
        None => Ok(tail),
        Some(_) => Err(kind_at(cut, TreeKind::AfterEnd)),
    }
}

// The tail, if the last line is at this place and nothing follows it.
fn read_close(tail: Tail, bytes: &[u8], cut: Cut) -> Result<Tail, TreeFault>
    requires cut { IsCut bytes.now cut }
    requires few { length bytes.now < 2 ^ 32 - 1 }
    ensures { Gives tail_of (λ found. found ≡ tail_of tail)
        (close_taken (tail_of tail) cut.line (lines_at bytes.now cut)) result }
{
    let (line, behind) = next_line(bytes, cut)?;
    at_line(cut, close_line(&parts_of(&line)))?;
    read_nothing(tail, bytes, behind)
}

// The tail of a search that met a number out of range at this node, from its second line on.
fn read_past(
    alloc: Global,
    problem: &Problem,
    node: u32,
    bytes: &[u8],
    cut: Cut,
) -> Result<Tail, TreeFault>
    requires cut { IsCut bytes.now cut }
    requires few { length bytes.now < 2 ^ 32 - 1 }
    ensures { Gives tail_of (KnowsTail problem.now)
        (past_taken problem.now node cut.line (lines_at bytes.now cut)) result }
{
    let (line, first) = next_line(bytes, cut)?;
    let read = nonbasic_line(alloc, problem, &parts_of(&line));
    let nonbasic = read.map_err(|fault| fault.at(cut.line))?;
    let (line, second) = next_line(bytes, first)?;
    let place = at_line(first, place_line(problem, &parts_of(&line)))?;
    let tail = Tail::Past {
        node,
        nonbasic: Columns::from_vec(nonbasic),
        place,
    };
    read_close(tail, bytes, second)
}

/// The tail whose first line is at this place, to the end of the bytes. `At` comes with the first
/// fault of what is left, and only then; `Memory` says that there was no memory.
pub fn read_tail(
    alloc: Global,
    problem: &Problem,
    bytes: &[u8],
    cut: Cut,
) -> Result<Tail, TreeFault>
    requires cut { IsCut bytes.now cut }
    requires few { length bytes.now < 2 ^ 32 - 1 }
    ensures read { IfOk result
        (λ tail. tail_taken problem.now cut.line (lines_at bytes.now cut) ≡ Ok (tail_of tail)) }
    ensures known { IfOk result (λ tail. KnowsTail problem.now (tail_of tail)) }
    ensures fault { IfErr result
        (Tells (tail_taken problem.now cut.line (lines_at bytes.now cut))) }
{
    let (line, first) = next_line(bytes, cut)?;
    match at_line(cut, tail_opening_line(&parts_of(&line)))? {
        TailOpening::Whole => read_nothing(Tail::Whole, bytes, first),
        TailOpening::Spent { next, options } => {
            read_close(Tail::Spent { next, options }, bytes, first)
        }
        TailOpening::Past { node } => read_past(alloc, problem, node, bytes, first),
    }
}
