//! The head of a tree: the lines before the first node.
ghost use Rattle.std.specs.Prelude.{◌≡◌, ◌<◌, ◌-◌, ◌^◌, None, Ok, IfOk, IfErr, length};
ghost use Rattle.tree_text_rules.specs.tree_rules.HeadKnown.{KnowsLine, KnowsHead};
ghost use Rattle.branch_tree.specs.HeadView.{line_of, lines_of};
ghost use Rattle.tree_text_rules.specs.LineRead.{sets_of};
ghost use Rattle.tree_text_rules.specs.Read.{front_taken};
ghost use Rattle.tree_reading.specs.Front.{BearsNone, line_behind, GivesLine};
ghost use Rattle.tree_reading.specs.Place.{IsCut, IsReached, lines_at};
ghost use Rattle.tree_reading.specs.Taken.{taken};
ghost use Rattle.text_lines.specs.Tells.{Tells};

use crate::apart::parts_of;
use crate::cut::{Cut, line_at};
use crate::fault::TreeFault;
use crate::front_line::front_line;
use crate::node::read_sets;
use branch_tree::{Covers, HeadLine, Problem};
use std::alloc::Global;

// The line that was read, with the sets that follow it if it may have some, and the place after
// them.
fn with_sets(
    alloc: Global,
    problem: &Problem,
    line: HeadLine,
    bytes: &[u8],
    cut: Cut,
) -> Result<(HeadLine, Cut), TreeFault>
    requires cut { IsCut bytes.now cut }
    requires few { length bytes.now < 2 ^ 32 - 1 }
    requires known { KnowsLine problem.now (line_of line) }
    requires bare { BearsNone (line_of line) }
    ensures read { IfOk result
        (λ found. line_behind problem.now (line_of line) (sets_of (line_of line)) cut.line
        (lines_at bytes.now cut) ≡ Ok (taken (line_of found.0) bytes.now found.1)) }
    ensures reached { IfOk result (λ found. IsReached bytes.now cut found.1) }
    ensures known { IfOk result (λ found. KnowsLine problem.now (line_of found.0)) }
    ensures fault { IfErr result
        (Tells
        (line_behind problem.now (line_of line) (sets_of (line_of line)) cut.line
        (lines_at bytes.now cut))) }
{
    problem.is_valid();
    match line {
        HeadLine::Cap {
            unit,
            size,
            scaled,
            ..
        } => {
            let (covers, behind) = read_sets(alloc, problem, bytes, cut)?;
            let covers = Covers::from_vec(covers);
            let line = HeadLine::Cap {
                unit,
                size,
                scaled,
                covers,
            };
            Ok((line, behind))
        }
        HeadLine::Out { unit, scaled, .. } => {
            let (covers, behind) = read_sets(alloc, problem, bytes, cut)?;
            let covers = Covers::from_vec(covers);
            let line = HeadLine::Out {
                unit,
                scaled,
                covers,
            };
            Ok((line, behind))
        }
        HeadLine::Use {
            material,
            amount,
            worth,
            scaled,
            ..
        } => {
            let (covers, behind) = read_sets(alloc, problem, bytes, cut)?;
            let covers = Covers::from_vec(covers);
            let line = HeadLine::Use {
                material,
                amount,
                worth,
                scaled,
                covers,
            };
            Ok((line, behind))
        }
        line => Ok((line, cut)),
    }
}

// The line of a head at this place, with its sets, and the place after them; or none if the line
// is another.
fn read_line(
    alloc: Global,
    problem: &Problem,
    bytes: &[u8],
    cut: Cut,
) -> Result<Option<(HeadLine, Cut)>, TreeFault>
    requires cut { IsCut bytes.now cut }
    requires few { length bytes.now < 2 ^ 32 - 1 }
    ensures { GivesLine problem.now bytes.now cut result }
{
    let Some((line, behind)) = line_at(bytes, cut) else {
        return Ok(None);
    };
    let begun = match front_line(alloc, problem, &parts_of(&line)) {
        None => return Ok(None),
        Some(Err(fault)) => return Err(fault.at(cut.line)),
        Some(Ok(begun)) => begun,
    };
    let found = with_sets(alloc, problem, begun, bytes, behind)?;
    Ok(Some(found))
}

/// The lines of the head from this place on, and the place before the first line that is none.
/// `At` comes with the first fault of these lines, and only then; `Memory` says that there was no
/// memory.
pub fn read_front(
    alloc: Global,
    problem: &Problem,
    bytes: &[u8],
    cut: Cut,
) -> Result<(Vec<HeadLine>, Cut), TreeFault>
    requires cut { IsCut bytes.now cut }
    requires few { length bytes.now < 2 ^ 32 - 1 }
    ensures ok { IfOk result
        (λ found. front_taken problem.now None cut.line (lines_at bytes.now cut)
        ≡ Ok (taken (lines_of found.0.items) bytes.now found.1)) }
    ensures reached { IfOk result (λ found. IsReached bytes.now cut found.1) }
    ensures known { IfOk result (λ found. KnowsHead problem.now (lines_of found.0.items)) }
    ensures fault { IfErr result
        (Tells (front_taken problem.now None cut.line (lines_at bytes.now cut))) }
{
    let mut front = Vec::new(alloc);
    let mut at = cut;
    'front: while let Some((line, behind)) = read_line(alloc, problem, bytes, at)? {
        front.push(line)?;
        at = behind;
    }
    Ok((front, at))
}
