//! Whole texts.
ghost use Rattle.std.specs.Prelude.{◌≡◌, ◌≤◌, ◌<◌, ◌-◌, ◌^◌, suc, Ok, IfOk, IfErr, length};
ghost use Rattle.tree_reading.specs.View.{line_of};
ghost use Rattle.tree_reading.specs.Place.{IsCut, lines_at};
ghost use Rattle.tree_parts.specs.Lines.{IsTaken, IsFaultAt};
ghost use Rattle.tree_text_laws.specs.tree_text_rules.PartRead.{SetLine, PartReads, is_file_type};
ghost use Rattle.tree_text_laws.specs.tree_text_rules.PartSpelling.{KnowsPart};
ghost use Rattle.tree_parts.specs.Tells.{TellsPart};

use crate::Part;
use crate::set::set_line;
use std::alloc::Global;
use tree_reading::{Cut, Line, TreeFault, kind_at, line_at, read_rest};
use tree_text_laws::{Node, Problem, TreeKind, UnitSet};

fn is_file_type(line: &Line) -> bool
    ensures { result ≡ is_file_type (line_of line.now) }
{
    line.ended && line.text == b"file_type=PNS_part_v1".as_slice()
}

// The set of units of the line at this place, and the place after the line.
fn set_at(
    problem: &Problem,
    before: UnitSet,
    word: &[u8],
    bytes: &[u8],
    cut: Cut,
) -> Result<(UnitSet, Cut), TreeFault>
    requires cut { IsCut bytes.now cut }
    requires few { length bytes.now < 2 ^ 32 - 1 }
    ensures taken { IfOk result
        (λ found. IsTaken (SetLine problem.now before word.now) (lines_at bytes.now cut) found.0
        (lines_at bytes.now found.1)) }
    ensures cut { IfOk result (λ found. IsCut bytes.now found.1) }
    ensures number { IfOk result (λ found. found.1.line ≡ suc cut.line) }
    ensures fault { IfErr result
        (IsFaultAt (SetLine problem.now before word.now) cut.line (lines_at bytes.now cut)) }
{
    let (line, behind) = line_at(bytes, cut).ok_or(kind_at(cut, TreeKind::BadLine))?;
    let units = set_line(problem, before, word, &line).map_err(|kind| kind_at(cut, kind))?;
    Ok((units, behind))
}

/// The part that a text stands for. Unless there is no memory (`Memory`), `At` comes if and only if
/// the text is not in the grammar. It has the least line that has a fault, counted from 1, and its
/// kind. The time is linear in the bytes.
pub fn read_part(alloc: Global, problem: &Problem, bytes: &[u8]) -> Result<Part, TreeFault>
    requires { length bytes.now < 2 ^ 32 - 1 }
    ensures read { IfOk result (λ part. PartReads problem.now bytes.now (Ok part)) }
    ensures known { IfOk result (KnowsPart problem.now) }
    ensures few { IfOk result (λ part. length part.tree ≤ length bytes.now) }
    ensures fault { IfErr result (TellsPart problem.now bytes.now) }
{
    let front = Cut { at: 0, line: 1 };
    let type_fault = kind_at(front, TreeKind::FileType);
    let Some((line, first)) = line_at(bytes, front) else {
        return Err(type_fault);
    };
    if !is_file_type(&line) {
        return Err(type_fault);
    }
    let (inside, second) = set_at(problem, UnitSet::empty(), b"inside", bytes, first)?;
    let (outside, third) = set_at(problem, inside, b"outside", bytes, second)?;
    let (claim, tree, tail) = read_rest(alloc, problem, bytes, third)?;
    Ok(Part::of(Node { inside, outside }, claim, tree, tail))
}
