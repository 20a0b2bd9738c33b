//! A tree text made of the lines of a ranked tree and its tail, which claims nothing.
ghost use Rattle.std.specs.Prelude.{◌≡◌, ◌≤◌, ◌<◌, ◌-◌, ◌^◌, ◌++◌, ◌∷◌, [], Ok, IfOk};
ghost use Rattle.std.specs.Prelude.{OnOk};
ghost use Rattle.std.specs.Prelude.{length};
ghost use Rattle.std.specs.Prelude.{map};
ghost use Rattle.tree_reading.specs.View.{line_of};
ghost use Rattle.tree_reading.specs.Place.{IsCut, lines_at};
ghost use Rattle.rank_check.specs.View.{mark_of};
ghost use Rattle.tree_text_laws.specs.tree_text_rules.Line.{word_text};
ghost use Rattle.tree_text_laws.specs.tree_text_rules.declared.Word.TheVariants.{Open};
ghost use Rattle.rank_check.specs.rank_rules.Opened.{begins_by, opened_by, opened, unknown_line};
ghost use Rattle.rank_check.specs.rank_rules.Opened.{line_bytes};
ghost use Rattle.rank_check.specs.rank_rules.Opened.{mark_read_by, marks_taken, so_far};
ghost use Rattle.rank_text.specs.Takes.{TakesMark};

use crate::front::{begins_by, way_of};
use crate::mark::named_line;
use rank_check::{Mark, Naming};
use std::alloc::{AllocError, Global};
use tree_reading::{Cut, Line, LineFault, line_at};
use tree_text_laws::{Problem, TreeKind};

/// A reader takes fewer bytes than these.
const TOO_MANY_BYTES: usize = 4_294_967_295;

/// A text in which the line `open` stands for each line that names a network. With it are the marks
/// that the lines of open leaves give, and the first fault of a line that names a network.
#[derive(Drop)]
pub struct OpenText {
    pub bytes: Vec<u8>,
    pub marks: Vec<Mark>,
    pub fault: Option<(u32, TreeKind)>,
}

// Appends the bytes of the line, or those of `open` in its place.
fn push_opened(bytes: &mut Vec<u8>, line: &Line, way: Option<Naming>) -> Result<(), AllocError>
    ensures { OnOk result
        (bytes.new.items ≡ bytes.old.items ++ line_bytes (opened_by way (line_of line.now))) }
{
    match way {
        Some(_) => bytes.extend_from_slice(b"open")?,
        None => bytes.extend_from_slice(line.text)?,
    }
    if line.ended {
        bytes.push(b'\n')?;
    }
    Ok(())
}

// Appends the mark that the line gives an open leaf to the marks, or gives the line's fault. After
// an earlier fault nothing is taken.
fn take_mark(
    alloc: Global,
    problem: &Problem,
    marks: &mut Vec<Mark>,
    fault: Option<(u32, TreeKind)>,
    number: u32,
    line: &Line,
    way: Option<Naming>,
) -> Result<Option<(u32, TreeKind)>, AllocError>
    ensures { IfOk result
        (TakesMark (map mark_of marks.old.items) fault number
        (mark_read_by way (begins_by (word_text Open) (line_of line.now)) (line_of line.now))
        (map mark_of marks.new.items)) }
{
    match (fault, way) {
        (Some(found), _) => Ok(Some(found)),
        (None, Some(way)) => match named_line(alloc, problem, way, line) {
            Ok(mark) => {
                marks.push(mark)?;
                Ok(None)
            }
            Err(LineFault::Kind(kind)) => Ok(Some((number, kind))),
            Err(LineFault::Memory) => Err(AllocError),
        },
        (None, None) => {
            if begins_by(b"open", line) {
                marks.push(Mark::Open)?;
            }
            Ok(None)
        }
    }
}

/// All bytes before the place, the line `unknown`, and the lines from the place on as those of a
/// tree text, with the marks of open leaves. A list of alternatives, which is distinct, has lines
/// `over`. The only error is that there is no memory; it is also
/// given for a text of 2^32 - 1 bytes or more. The time is linear in the bytes.
#[tactic(auto, using(crate::proofs::OpenBytes::text_begun, crate::proofs::OpenBytes::text_on, crate::proofs::OpenBytes::text_done))]
pub fn open_lines(
    alloc: Global,
    problem: &Problem,
    distinct: bool,
    bytes: &[u8],
    cut: Cut,
) -> Result<OpenText, AllocError>
    requires cut { IsCut bytes.now cut }
    requires few { length bytes.now < 2 ^ 32 - 1 }
    ensures lines { IfOk result
        (λ t. lines_at t.bytes.items cut ≡ unknown_line
        ∷ map (opened distinct) (lines_at bytes.now cut)) }
    ensures some { IfOk result (λ t. cut.at ≤ length t.bytes.items) }
    ensures few { IfOk result (λ t. length t.bytes.items < 2 ^ 32 - 1) }
    ensures marks { IfOk result
        (λ t. so_far (map mark_of t.marks.items) t.fault (Ok [])
        ≡ marks_taken distinct cut.line (lines_at bytes.now cut)) }
{
    let mut opened = bytes[..cut.at].to_vec(alloc)?;
    opened.extend_from_slice(b"unknown\n")?;
    let mut marks = Vec::new(alloc);
    let mut fault = None;
    let mut at = cut;
    'opening: while let Some((line, behind)) = line_at(bytes, at) {
        let way = way_of(distinct, &line);
        push_opened(&mut opened, &line, way)?;
        fault = take_mark(alloc, problem, &mut marks, fault, at.line, &line, way)?;
        at = behind;
    }
    if opened.len() >= TOO_MANY_BYTES {
        return Err(AllocError);
    }
    Ok(OpenText {
        bytes: opened,
        marks,
        fault,
    })
}
