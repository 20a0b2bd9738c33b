//! The walk over the lines of a text, which judges their form and keeps those that have a meaning.
ghost use Rattle.std.specs.Prelude.{◌≡◌, ◌<◌, ◌+◌, ◌-◌, ◌∷◌, ◌^◌, ℕ, List, IfOk, IfErr};
ghost use Rattle.std.specs.Prelude.{OnOk};
ghost use Rattle.std.specs.Prelude.{length};
ghost use Rattle.text_lines.specs.text_rules.Fault.{line_fault};
ghost use Rattle.text_lines.specs.text_rules.Value.{meaning_at, read_text};
ghost use Rattle.text_lines.specs.Tells.{Tells};
ghost use Rattle.pns_text.specs.Cut.{Keeps};
ghost use Rattle.pns_text.specs.Fault.{TellsKind};
ghost use Rattle.pns_text.specs.View.{placed_view, walk_view};
ghost use Rattle.pns_text.specs.Walk.{placed_at, kept_after, IsPast, walk_start, read_on};
ghost use Rattle.pns_text.specs.Walk.{HasNames};

use crate::cut::{Cut, Kept};
use crate::fault::TextFault;
use crate::seen::{Placed, Seen};
use std::alloc::{AllocError, Global};
use text_lines::line::{head_of, without_mark};
use text_lines::lines::{Drops, Lines};
use text_lines::section::{is_header, section_after};
use text_lines::{Section, TextKind};

/// What was seen, the lines that matter so far, and the section of the next line.
#[derive(Drop)]
pub struct Walk<'a> {
    pub seen: Seen<'a>,
    pub kept: Vec<Kept<'a>>,
    pub section: Section,
}

impl<'a> Walk<'a> {
    // Takes a line that is not empty.
    fn take_line(&mut self, alloc: Global, line: &Placed<'a>) -> Result<(), TextFault>
        ensures ok { OnOk result
            (IsPast (walk_view self.old) (placed_view line.now) (walk_view self.new)) }
        ensures fault { IfErr result
            (TellsKind line.now.number
            (line_fault (walk_view self.old).seen (placed_view line.now))) }
    {
        let cut = self.seen.take(alloc, line)?;
        keep(&mut self.kept, line, cut)?;
        self.section = line.section;
        Ok(())
    }

    // Takes the line of this number; an empty one is skipped.
    #[tactic(auto, using(crate::proofs::Reading::read_past_empty, crate::proofs::Reading::read_past, crate::proofs::Reading::read_faulty, crate::proofs::SeenNames::names_past, crate::proofs::SeenNames::names_stay))]
    fn step(&mut self, alloc: Global, number: u32, text: &'a [u8]) -> Result<(), TextFault>
        requires { HasNames (walk_view self.old) number }
        ensures ok { OnOk result
            ((texts : List (List ℕ))
            → read_on (walk_view self.new) (number + 1) texts
            ≡ read_on (walk_view self.old) number (text.now ∷ texts)) }
        ensures names { OnOk result (HasNames (walk_view self.new) (number + 1)) }
        ensures fault { IfErr result
            (λ fault. (texts : List (List ℕ))
            → Tells (read_on (walk_view self.old) number (text.now ∷ texts)) fault) }
    {
        if text.is_empty() {
            return Ok(());
        }
        self.take_line(alloc, &placed_at(number, self.section, text))
    }
}

// The line of this number, after lines of the section.
fn placed_at<'a>(number: u32, section: Section, text: &'a [u8]) -> Placed<'a>
    ensures { placed_view result ≡ placed_at number section text.now }
{
    let header = is_header(text);
    Placed {
        number,
        section: if header {
            section_after(section, text)
        } else {
            section
        },
        header,
        text,
    }
}

// Keeps a line that matters, with what was split of it.
#[tactic(auto, using(crate::proofs::CutLines::line_kept, crate::proofs::CutLines::none_kept))]
fn keep<'a>(
    kept: &mut Vec<Kept<'a>>,
    line: &Placed<'a>,
    cut: Option<Cut<'a>>,
) -> Result<(), AllocError>
    requires { Keeps (placed_view line.now) cut }
    ensures { OnOk result
        (kept.new.items ≡ kept_after kept.old.items (placed_view line.now)) }
{
    if let Some(cut) = cut {
        kept.push(Kept {
            number: line.number,
            text: line.text,
            head: head_of(line.text),
            cut,
        })?;
    }
    Ok(())
}

// Takes all lines after the first, and also gives the number of the line after them.
fn walk_rest<'a>(alloc: Global, mut lines: Lines<'a>) -> Result<(Walk<'a>, u32), TextFault>
    requires { lines.number ≡ 2 }
    ensures ok { IfOk result
        (λ w. read_on walk_start 2 lines.entry.lines ≡ meaning_at w.0.kept.items w.1) }
    ensures names { IfOk result (λ w. HasNames (walk_view w.0) w.1) }
    ensures fault { IfErr result (Tells (read_on walk_start 2 lines.entry.lines)) }
{
    let mut walk = Walk {
        seen: Seen::new(alloc),
        kept: Vec::new(alloc),
        section: Section::Preamble,
    };
    while let Some((number, text)) = lines.next() {
        walk.step(alloc, number, text)?;
    }
    Ok((walk, lines.number()))
}

/// The lines of the text that have a meaning, each split once, and the names of materials, units
/// and lines of rates, with the number of the line after the last; or the first fault of form.
#[tactic(auto, using(crate::proofs::Reading::read_typed, crate::proofs::Reading::read_untyped))]
pub(crate) fn walk_text<'a>(alloc: Global, bytes: &'a [u8]) -> Result<(Walk<'a>, u32), TextFault>
    requires { length bytes.now < 2 ^ 32 - 1 }
    ensures ok { IfOk result (λ w. read_text bytes.now ≡ meaning_at w.0.kept.items w.1) }
    ensures names { IfOk result (λ w. HasNames (walk_view w.0) w.1) }
    ensures fault { IfErr result (Tells (read_text bytes.now)) }
{
    let text = without_mark(bytes);
    let file_type = b"file_type=PNS_problem_v1".as_slice();
    match Lines::behind_type(Drops::ReturnAndBlanks, text, file_type) {
        Some(lines) => walk_rest(alloc, lines),
        None => Err(TextFault::At {
            line: 1,
            kind: TextKind::FileType,
        }),
    }
}
