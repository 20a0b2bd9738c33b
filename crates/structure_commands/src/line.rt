//! The lines of a text that have a meaning.
ghost use Rattle.std.specs.Prelude.{◌≡◌, ◌<◌, ◌+◌, ◌-◌, ◌^◌, ◌++◌, ◌∷◌, ℕ, List, true, IfOk};
ghost use Rattle.std.specs.Prelude.{length};
ghost use Rattle.text_lines.specs.text_rules.Line.{is_meant, head_of, heads_at, lines_of, meant_of};
ghost use Rattle.text_lines.specs.text_rules.Fault.{first_is_type};
ghost use Rattle.text_lines.specs.View.{texts};
ghost use Rattle.structure_commands.specs.Meant.{meant_from};

use cert_check::Section;
use std::alloc::{AllocError, Global};
use std::marker::Model;
use text_lines::line::{head_of, without_mark};
use text_lines::lines::{Drops, Lines};
use text_lines::section::{is_header, section_after};

/// A line with its number and its section. Contracts see it as a placed line that is no header.
#[derive(Drop)]
pub(crate) struct Line<'a> {
    number: u32,
    section: Section,
    text: &'a [u8],
}

impl<'a> Model for Line<'a> {
    ghost use Rattle.std.specs.Prelude.{false};
    ghost use Rattle.text_lines.specs.text_rules.Line.{Placed};

    ghost Value = { Placed };

    ghost view = { λ line. record {
      number = line.number;
      section = line.section;
      header =
          false;
      text = line.text.now;
    } };
}

impl<'a> Line<'a> {
    /// Its number in the text, counted from 1.
    pub(crate) fn number(&self) -> u32
        ensures { result ≡ self.now.number }
    {
        self.number
    }

    /// The section that it is in.
    pub(crate) fn section(&self) -> Section
        ensures { result ≡ self.now.section }
    {
        self.section
    }

    /// The name with which it begins.
    pub(crate) fn head(&self) -> &'a [u8]
        ensures { result.now ≡ head_of self.now.text }
    {
        head_of(self.text)
    }
}

fn is_meant(section: Section) -> bool
    ensures { result ≡ is_meant section }
{
    match section {
        Section::Preamble | Section::MeasurementUnits => false,
        Section::Defaults
        | Section::Materials
        | Section::OperatingUnits
        | Section::Rates
        | Section::Exclusions => true,
    }
}

// Keeps a line that comes after lines of the section, if it has a meaning. Gives the section of the
// next line.
fn step<'a>(
    kept: &mut Vec<Line<'a>>,
    section: Section,
    number: u32,
    text: &'a [u8],
) -> Result<Section, AllocError>
    ensures { IfOk result (λ next. (rest : List (List ℕ))
        → kept.new.items ++ meant_from next (number + 1) rest ≡ kept.old.items
        ++ meant_from section number (text.now ∷ rest)) }
{
    if text.is_empty() {
        return Ok(section);
    }
    if is_header(text) {
        return Ok(section_after(section, text));
    }
    if is_meant(section) {
        kept.push(Line {
            number,
            section,
            text,
        })?;
    }
    Ok(section)
}

// Those of the lines after the first.
fn lines_behind<'a>(alloc: Global, mut lines: Lines<'a>) -> Result<Vec<Line<'a>>, AllocError>
    requires { lines.number ≡ 2 }
    ensures { IfOk result (λ kept. kept.items ≡ meant_from Section.Preamble 2 lines.entry.lines) }
{
    let mut kept = Vec::new(alloc);
    let mut section = Section::Preamble;
    while let Some((number, text)) = lines.next() {
        section = step(&mut kept, section, number, text)?;
    }
    Ok(kept)
}

/// The lines of a text that have a meaning.
pub(crate) fn meant_lines<'a>(alloc: Global, bytes: &'a [u8]) -> Result<Vec<Line<'a>>, AllocError>
    requires short { length bytes.now < 2 ^ 32 - 1 }
    requires typed { first_is_type (lines_of bytes.now) ≡ true }
    ensures { IfOk result (λ lines. lines.items ≡ meant_of (lines_of bytes.now)) }
{
    let text = without_mark(bytes);
    let file_type = b"file_type=PNS_problem_v1".as_slice();
    match Lines::behind_type(Drops::ReturnAndBlanks, text, file_type) {
        Some(lines) => lines_behind(alloc, lines),
        None => unreachable!(),
    }
}

/// The names of the units that have a line of their own.
pub(crate) fn own_names<'a>(alloc: Global, lines: &[Line<'a>]) -> Result<Vec<&'a [u8]>, AllocError>
    ensures { IfOk result (λ names. texts names.items ≡ heads_at Section.OperatingUnits lines.now) }
{
    let mut names = Vec::new(alloc);
    for line in lines {
        if line.section == Section::OperatingUnits {
            names.push(line.head())?;
        }
    }
    Ok(names)
}
