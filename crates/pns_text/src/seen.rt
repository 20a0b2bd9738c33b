//! What was seen on the lines before a line, and the form of the line given that.
ghost use Rattle.std.specs.Prelude.{◌≡◌, IfOk, IfErr, None, OnOk, false};
ghost use Rattle.text_lines.specs.text_rules.Fault.{seen_none, header_fault, skipped_fault};
ghost use Rattle.text_lines.specs.View.{texts};
ghost use Rattle.pns_text.specs.Fault.{TellsKind};
ghost use Rattle.pns_text.specs.Cut.{Takes};
ghost use Rattle.pns_text.specs.View.{placed_view, seen_view};

use crate::cut::Cut;
use crate::default_line::default_fault;
use crate::exclusion_line::exclusion_kind;
use crate::fault::TextFault;
use crate::item::items_of;
use crate::material_line::material_kind;
use crate::meaning::Names;
use crate::rates_line::sides_kind;
use crate::unit_line::unit_kind;
use std::alloc::Global;
use text_lines::field::{self, has_key, key_of};
use text_lines::line::head_of;
use text_lines::name::is_among;
use text_lines::name_set::NameSet;
use text_lines::section::section_named;
use text_lines::term::sides_of;
use text_lines::{Section, TextKind};

/// A line, counted from 1, with the section that it is in or begins.
#[derive(Clone, Copy)]
pub struct Placed<'a> {
    pub number: u32,
    pub section: Section,
    pub header: bool,
    pub text: &'a [u8],
}

/// The names of headers, the keys of defaults and the names of entries so far; `unit_names` has
/// each name of a unit once.
#[derive(Drop)]
pub struct Seen<'a> {
    headers: Vec<&'a [u8]>,
    keys: Vec<&'a [u8]>,
    pub(crate) names: Names<'a>,
    exclusions: NameSet<'a>,
    unit_names: NameSet<'a>,
}

/// What was split of a line, if the line matters.
pub(crate) type Taken<'a> = Result<Option<Cut<'a>>, TextFault>;

fn header_fault(headers: &[&[u8]], name: &[u8]) -> Option<TextKind>
    ensures { result ≡ header_fault (texts headers.now) name.now }
{
    if section_named(name).is_none() {
        return Some(TextKind::UnknownSection);
    }
    if is_among(headers, name) {
        return Some(TextKind::DoubleSection);
    }
    None
}

// Takes a line that is skipped.
fn skip<'a>(number: u32, text: &[u8]) -> Taken<'a>
    ensures none { IfOk result (λ cut. cut ≡ None) }
    ensures ok { OnOk result (skipped_fault text.now ≡ None) }
    ensures fault { IfErr result (TellsKind number (skipped_fault text.now)) }
{
    if has_key(text) {
        Ok(None)
    } else {
        Err(TextFault::At {
            line: number,
            kind: TextKind::BadLine,
        })
    }
}

impl<'a> Seen<'a> {
    pub(crate) fn new(alloc: Global) -> Seen<'a>
        ensures { seen_view result ≡ seen_none }
    {
        Seen {
            headers: Vec::new(alloc),
            keys: Vec::new(alloc),
            names: Names {
                materials: NameSet::new(alloc),
                units: NameSet::new(alloc),
                rates: NameSet::new(alloc),
            },
            exclusions: NameSet::new(alloc),
            unit_names: NameSet::new(alloc),
        }
    }

    fn take_default(&mut self, number: u32, text: &'a [u8]) -> Taken<'a>
        ensures { Takes (seen_view self.old)
            (record {
              number = number;
              section = Section.Defaults;
              header = false;
              text =
                  text.now;
            }) (seen_view self.new) result }
    {
        if let Some(kind) = default_fault(&self.keys, text) {
            return Err(TextFault::At { line: number, kind });
        }
        self.keys.push(key_of(text))?;
        Ok(Some(Cut::Default))
    }

    #[tactic(auto, using(crate::proofs::NoFault::material_new))]
    fn take_material(&mut self, alloc: Global, number: u32, text: &'a [u8]) -> Taken<'a>
        ensures { Takes (seen_view self.old)
            (record {
              number = number;
              section = Section.Materials;
              header = false;
              text =
                  text.now;
            }) (seen_view self.new) result }
    {
        let name = head_of(text);
        let items = items_of(alloc, text)?;
        if let Some(kind) = material_kind(&self.names.materials, name, &items) {
            return Err(TextFault::At { line: number, kind });
        }
        self.names.materials.push(name)?;
        Ok(Some(Cut::Material(items)))
    }

    #[tactic(auto, using(crate::proofs::NoFault::unit_new))]
    fn take_unit(&mut self, alloc: Global, number: u32, text: &'a [u8]) -> Taken<'a>
        ensures { Takes (seen_view self.old)
            (record {
              number = number;
              section = Section.OperatingUnits;
              header = false;
              text =
                  text.now;
            }) (seen_view self.new) result }
    {
        let name = head_of(text);
        let items = items_of(alloc, text)?;
        if let Some(kind) = unit_kind(&self.names.units, &self.unit_names, name, &items) {
            return Err(TextFault::At { line: number, kind });
        }
        self.names.units.push(name)?;
        self.unit_names.add(name)?;
        Ok(Some(Cut::OperatingUnit(items)))
    }

    #[tactic(auto, using(crate::proofs::CutLines::sides_cut, crate::proofs::NoFault::sides_new))]
    fn take_rates(&mut self, alloc: Global, number: u32, text: &'a [u8]) -> Taken<'a>
        ensures { Takes (seen_view self.old)
            (record { number = number; section = Section.Rates; header = false; text = text.now })
            (seen_view self.new) result }
    {
        let name = head_of(text);
        let Some(sides) = sides_of(alloc, text)? else {
            return Err(TextFault::At {
                line: number,
                kind: TextKind::BadLine,
            });
        };
        let kind = sides_kind(alloc, &self.names.rates, &self.unit_names, name, &sides)?;
        if let Some(kind) = kind {
            return Err(TextFault::At { line: number, kind });
        }
        self.names.rates.push(name)?;
        self.unit_names.add(name)?;
        Ok(Some(Cut::Flows(sides)))
    }

    #[tactic(auto, using(crate::proofs::NoFault::exclusion_new))]
    fn take_exclusion(&mut self, alloc: Global, number: u32, text: &'a [u8]) -> Taken<'a>
        ensures { Takes (seen_view self.old)
            (record {
              number = number;
              section = Section.Exclusions;
              header = false;
              text =
                  text.now;
            }) (seen_view self.new) result }
    {
        let name = head_of(text);
        let members = field::items_of(alloc, text)?;
        if let Some(kind) = exclusion_kind(alloc, &self.exclusions, text, name, &members)? {
            return Err(TextFault::At { line: number, kind });
        }
        self.exclusions.push(name)?;
        Ok(Some(Cut::Exclusion(members)))
    }

    // Takes a line of the section. It gives what was split of it, if the line matters.
    fn take_entry(
        &mut self,
        alloc: Global,
        section: Section,
        number: u32,
        text: &'a [u8],
    ) -> Taken<'a>
        ensures { Takes (seen_view self.old)
            (record { number = number; section = section; header = false; text = text.now })
            (seen_view self.new) result }
    {
        match section {
            Section::Preamble => skip(number, text),
            Section::MeasurementUnits => skip(number, text),
            Section::Defaults => self.take_default(number, text),
            Section::Materials => self.take_material(alloc, number, text),
            Section::OperatingUnits => self.take_unit(alloc, number, text),
            Section::Rates => self.take_rates(alloc, number, text),
            Section::Exclusions => self.take_exclusion(alloc, number, text),
        }
    }

    /// Takes a line. It gives what was split of it, if the line matters, or its fault of form.
    pub(crate) fn take(&mut self, alloc: Global, line: &Placed<'a>) -> Taken<'a>
        ensures { Takes (seen_view self.old) (placed_view line.now) (seen_view self.new) result }
    {
        if !line.header {
            return self.take_entry(alloc, line.section, line.number, line.text);
        }
        let name = head_of(line.text);
        if let Some(kind) = header_fault(&self.headers, name) {
            return Err(TextFault::At {
                line: line.number,
                kind,
            });
        }
        self.headers.push(name)?;
        Ok(None)
    }
}
