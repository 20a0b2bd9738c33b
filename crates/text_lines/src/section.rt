//! Headers and the sections that they begin.
ghost use Rattle.std.specs.Prelude.{◌≡◌};
ghost use Rattle.edit_rules.specs.text_rules.Line.{is_header, section_named, section_after};

use crate::line::{has_colon, head_of, tail_of};
use crate::name::is_name;
use crate::words::looked_up;
use edit_rules::Section;

/// Whether the line is a header: one name and a colon with nothing after it.
pub fn is_header(text: &[u8]) -> bool
    ensures { result ≡ is_header text.now }
{
    has_colon(text) && is_name(head_of(text)) && tail_of(text).is_empty()
}

const SECTIONS: [(&[u8], Section); 6] = [
    (b"measurement_units", Section::MeasurementUnits),
    (b"defaults", Section::Defaults),
    (b"materials", Section::Materials),
    (b"operating_units", Section::OperatingUnits),
    (b"material_to_operating_unit_flow_rates", Section::Rates),
    (b"mutual_exclusions", Section::Exclusions),
];

/// The section of this name.
pub fn section_named(name: &[u8]) -> Option<Section>
    ensures { result ≡ section_named name.now }
{
    looked_up(&SECTIONS, name)
}

/// The section that a line is in or begins, if the given section was before it.
pub fn section_after(section: Section, text: &[u8]) -> Section
    ensures { result ≡ section_after section text.now }
{
    if is_header(text) {
        section_named(head_of(text)).unwrap_or(section)
    } else {
        section
    }
}
