//! The units of measure that the text of a plant names.
ghost use Rattle.std.specs.Prelude.{◌≡◌, ◌<◌, ◌-◌, ◌^◌, ◌++◌, true, Some, IfOk, OnOk, length};
ghost use Rattle.std.specs.Prelude.{string_bytes};
ghost use Rattle.std.specs.List.{list_all};
ghost use Rattle.text_lines.specs.text_rules.Line.{lines_of};
ghost use Rattle.text_lines.specs.text_rules.Fault.{first_is_type};
ghost use Rattle.report_amounts.specs.report_rules.Measures.{is_printable, is_measure};
ghost use Rattle.report_amounts.specs.report_rules.Measures.{measure_from};
ghost use Rattle.report_amounts.specs.report_rules.Measures.{names_measures, measure_among};
ghost use Rattle.report_amounts.specs.report_rules.Measures.{measure_of};
ghost use Rattle.report_amounts.specs.report_rules.Measures.{measures_of, with_measure, for_one};
ghost use Rattle.report_amounts.specs.report_rules.Measures.{price_measure};
ghost use Rattle.report_amounts.specs.report_rules.Measures.{time_words};

use std::alloc::{AllocError, Global};
use std::marker::Model;
use std::str;
use text_lines::Section;
use text_lines::field::{key_of, value_of};
use text_lines::line::without_mark;
use text_lines::lines::{Drops, Lines};
use text_lines::section::section_after;

/// A unit of measure, if the text names one.
#[derive(Drop)]
pub struct MeasureUnit {
    text: Option<String>,
}

impl Model for MeasureUnit {
    ghost use Rattle.std.specs.Prelude.{ℕ, List, Option, option_map, string_bytes};

    ghost Value = { Option (List ℕ) };

    ghost view = { λ m. option_map string_bytes m.text };
}

fn is_printable(byte: u8) -> bool
    ensures { result ≡ is_printable byte }
{
    32 <= byte && byte <= 126
}

fn all_printable(value: &[u8]) -> bool
    ensures { result ≡ list_all is_printable value.now }
{
    value.iter().all(|c| is_printable(*c))
}

fn is_measure(value: &[u8]) -> bool
    ensures { result ≡ is_measure value.now }
{
    !value.is_empty() && value.len() <= 32 && all_printable(value)
}

/// The value as a string: what is printable is ASCII, and so UTF-8.
#[tactic(auto, using(crate::proofs::Printable::measure_utf8))]
fn printable(alloc: Global, value: &[u8]) -> Result<String, AllocError>
    requires { is_measure value.now ≡ true }
    ensures { IfOk result (λ text. string_bytes text ≡ value.now) }
{
    match str::from_utf8(value) {
        Ok(text) => String::from_str(alloc, text),
        Err(_) => unreachable!(),
    }
}

/// The value as a unit of measure, if it is one.
fn measure_from(alloc: Global, value: &[u8]) -> Result<MeasureUnit, AllocError>
    ensures { IfOk result (λ measure. measure ≡ measure_from value.now) }
{
    if is_measure(value) {
        let text = printable(alloc, value)?;
        Ok(MeasureUnit { text: Some(text) })
    } else {
        Ok(MeasureUnit { text: None })
    }
}

/// Whether the lines of the section name units of measure.
fn names_measures(section: Section) -> bool
    ensures { result ≡ names_measures section }
{
    match section {
        Section::Preamble | Section::MeasurementUnits => true,
        Section::Defaults
        | Section::Materials
        | Section::OperatingUnits
        | Section::Rates
        | Section::Exclusions => false,
    }
}

/// What the first of the lines that has the key names.
fn measure_among(alloc: Global, mut lines: Lines<'_>, key: &[u8]) -> Result<MeasureUnit, AllocError>
    ensures { IfOk result
        (λ measure. measure ≡ measure_among key.now Section.Preamble lines.entry.lines) }
{
    let mut section = Section::Preamble;
    'looking: while let Some((_, line)) = lines.next() {
        section = section_after(section, line);
        if names_measures(section) && key_of(line) == key {
            return measure_from(alloc, value_of(line));
        }
    }
    Ok(MeasureUnit { text: None })
}

/// What the text names with the key.
fn measure_of(alloc: Global, bytes: &[u8], key: &[u8]) -> Result<MeasureUnit, AllocError>
    requires short { length bytes.now < 2 ^ 32 - 1 }
    requires typed { first_is_type (lines_of bytes.now) ≡ true }
    ensures { IfOk result (λ measure. measure ≡ measure_of key.now bytes.now) }
{
    let text = without_mark(bytes);
    let file_type = b"file_type=PNS_problem_v1".as_slice();
    match Lines::behind_type(Drops::ReturnAndBlanks, text, file_type) {
        Some(lines) => measure_among(alloc, lines, key),
        None => unreachable!(),
    }
}

fn divided(alloc: Global, money: &str, mass: &str) -> Result<String, AllocError>
    ensures { IfOk result
        (λ text. string_bytes text ≡ for_one money.now (Some mass.now)) }
{
    let mut text = String::from_str(alloc, money)?;
    text.push_str("/")?;
    text.push_str(mass)?;
    Ok(text)
}

fn for_one(alloc: Global, money: &str, mass: &MeasureUnit) -> Result<String, AllocError>
    ensures { IfOk result (λ text. string_bytes text ≡ for_one money.now mass.now) }
{
    match &mass.text {
        Some(mass) => divided(alloc, money, mass.as_str()),
        None => String::from_str(alloc, money),
    }
}

/// That of a price: of money, for one of what flows.
fn price_measure(
    alloc: Global,
    money: &MeasureUnit,
    mass: &MeasureUnit,
) -> Result<MeasureUnit, AllocError>
    ensures { IfOk result (λ measure. measure ≡ price_measure money.now mass.now) }
{
    match &money.text {
        Some(money) => {
            let text = for_one(alloc, money.as_str(), mass)?;
            Ok(MeasureUnit { text: Some(text) })
        }
        None => Ok(MeasureUnit { text: None }),
    }
}

fn push_behind(text: &mut String, words: &str, measure: &str) -> Result<(), AllocError>
    ensures { OnOk result
        (string_bytes text.new
        ≡ string_bytes text.old ++ with_measure (Some measure.now) words.now) }
{
    text.push_str(words)?;
    text.push_str(" [")?;
    text.push_str(measure)?;
    text.push_str("]")?;
    Ok(())
}

fn push_one(text: &mut String, measure: &str) -> Result<(), AllocError>
    ensures { OnOk result
        (string_bytes text.new ≡ string_bytes text.old ++ time_words (Some measure.now)) }
{
    text.push_str("1 ")?;
    text.push_str(measure)?;
    Ok(())
}

impl MeasureUnit {
    /// Appends the words, and after them the unit of measure if there is one.
    pub(crate) fn push_with(&self, text: &mut String, words: &str) -> Result<(), AllocError>
        ensures { OnOk result
            (string_bytes text.new ≡ string_bytes text.old ++ with_measure self.now words.now) }
    {
        match &self.text {
            Some(measure) => push_behind(text, words, measure.as_str()),
            None => text.push_str(words),
        }
    }

    /// Appends one of the unit of time, or `one year` if there is none.
    pub(crate) fn push_time(&self, text: &mut String) -> Result<(), AllocError>
        ensures { OnOk result
            (string_bytes text.new ≡ string_bytes text.old ++ time_words self.now) }
    {
        match &self.text {
            Some(measure) => push_one(text, measure.as_str()),
            None => text.push_str("one year"),
        }
    }
}

/// The units of measure of a plant, for the headings of its reports.
#[derive(Drop)]
pub struct Measures {
    money: MeasureUnit,
    mass: MeasureUnit,
    time: MeasureUnit,
}

impl Model for Measures {
    ghost use Rattle.report_amounts.specs.report_rules.Measures as rules;

    ghost Value = { rules.Measures };

    ghost view = { λ m. record { money = m.money; mass = m.mass; time = m.time } };
}

impl Measures {
    /// Those that the text names.
    pub fn of(alloc: Global, bytes: &[u8]) -> Result<Measures, AllocError>
        requires short { length bytes.now < 2 ^ 32 - 1 }
        requires typed { first_is_type (lines_of bytes.now) ≡ true }
        ensures { IfOk result (λ measures. measures ≡ measures_of bytes.now) }
    {
        let money = measure_of(alloc, bytes, b"money_unit")?;
        let mass = measure_of(alloc, bytes, b"mass_unit")?;
        let time = measure_of(alloc, bytes, b"time_unit")?;
        Ok(Measures { money, mass, time })
    }

    pub(crate) fn money(&self) -> &MeasureUnit
        ensures { result.now ≡ self.now.money }
    {
        &self.money
    }

    /// That of what flows.
    pub(crate) fn mass(&self) -> &MeasureUnit
        ensures { result.now ≡ self.now.mass }
    {
        &self.mass
    }

    pub(crate) fn time(&self) -> &MeasureUnit
        ensures { result.now ≡ self.now.time }
    {
        &self.time
    }

    /// That of a price.
    pub(crate) fn price(&self, alloc: Global) -> Result<MeasureUnit, AllocError>
        ensures { IfOk result
            (λ measure. measure ≡ price_measure self.now.money self.now.mass) }
    {
        price_measure(alloc, &self.money, &self.mass)
    }
}
