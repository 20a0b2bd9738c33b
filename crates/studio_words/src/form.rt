//! The forms of a command, and the first word that does not fit them.
//!
//! A form is a line at the head of the command's page, as `pns solve FILE [BUDGET]`. After the
//! command it has one slot for each word. Those that may be left out are in brackets. If more words
//! like the last one may follow, it ends with `..`.

use crate::cut::without_feed;
use crate::page_on;
use pns_problem::is_name;

/// The most words of a form that ends with `..`: a plant, a tree and a hundred parts.
const MOST_WORDS: usize = 102;

/// The lines at the head of the page that are forms.
pub(crate) fn is_form(line: &[u8]) -> bool {
    line.starts_with(b"pns ")
}

/// How many words a form has room for after the command.
fn room_of(form: &[u8]) -> usize {
    let slots = form.split(|c| *c == b' ').count();
    if form.ends_with(b"..") {
        MOST_WORDS
    } else {
        slots.saturating_sub(2)
    }
}

/// The first form of the page that has room for so many words, or else the last one.
pub(crate) fn form_for(page: &[u8], count: usize) -> &[u8] {
    let mut form: &[u8] = b"";
    for line in without_feed(page).split(|c| *c == b'\n') {
        if !is_form(line) {
            return form;
        }
        form = line;
        if count <= room_of(line) {
            return form;
        }
    }
    form
}

/// What is wrong with the words of a call.
#[derive(Clone, Copy)]
pub(crate) enum Slip<'a> {
    /// There is no word for the slot.
    Missing(&'a [u8]),
    /// The word comes after the last slot.
    TooMany(&'a str),
    /// The word does not fit its slot.
    Misfit(Slot, &'a str),
    /// A second word is standard input.
    SecondInput,
}

/// A slot of a form whose words are judged.
#[derive(Clone, Copy, Debug, PartialEq, Eq)]
pub(crate) enum Slot {
    File,
    Units,
    UnitCount,
    Budget,
    Count,
    Ranked,
    Number,
    Years,
    Kind,
    Topic,
    /// Any word will do.
    Other,
}

// The slot of this name. UNITS is a number if a plant is made up, and names otherwise.
fn slot_named(name: &[u8], is_made: bool) -> Slot {
    match name {
        b"FILE" | b"TREE" | b"RANK" | b"PART" | b"SCRIPT" | b"PLAN" | b"TEXT" => Slot::File,
        b"UNITS" => {
            if is_made {
                Slot::UnitCount
            } else {
                Slot::Units
            }
        }
        b"BUDGET" => Slot::Budget,
        b"COUNT" => Slot::Count,
        b"N" => Slot::Ranked,
        b"NUMBER" => Slot::Number,
        b"YEARS" => Slot::Years,
        b"KIND" => Slot::Kind,
        b"TOPIC" => Slot::Topic,
        _ => Slot::Other,
    }
}

impl Slot {
    /// Its name in the form.
    pub(crate) fn name(self) -> &'static str {
        match self {
            Slot::File => "FILE",
            Slot::Units | Slot::UnitCount => "UNITS",
            Slot::Budget => "BUDGET",
            Slot::Count => "COUNT",
            Slot::Ranked => "N",
            Slot::Number => "NUMBER",
            Slot::Years => "YEARS",
            Slot::Kind => "KIND",
            Slot::Topic => "TOPIC",
            Slot::Other => "WORD",
        }
    }

    /// The least and the greatest number that it takes, of a slot of numbers.
    pub(crate) fn range(self) -> Option<(u64, u64)> {
        match self {
            Slot::UnitCount => Some((1, 128)),
            Slot::Budget => Some((1, 1_000_000)),
            Slot::Count => Some((1, 1_000_000_000)),
            Slot::Ranked => Some((1, 1_000)),
            Slot::Number => Some((0, u64::MAX)),
            Slot::Years => Some((1, 100)),
            _ => None,
        }
    }

    fn takes(self, word: &str) -> bool {
        if let Some((least, most)) = self.range() {
            return is_within(word, least, most) || self == Slot::Budget && is_short_budget(word);
        }
        match self {
            Slot::File => !word.is_empty(),
            Slot::Units => names_slip(word).is_none(),
            Slot::Kind => word == "price" || word == "fix" || word == "proportional",
            Slot::Topic => page_on(word).is_some(),
            _ => true,
        }
    }
}

// Whether the word is a whole number in the range, without a zero in front.
fn is_within(word: &str, least: u64, most: u64) -> bool {
    let is_numeral = word.bytes().all(|c| c.is_ascii_digit());
    if !is_numeral || word.len() > 1 && word.starts_with('0') {
        return false;
    }
    match word.parse::<u64>() {
        Ok(number) => least <= number && number <= most,
        Err(_) => false,
    }
}

// Whether the word is a budget in thousands or in millions.
fn is_short_budget(word: &str) -> bool {
    match (word.strip_suffix('k'), word.strip_suffix('M')) {
        (Some(thousands), _) => is_within(thousands, 1, 1_000),
        (None, Some(millions)) => is_within(millions, 1, 1),
        (None, None) => false,
    }
}

/// What is wrong with names that commas separate.
#[derive(Clone, Copy)]
pub(crate) enum NamesSlip<'a> {
    /// Nothing is before a comma, or after one.
    EmptyPart,
    /// A blank is in them.
    Blank,
    /// A part is no name.
    NoName(&'a str),
    /// A name comes twice.
    Double(&'a str),
}

/// The most names that are looked at.
const MOST_NAMES: usize = 1_000;

/// What is wrong with the names of UNITS, if anything is.
pub(crate) fn names_slip(word: &str) -> Option<NamesSlip<'_>> {
    if word == "-" {
        return None;
    }
    let mut seen = 0usize;
    for name in word.split(',').take(MOST_NAMES) {
        if name.is_empty() {
            return Some(NamesSlip::EmptyPart);
        }
        if name.contains(' ') {
            return Some(NamesSlip::Blank);
        }
        if !is_name(name) {
            return Some(NamesSlip::NoName(name));
        }
        if word.split(',').take(seen).any(|other| other == name) {
            return Some(NamesSlip::Double(name));
        }
        seen = seen.saturating_add(1);
    }
    None
}

// The name of a slot without its brackets.
fn without_brackets(slot: &[u8]) -> &[u8] {
    let slot = slot.strip_prefix(b"[").unwrap_or(slot);
    slot.strip_suffix(b"]").unwrap_or(slot)
}

// The slot at a place of the form, counted from 0 after the command. If the form ends with `..`,
// the last one repeats.
fn slot_at(form: &[u8], at: usize) -> Option<&[u8]> {
    let place = at.saturating_add(2);
    match form.split(|c| *c == b' ').nth(place) {
        Some(b"..") | None if form.ends_with(b"..") && at < MOST_WORDS => Some(b"PART"),
        found => found,
    }
}

/// The first word that does not fit the form, or the first slot that has none. There is no answer
/// if each fits.
pub(crate) fn slip_of<'a>(form: &'a [u8], is_made: bool, words: &'a [String]) -> Option<Slip<'a>> {
    let mut has_input = false;
    for at in 0..words.len() {
        let word = words[at].as_str();
        let Some(name) = slot_at(form, at) else {
            return Some(Slip::TooMany(word));
        };
        let slot = slot_named(without_brackets(name), is_made);
        if slot == Slot::File && word == "-" {
            if has_input {
                return Some(Slip::SecondInput);
            }
            has_input = true;
        } else if !slot.takes(word) {
            return Some(Slip::Misfit(slot, word));
        }
    }
    let next = slot_at(form, words.len())?;
    if next.starts_with(b"[") || form.ends_with(b"..") {
        None
    } else {
        Some(Slip::Missing(without_brackets(next)))
    }
}
