//! What follows the line `usage`.

use crate::cut::without_feed;
use crate::form::{NamesSlip, Slip, Slot, form_for, is_form, names_slip, slip_of};
use crate::nearest::Nearest;
use crate::notes::{Notes, Piece};
use crate::{command_page_on, overview_text};
use std::alloc::Global;
use studio_rules::TOPIC_PAGES;

/// The commands, in the order of the overview.
const COMMANDS: [&str; 28] = [
    "max",
    "lint",
    "axioms",
    "list",
    "flows",
    "solve",
    "show",
    "check",
    "report",
    "json",
    "table",
    "graph",
    "rank",
    "alternatives",
    "rankcheck",
    "stable",
    "edit",
    "undo",
    "migrate",
    "periods",
    "expand",
    "part",
    "split",
    "merge",
    "make",
    "trial",
    "help",
    "version",
];

// Adds the forms of the command whose page it is.
fn add_forms(notes: &mut Notes, page: &[u8]) {
    for line in without_feed(page).split(|c| *c == b'\n') {
        if !is_form(line) {
            return;
        }
        notes.add(&[Piece::Bytes(line)]);
    }
}

fn nearest_command(alloc: Global, word: &str) -> Option<&'static str> {
    let mut nearest = Nearest::to(word);
    for command in COMMANDS {
        nearest.offer(alloc, command);
    }
    nearest.word()
}

fn no_command(alloc: Global, word: &str) -> Notes {
    let mut notes = Notes::new(alloc);
    notes.add(&[Piece::Own("no command "), Piece::Foreign(word.as_bytes())]);
    let nearest = nearest_command(alloc, word);
    match nearest.and_then(|command| command_page_on(command)) {
        Some(page) => {
            notes.add(&[Piece::Own("did you mean:")]);
            add_forms(&mut notes, page);
        }
        None => notes.add(&[Piece::Own("pns help lists the commands")]),
    }
    notes
}

// Adds what is wrong with the word of a slot that does not take it.
fn add_misfit(alloc: Global, notes: &mut Notes, slot: Slot, word: &str) {
    let own = Piece::Own(slot.name());
    let foreign = Piece::Foreign(word.as_bytes());
    if let Some((least, most)) = slot.range() {
        let is = Piece::Own(" is a whole number from ");
        let (least, most) = (Piece::Number(least), Piece::Number(most));
        notes.add(&[
            own,
            is,
            least,
            Piece::Own(" to "),
            most,
            Piece::Own(", not "),
            foreign,
        ]);
        return;
    }
    match slot {
        Slot::File => notes.add(&[Piece::Own("a file has a name, or is - for standard input")]),
        Slot::Units => add_names_slip(notes, word),
        Slot::Kind => notes.add(&[
            Piece::Own("KIND is price, fix or proportional, not "),
            foreign,
        ]),
        Slot::Topic => add_topic_slip(alloc, notes, word),
        _ => notes.add(&[own, Piece::Own(" is not "), foreign]),
    }
}

fn add_names_slip(notes: &mut Notes, word: &str) {
    let Some(slip) = names_slip(word) else {
        return;
    };
    let alone = Piece::Own("UNITS is - or names separated by commas alone: ");
    let whole = Piece::Foreign(word.as_bytes());
    match slip {
        NamesSlip::EmptyPart => notes.add(&[alone, whole, Piece::Own(" has an empty part")]),
        NamesSlip::Blank => notes.add(&[alone, whole, Piece::Own(" has a blank")]),
        NamesSlip::NoName(name) => {
            let name = Piece::Foreign(name.as_bytes());
            notes.add(&[alone, name, Piece::Own(" is no name")]);
        }
        NamesSlip::Double(name) => {
            let name = Piece::Foreign(name.as_bytes());
            notes.add(&[name, Piece::Own(" is listed twice")]);
        }
    }
}

fn add_topic_slip(alloc: Global, notes: &mut Notes, word: &str) {
    let what = Piece::Own("TOPIC is a command, plant, status or the KIND of a fault, not ");
    notes.add(&[what, Piece::Foreign(word.as_bytes())]);
    let mut nearest = Nearest::to(word);
    for command in COMMANDS {
        nearest.offer(alloc, command);
    }
    nearest.offer(alloc, "status");
    for (topic, _) in &TOPIC_PAGES {
        if let Ok(topic) = str::from_utf8(topic) {
            nearest.offer(alloc, topic);
        }
    }
    if let Some(topic) = nearest.word() {
        let topic = Piece::Own(topic);
        notes.add(&[Piece::Own("did you mean: pns help "), topic]);
    }
}

// Adds what is wrong with the words.
fn add_slip(alloc: Global, notes: &mut Notes, slip: Slip<'_>) {
    match slip {
        Slip::Missing(name) => {
            notes.add(&[Piece::Own("a word is missing: "), Piece::Bytes(name)]);
        }
        Slip::TooMany(word) => {
            notes.add(&[
                Piece::Own("a word too many: "),
                Piece::Foreign(word.as_bytes()),
            ]);
        }
        Slip::SecondInput => {
            notes.add(&[Piece::Own("- is given twice: standard input is read only once")]);
        }
        Slip::Misfit(slot, word) => add_misfit(alloc, notes, slot, word),
    }
}

fn no_form(alloc: Global, command: &str, page: &[u8], words: &[String]) -> Notes {
    let mut notes = Notes::new(alloc);
    add_forms(&mut notes, page);
    let is_made = command == "make" || command == "trial";
    let form = form_for(page, words.len());
    if let Some(slip) = slip_of(form, is_made, words) {
        add_slip(alloc, &mut notes, slip);
    }
    notes
}

/// What follows `usage`, for words that have no form. Without words it is the overview. If the
/// first word is no command, it is the nearest one. Else it is the forms of the command, and the
/// first word that does not fit.
pub fn usage(alloc: Global, words: &[String]) -> Notes {
    match words {
        [] => {
            let mut notes = Notes::new(alloc);
            notes.add_text(overview_text());
            notes
        }
        [word, rest @ ..] => match command_page_on(word.as_str()) {
            Some(page) => no_form(alloc, word.as_str(), page, rest),
            None => no_command(alloc, word.as_str()),
        },
    }
}
