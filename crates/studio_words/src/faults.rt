//! What follows the line of a fault of a file.

use crate::cut::{has, line_at, without_feed};
use crate::notes::{Notes, Piece};
use crate::page_on;
use std::alloc::Global;

/// A text that a command reads.
#[derive(Clone, Copy, Debug, PartialEq, Eq)]
pub enum Format {
    Plant,
    Tree,
    Rank,
    Part,
    Script,
    Plan,
    Ranges,
}

impl Format {
    fn noun(self) -> &'static str {
        match self {
            Format::Plant => "plant",
            Format::Tree => "tree",
            Format::Rank => "ranking",
            Format::Part => "part",
            Format::Script => "script",
            Format::Plan => "plan",
            Format::Ranges => "table",
        }
    }

    /// The word for such a file in the form of a command.
    fn word(self) -> &'static str {
        match self {
            Format::Plant => "FILE",
            Format::Tree => "TREE",
            Format::Rank => "RANK",
            Format::Part => "PART",
            Format::Script => "SCRIPT",
            Format::Plan => "PLAN",
            Format::Ranges => "TREE",
        }
    }

    /// The name in the first line.
    fn version(self) -> &'static str {
        match self {
            Format::Plant => "PNS_problem_v1",
            Format::Tree => "PNS_tree_v1",
            Format::Rank => "PNS_rank_v1",
            Format::Part => "PNS_part_v1",
            Format::Script => "PNS_edits_v1",
            Format::Plan => "PNS_plan_v1",
            Format::Ranges => "kind name from now to",
        }
    }

    /// The format that the first line of the text names.
    fn of_text(text: &[u8]) -> Option<Format> {
        let line = line_at(text, 1)?;
        match line.strip_prefix(b"file_type=")? {
            b"PNS_problem_v1" => Some(Format::Plant),
            b"PNS_tree_v1" => Some(Format::Tree),
            b"PNS_rank_v1" => Some(Format::Rank),
            b"PNS_part_v1" => Some(Format::Part),
            b"PNS_edits_v1" => Some(Format::Script),
            b"PNS_plan_v1" => Some(Format::Plan),
            _ => None,
        }
    }

    /// Whether a search printed it.
    fn is_printed(self) -> bool {
        match self {
            Format::Tree | Format::Rank | Format::Part | Format::Ranges => true,
            Format::Plant | Format::Script | Format::Plan => false,
        }
    }
}

// A line of an example: it begins with blanks.
fn is_example(line: &[u8]) -> bool {
    line.starts_with(b"  ")
}

// Which block of the page speaks of the format, counted from 0. A block is some lines and their
// examples. It is the first block unless a later one names the format in its first line.
fn block_for(page: &[u8], format: Format) -> u32 {
    let mut block = 0u32;
    let mut was_example = false;
    for line in without_feed(page).split(|c| *c == b'\n') {
        if was_example && !is_example(line) {
            block = block.saturating_add(1);
            if has(line, format.noun().as_bytes()) {
                return block;
            }
        }
        was_example = is_example(line);
    }
    0
}

// Adds the first sentence of the page.
fn add_sentence(notes: &mut Notes, page: &[u8]) {
    for line in without_feed(page).split(|c| *c == b'\n') {
        notes.add(&[Piece::Bytes(line)]);
        if line.ends_with(b".") {
            return;
        }
    }
}

// What the example of a fault has to have for the line at fault: an arrow, if both the line and a
// fault of the page have one.
fn sign_for(page: &[u8], line: &[u8]) -> &'static [u8] {
    if !has(line, b"=>") {
        return b"";
    }
    for example in without_feed(page).split(|c| *c == b'\n') {
        if example.starts_with(b"  Fault") && has(example, b"=>") {
            return b"=>";
        }
    }
    b""
}

// Adds the block of the page: its lines, and the first of its faults with this sign, with its cure.
fn add_block(notes: &mut Notes, page: &[u8], wanted: u32, sign: &[u8]) {
    let mut block = 0u32;
    let mut was_example = false;
    let mut is_wanted = true;
    for line in without_feed(page).split(|c| *c == b'\n') {
        if was_example && !is_example(line) {
            block = block.saturating_add(1);
        }
        was_example = is_example(line);
        if line.starts_with(b"  Fault") {
            is_wanted = has(line, sign);
        }
        if block == wanted && is_wanted {
            notes.add(&[Piece::Bytes(line)]);
            if line.starts_with(b"  Cure") {
                return;
            }
        }
    }
}

// Adds what the page on the kind says of such a text, and one fault like that of the line, with its
// cure.
fn add_page(notes: &mut Notes, page: &[u8], format: Format, line: &[u8]) {
    let block = block_for(page, format);
    if block != 0 {
        add_sentence(notes, page);
    }
    add_block(notes, page, block, sign_for(page, line));
}

fn add_line(notes: &mut Notes, text: &[u8], number: u32) {
    let place = u64::from(number);
    match line_at(text, number) {
        Some(line) => notes.add(&[
            Piece::Own("line "),
            Piece::Number(place),
            Piece::Own(": "),
            Piece::Foreign(line),
        ]),
        None => notes.add(&[
            Piece::Own("line "),
            Piece::Number(place),
            Piece::Own(" is after the last line"),
        ]),
    }
}

// Says so if a text of another format was given, and gives whether it did.
fn add_exchanged(notes: &mut Notes, text: &[u8], wanted: Format) -> bool {
    let Some(found) = Format::of_text(text) else {
        return false;
    };
    notes.add(&[
        Piece::Own("this is a "),
        Piece::Own(found.noun()),
        Piece::Own(" ("),
        Piece::Own(found.version()),
        Piece::Own("); "),
        Piece::Own(wanted.word()),
        Piece::Own(" has to be a "),
        Piece::Own(wanted.noun()),
    ]);
    found != wanted
}

/// A text that was read, and what it has to be.
#[derive(Clone, Copy, Debug, PartialEq, Eq)]
pub struct Source<'a> {
    pub text: &'a [u8],
    pub format: Format,
}

/// What follows the line of a fault: the line as it is in the text, what the kind means, and a
/// fault of that kind with its cure. Or that the text is of another format.
pub fn fault(alloc: Global, source: Source<'_>, number: u32, kind: &str) -> Notes {
    let mut notes = Notes::new(alloc);
    add_line(&mut notes, source.text, number);
    if kind == "FileType" && add_exchanged(&mut notes, source.text, source.format) {
        return notes;
    }
    let Some(page) = page_on(kind) else {
        return notes;
    };
    if kind == "UnknownName" && source.format.is_printed() {
        add_sentence(&mut notes, page);
        notes.add(&[Piece::Own("does it belong to another plant?")]);
    } else {
        let line = line_at(source.text, number).unwrap_or(b"");
        add_page(&mut notes, page, source.format, line);
    }
    notes
}
