//! A case: the call that it makes, and what it wants.

use std::alloc::{AllocError, Global};
use studio::{MemShelf, MemSink, NoWatch, Outputs, code_of, studio};

/// The room of each output in bytes, if a case says nothing of it.
const ROOM: u64 = 1_000_000;

/// The part of the text that a case looks at. The text is what is on standard output, and the lines
/// on standard error that do not begin with two blanks.
#[derive(Clone, Copy)]
pub(crate) enum Side {
    /// All of it.
    Whole,
    /// The first word of each line, each with a line feed.
    Heads,
    /// As many bytes of its front as are wanted.
    Front,
    /// As many bytes of its back as are wanted.
    Back,
    /// Not the text, but all of standard error.
    Errors,
}

/// A file of the shelf: its name and its bytes.
pub(crate) type NamedFile = (String, Vec<u8>);

/// A case without the bytes that it wants.
#[derive(Drop)]
pub(crate) struct Case<'a> {
    pub(crate) title: &'a str,
    pub(crate) words: Vec<String>,
    pub(crate) failing_reads: Vec<u64>,
    pub(crate) failing_put: Option<(u64, u64)>,
    pub(crate) failing_error_put: Option<(u64, u64)>,
    pub(crate) room: u64,
    pub(crate) status: Option<u8>,
    pub(crate) side: Option<Side>,
    pub(crate) keep: Option<&'a str>,
}

impl<'a> Case<'a> {
    /// A case that has only its title.
    pub(crate) fn new(alloc: Global, title: &'a str) -> Case<'a> {
        Case {
            title,
            words: Vec::new(alloc),
            failing_reads: Vec::new(alloc),
            failing_put: None,
            failing_error_put: None,
            room: ROOM,
            status: None,
            side: None,
            keep: None,
        }
    }

    /// Makes the call over those of the files that its words name.
    pub(crate) fn call(&self, alloc: Global, files: &[NamedFile]) -> Result<Outcome, AllocError> {
        let mut held = Vec::new(alloc);
        for (name, bytes) in files {
            if self.names(name.as_str()) {
                held.push((name.clone()?, bytes.clone()?))?;
            }
        }
        let mut shelf = MemShelf::new(held, self.failing_reads.clone()?);
        let out = MemSink::new(alloc, self.room, self.failing_put)?;
        let err = MemSink::new(alloc, self.room, self.failing_error_put)?;
        let mut outs = Outputs::new(out, err);
        let status = studio(alloc, &self.words, &mut shelf, &mut outs, NoWatch);
        Ok(Outcome {
            status: code_of(status),
            out: outs.out.bytes().to_vec(alloc)?,
            err: outs.err.bytes().to_vec(alloc)?,
        })
    }

    /// Whether the call answers with its status 1, so that the text is on standard output.
    fn judges(&self) -> bool {
        match self.words.first() {
            Some(word) => matches!(
                word.as_bytes(),
                b"check" | b"rankcheck" | b"axioms" | b"flows"
            ),
            None => false,
        }
    }

    /// Whether nothing is on an output that has to be empty with the status.
    pub(crate) fn is_placed(&self, outcome: &Outcome) -> bool {
        match outcome.status {
            0 | 13 => outcome.err.is_empty(),
            1 if self.judges() => outcome.err.is_empty(),
            4 | 5 => has_no_first_line(&outcome.err),
            7 | 8 => true,
            _ => outcome.out.is_empty(),
        }
    }

    /// Whether a word is this name.
    fn names(&self, name: &str) -> bool {
        self.words.iter().any(|word| word.as_str() == name)
    }
}

/// How a call ended, and what it put on each output.
#[derive(Drop)]
pub(crate) struct Outcome {
    pub(crate) status: u8,
    pub(crate) out: Vec<u8>,
    pub(crate) err: Vec<u8>,
}

impl Outcome {
    /// The part that is compared with so many wanted bytes.
    pub(crate) fn part(
        &self,
        alloc: Global,
        side: Side,
        wanted: usize,
    ) -> Result<Vec<u8>, AllocError> {
        let text = self.text(alloc)?;
        match side {
            Side::Whole => Ok(text),
            Side::Heads => heads_of(alloc, &text),
            Side::Front => text.get(..wanted).unwrap_or(&text).to_vec(alloc),
            Side::Back => {
                let start = text.len().saturating_sub(wanted);
                text.get(start..).unwrap_or(&text).to_vec(alloc)
            }
            Side::Errors => self.err.to_vec(alloc),
        }
    }

    /// What is on standard output, and the lines on standard error that do not begin with two
    /// blanks.
    fn text(&self, alloc: Global) -> Result<Vec<u8>, AllocError> {
        let mut text = self.out.to_vec(alloc)?;
        for line in self.err.split_inclusive(|byte| *byte == b'\n') {
            if !is_second(line) {
                text.extend_from_slice(line)?;
            }
        }
        Ok(text)
    }
}

/// Whether the line is a second line, for people.
fn is_second(line: &[u8]) -> bool {
    line.starts_with(b"  ")
}

/// Whether all lines are second lines.
fn has_no_first_line(err: &[u8]) -> bool {
    err.split_inclusive(|byte| *byte == b'\n').all(is_second)
}

fn heads_of(alloc: Global, output: &[u8]) -> Result<Vec<u8>, AllocError> {
    let mut heads = Vec::new(alloc);
    let mut in_head = true;
    for byte in output {
        if *byte == b'\n' {
            heads.push(b'\n')?;
            in_head = true;
        } else if *byte == b' ' {
            in_head = false;
        } else if in_head {
            heads.push(*byte)?;
        }
    }
    Ok(heads)
}
