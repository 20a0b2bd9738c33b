//! The lines that follow the first line of a refusal.
ghost use Rattle.std.specs.Prelude.{◌≡◌, ◌≤◌, [], length, OnOk, IfOk};
ghost use Rattle.studio_rules.specs.Seconds.{IsSecond, AreSeconds};

use crate::cut::without_feed;
use std::alloc::{AllocError, Global};
use std::marker::Model;

/// The most lines of one refusal.
const MOST_LINES: u32 = 8;

/// The most bytes of a word, or of a line of a file, that are shown.
const MOST_BYTES: usize = 200;

/// A piece of a line.
#[derive(Clone, Copy, Debug, PartialEq, Eq)]
pub enum Piece<'a> {
    /// Words of the program.
    Own(&'a str),
    /// The same, as bytes.
    Bytes(&'a [u8]),
    /// A word of the call, or a line of a file. If it is long, only its front is shown.
    Foreign(&'a [u8]),
    /// A number.
    Number(u64),
}

/// Lines for people. Contracts see their bytes, and that each line begins with two blanks and has
/// printable bytes alone.
#[derive(Drop)]
pub struct Notes {
    bytes: Vec<u8>,
    lines: u32,
}

impl Model for Notes {
    ghost use Rattle.std.specs.Prelude.{ℕ, List};
    ghost use Rattle.studio_rules.specs.Seconds.{AreSeconds};

    ghost Value = { List ℕ };

    ghost view = { λ notes. notes.bytes.items };

    ghost invariant = { λ notes. AreSeconds notes.bytes.items };
}

// A byte that is shown: itself if it is printable, else a question mark.
fn shown(byte: u8) -> u8
    ensures from { 32 ≤ result }
    ensures to { result ≤ 126 }
{
    if 32 <= byte && byte <= 126 {
        byte
    } else {
        b'?'
    }
}

fn push_bytes(line: &mut Vec<u8>, bytes: &[u8]) -> Result<(), AllocError>
    requires { IsSecond line.old.items }
    ensures { OnOk result (IsSecond line.new.items) }
{
    'pushing: for byte in bytes {
        line.push(shown(*byte))?;
    }
    Ok(())
}

fn push_foreign(line: &mut Vec<u8>, bytes: &[u8]) -> Result<(), AllocError>
    requires { IsSecond line.old.items }
    ensures { OnOk result (IsSecond line.new.items) }
{
    if bytes.len() <= MOST_BYTES {
        push_bytes(line, bytes)
    } else {
        let (front, _) = bytes.split_at(MOST_BYTES);
        push_bytes(line, front)?;
        push_bytes(line, b"..")
    }
}

fn push_number(line: &mut Vec<u8>, number: u64) -> Result<(), AllocError>
    requires { IsSecond line.old.items }
    ensures { OnOk result (IsSecond line.new.items) }
{
    let alloc = *line.allocator();
    let text = format!(in alloc; "{number}")?;
    push_bytes(line, text.as_bytes())
}

fn push_piece(line: &mut Vec<u8>, piece: Piece<'_>) -> Result<(), AllocError>
    requires { IsSecond line.old.items }
    ensures { OnOk result (IsSecond line.new.items) }
{
    match piece {
        Piece::Own(text) => push_bytes(line, text.as_bytes()),
        Piece::Bytes(bytes) => push_bytes(line, bytes),
        Piece::Foreign(bytes) => push_foreign(line, bytes),
        Piece::Number(number) => push_number(line, number),
    }
}

fn line_of(alloc: Global, pieces: &[Piece<'_>]) -> Result<Vec<u8>, AllocError>
    ensures { IfOk result (λ line. IsSecond line.items) }
{
    let mut line = b"  ".to_vec(alloc)?;
    'pieces: for piece in pieces {
        push_piece(&mut line, *piece)?;
    }
    Ok(line)
}

fn append(bytes: &mut Vec<u8>, line: &mut Vec<u8>) -> Result<(), AllocError>
    requires before { AreSeconds bytes.old.items }
    requires line { IsSecond line.old.items }
    ensures { AreSeconds bytes.new.items }
{
    line.push(b'\n')?;
    bytes.extend_from_slice(line)
}

impl Notes {
    /// No lines.
    pub fn new(alloc: Global) -> Self
        ensures { result ≡ [] }
    {
        Notes {
            bytes: Vec::new(alloc),
            lines: 0,
        }
    }

    /// The bytes of the lines.
    pub fn bytes(&self) -> &[u8]
        ensures value { result.now ≡ self.now }
        ensures shape { AreSeconds result.now }
    {
        &self.bytes
    }

    // Adds a line.
    fn push(&mut self, pieces: &[Piece<'_>]) {
        let alloc = *self.bytes.allocator();
        if let Ok(mut line) = line_of(alloc, pieces) {
            let _ = append(&mut self.bytes, &mut line);
            self.lines = self.lines.saturating_add(1);
        }
    }

    /// Adds a line of the pieces, if there are fewer than eight and memory allows.
    pub fn add(&mut self, pieces: &[Piece<'_>]) {
        if self.lines < MOST_LINES {
            self.push(pieces);
        }
    }

    /// Adds each line of a text of the program, however many there are.
    pub(crate) fn add_text(&mut self, text: &[u8]) {
        for line in without_feed(text).split(|c| *c == b'\n') {
            self.push(&[Piece::Bytes(line)]);
        }
    }
}
