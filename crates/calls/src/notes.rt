//! Second lines: how many there are at most, and how much of a long word they show.

use std::alloc::Global;
use std::io;
use studio_words::{Notes, Piece};

/// Nine lines, each of a word of 201 bytes. Eight are kept, of 205 bytes each: two blanks, 200
/// bytes of the word, two points and a line feed.
pub fn long_lines(rt: &(impl Print + Alloc<A = Global>)) -> io::Result<()> {
    let mut notes = Notes::new(rt.alloc());
    for _ in 0..9 {
        notes.add(&[Piece::Foreign(&[b'x'; 201])]);
    }
    let count = notes.bytes().len();
    let has_points = notes.bytes().ends_with(b"xx..\n");
    println!(rt; "second lines: {count} bytes, points at the end: {has_points}")
}
