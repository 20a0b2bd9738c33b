//! The lines of a text, one by one.
ghost use Rattle.std.specs.Prelude.{◌≡◌, ◌<◌, ◌≤◌, ◌+◌, ◌-◌, ◌^◌, ◌∷◌, [], IfSome, IsNone, length};
ghost use Rattle.text_lines.specs.Lines.{line_by, lines_by, Coming, IsUntyped};

use crate::line::{place_of, trim, without_remark, without_return};
use std::marker::Model;

/// What a format drops at the ends of its lines. In each format a remark becomes an empty line.
#[derive(Clone, Copy)]
pub enum Drops {
    /// One carriage return at the end of a line.
    Return,
    /// One carriage return at the end of a line, then the blanks at both ends.
    ReturnAndBlanks,
}

/// The lines of a text that remain, and the number of the first of them.
#[derive(Drop)]
pub struct Lines<'a> {
    drops: Drops,
    rest: &'a [u8],
    number: u32,
}

impl<'a> Model for Lines<'a> {
    ghost Value = { Coming };

    ghost view = { λ l. record { number = l.number; lines = lines_by l.drops l.rest.now } };

    ghost invariant = { λ l. l.number + length (lines_by l.drops l.rest.now) < 2 ^ 32 };
}

impl<'a> Lines<'a> {
    /// The lines after the first, if that is the file type; `None` exactly if it is not.
    #[tactic(auto, using(crate::proofs::Cutting::lines_short))]
    pub fn behind_type(drops: Drops, bytes: &'a [u8], file_type: &[u8]) -> Option<Lines<'a>>
        requires { length bytes.now < 2 ^ 32 - 1 }
        ensures typed { IfSome result
            (λ lines. lines_by drops bytes.now ≡ file_type.now ∷ lines.lines) }
        ensures number { IfSome result (λ lines. lines.number ≡ 2) }
        ensures few { IfSome result
            (λ lines. lines.number + length lines.lines ≤ length bytes.now + 1) }
        ensures untyped { IsNone result → IsUntyped file_type.now (lines_by drops bytes.now) }
    {
        if bytes.is_empty() {
            return None;
        }
        let (first, rest) = cut_line(drops, bytes);
        (first == file_type).then_some(Lines {
            drops,
            rest,
            number: 2,
        })
    }

    /// The next line with its number.
    pub fn next(&mut self) -> Option<(u32, &'a [u8])>
        ensures line { IfSome result (λ line. self.old.lines ≡ line.1.now ∷ self.new.lines) }
        ensures number { IfSome result (λ line. line.0 ≡ self.old.number) }
        ensures next { IfSome result (λ line. self.new.number ≡ self.old.number + 1) }
        ensures end { IsNone result → self.old.lines ≡ [] }
        ensures stays { IsNone result → self.new ≡ self.old }
    {
        if self.rest.is_empty() {
            return None;
        }
        let (text, behind) = cut_line(self.drops, self.rest);
        let number = self.number;
        self.rest = behind;
        self.number += 1;
        Some((number, text))
    }

    /// The number of the next line.
    pub fn number(&self) -> u32
        ensures { result ≡ self.now.number }
    {
        self.number
    }
}

fn dropped(drops: Drops, part: &[u8]) -> &[u8]
    ensures { result.now ≡ line_by drops part.now }
{
    match drops {
        Drops::Return => without_remark(without_return(part)),
        Drops::ReturnAndBlanks => trim(without_remark(without_return(part))),
    }
}

// The first line of the rest of a text, and the rest after it.
#[tactic(auto, using(crate::proofs::Cutting::lines_last))]
fn cut_line(drops: Drops, rest: &[u8]) -> (&[u8], &[u8])
    requires { 0 < length rest.now }
    ensures cut { lines_by drops rest.now ≡ result.0.now ∷ lines_by drops result.1.now }
    ensures shorter { length result.1.now < length rest.now }
{
    let at = place_of(b'\n', rest);
    if at < rest.len() {
        (dropped(drops, &rest[..at]), &rest[at + 1..])
    } else {
        (dropped(drops, rest), &[])
    }
}
