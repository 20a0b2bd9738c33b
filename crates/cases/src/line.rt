//! The lines of case files.

use crate::case::Side;
use crate::content::Content;
use crate::fault::Fault;

/// What a line of a case file says.
#[derive(Clone, Copy)]
pub(crate) enum Line<'a> {
    /// A remark.
    Remark,
    /// A file of the shelf, with the bytes of another one to begin with.
    File(&'a str, Option<&'a str>),
    /// A file leaves the shelf.
    Drop(&'a str),
    /// Bytes of the file or of the wanted output above.
    Content(Content<'a>),
    /// A case begins.
    Case(&'a str),
    /// The words of the call, between single blanks.
    Words(Option<&'a str>),
    /// A read of this number fails.
    Read(u64),
    /// The put of this number fails after so many bytes, on each output.
    Put(u64, u64),
    /// The same on standard error alone.
    ErrorPut(u64, u64),
    /// Each output has room for so many bytes.
    Room(u64),
    /// The wanted status.
    Status(u8),
    /// What is wanted of the outputs, with the bytes of a file to begin with.
    Wanted(Side, Option<&'a str>),
    /// What is on standard output becomes a file of the shelf.
    Keep(&'a str),
}

impl<'a> Line<'a> {
    /// What the line says.
    pub(crate) fn of(line: &'a str) -> Result<Line<'a>, Fault> {
        if line.is_empty() || line.starts_with('#') {
            return Ok(Line::Remark);
        }
        if let Some(text) = line.strip_prefix('|') {
            return Ok(Line::Content(Content::Line(text)));
        }
        if let Some(text) = line.strip_prefix('\\') {
            return Ok(Line::Content(Content::Text(text)));
        }
        match line.split_once(' ') {
            Some((word, rest)) => of_words(word, rest),
            None => of_word(line),
        }
    }
}

/// A line of one word.
fn of_word<'a>(word: &str) -> Result<Line<'a>, Fault> {
    match word.as_bytes() {
        b"words" => Ok(Line::Words(None)),
        b"out" => Ok(Line::Wanted(Side::Whole, None)),
        b"heads" => Ok(Line::Wanted(Side::Heads, None)),
        b"begins" => Ok(Line::Wanted(Side::Front, None)),
        b"ends" => Ok(Line::Wanted(Side::Back, None)),
        b"err" => Ok(Line::Wanted(Side::Errors, None)),
        _ => Err(Fault::Unknown),
    }
}

/// A line of a word, a blank and more.
fn of_words<'a>(word: &str, rest: &'a str) -> Result<Line<'a>, Fault> {
    match word.as_bytes() {
        b"file" => file_of(rest),
        b"drop" => Ok(Line::Drop(name_of(rest)?)),
        b"case" => Ok(Line::Case(name_of(rest)?)),
        b"words" => Ok(Line::Words(Some(rest))),
        b"read" => Ok(Line::Read(number_of(rest)?)),
        b"put" => put_of(rest),
        b"room" => Ok(Line::Room(number_of(rest)?)),
        b"status" => status_of(rest),
        b"out" => wanted_of(Side::Whole, rest),
        b"heads" => wanted_of(Side::Heads, rest),
        b"begins" => wanted_of(Side::Front, rest),
        b"ends" => wanted_of(Side::Back, rest),
        b"keep" => Ok(Line::Keep(name_of(rest)?)),
        _ => Ok(Line::Content(content_of(word, rest)?)),
    }
}

/// The content of a line of a word, a blank and more.
fn content_of<'a>(word: &str, rest: &'a str) -> Result<Content<'a>, Fault> {
    match word.as_bytes() {
        b"x" => Ok(Content::Bytes(rest)),
        b"*" => {
            let (count, text) = counted(rest)?;
            Ok(Content::Times(count, text))
        }
        b"*|" => {
            let (count, text) = counted(rest)?;
            Ok(Content::LineTimes(count, text))
        }
        b"each" => each_of(rest),
        b"line" => replaced(rest),
        b"first" => Ok(Content::First(number_of(rest)?)),
        _ => Err(Fault::Unknown),
    }
}

fn name_of(name: &str) -> Result<&str, Fault> {
    if name.is_empty() {
        Err(Fault::NoName)
    } else {
        Ok(name)
    }
}

fn number_of(word: &str) -> Result<u64, Fault> {
    match word.parse::<u64>() {
        Ok(number) => Ok(number),
        Err(_) => Err(Fault::BadNumber),
    }
}

/// A number, and the text after the blank that follows it.
fn counted(rest: &str) -> Result<(u64, &str), Fault> {
    let (count, text) = rest.split_once(' ').ok_or(Fault::BadNumber)?;
    Ok((number_of(count)?, text))
}

/// A file, as `NAME` or `NAME like OTHER`.
fn file_of(rest: &str) -> Result<Line<'_>, Fault> {
    match rest.split_once(' ') {
        Some((name, like)) => {
            let other = like.strip_prefix("like ").ok_or(Fault::Unknown)?;
            Ok(Line::File(name_of(name)?, Some(name_of(other)?)))
        }
        None => Ok(Line::File(name_of(rest)?, None)),
    }
}

/// What is wanted, as `like NAME` after its word.
fn wanted_of(side: Side, rest: &str) -> Result<Line<'_>, Fault> {
    let name = rest.strip_prefix("like ").ok_or(Fault::Unknown)?;
    Ok(Line::Wanted(side, Some(name_of(name)?)))
}

/// `K B`, or `err K B`.
fn put_of<'a>(rest: &str) -> Result<Line<'a>, Fault> {
    match rest.strip_prefix("err ") {
        Some(behind) => {
            let (number, count) = counted(behind)?;
            Ok(Line::ErrorPut(number, number_of(count)?))
        }
        None => {
            let (number, count) = counted(rest)?;
            Ok(Line::Put(number, number_of(count)?))
        }
    }
}

fn status_of<'a>(word: &str) -> Result<Line<'a>, Fault> {
    match word.parse::<u8>() {
        Ok(status) => Ok(Line::Status(status)),
        Err(_) => Err(Fault::BadNumber),
    }
}

/// `FIRST LAST LINES`.
fn each_of<'a>(rest: &str) -> Result<Content<'a>, Fault> {
    let (first, behind) = counted(rest)?;
    let (last, lines) = counted(behind)?;
    let lines = number_of(lines)?;
    Ok(Content::Each { first, last, lines })
}

/// `LINE |TEXT`.
fn replaced(rest: &str) -> Result<Content<'_>, Fault> {
    let (line, behind) = counted(rest)?;
    let text = behind.strip_prefix('|').ok_or(Fault::Unknown)?;
    Ok(Content::Replace(line, text))
}
