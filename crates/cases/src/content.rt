//! Bytes that the lines of a case file write one after another.

use crate::fault::{Fault, Stop};
use std::alloc::{AllocError, Global};

/// A line that writes or changes bytes.
#[derive(Clone, Copy)]
pub(crate) enum Content<'a> {
    /// The text and a line feed.
    Line(&'a str),
    /// The text alone.
    Text(&'a str),
    /// Bytes as pairs of digits to the base of 16, with blanks between them.
    Bytes(&'a str),
    /// The text so many times.
    Times(u64, &'a str),
    /// The text and a line feed, so many times.
    LineTimes(u64, &'a str),
    /// The last lines once for each number from the first to the last, with the number for each
    /// `#`.
    Each { first: u64, last: u64, lines: u64 },
    /// Another text in the place of a line, counted from 1.
    Replace(u64, &'a str),
    /// The first lines alone.
    First(u64),
}

/// Writes one content line after the bytes, or into them.
pub(crate) fn write(alloc: Global, bytes: &mut Vec<u8>, content: Content<'_>) -> Result<(), Stop> {
    match content {
        Content::Line(text) => write_line(bytes, text)?,
        Content::Text(text) => bytes.extend_from_slice(text.as_bytes())?,
        Content::Bytes(digits) => write_bytes(bytes, digits)?,
        Content::Times(count, text) => {
            for _ in 0..count {
                bytes.extend_from_slice(text.as_bytes())?;
            }
        }
        Content::LineTimes(count, text) => {
            for _ in 0..count {
                write_line(bytes, text)?;
            }
        }
        Content::Each { first, last, lines } => write_each(alloc, bytes, first, last, lines)?,
        Content::Replace(line, text) => replace_line(alloc, bytes, line, text)?,
        Content::First(lines) => keep_first(bytes, lines)?,
    }
    Ok(())
}

fn write_line(bytes: &mut Vec<u8>, text: &str) -> Result<(), AllocError> {
    bytes.extend_from_slice(text.as_bytes())?;
    bytes.push(b'\n')?;
    Ok(())
}

/// The number that a digit to the base of 16 stands for.
fn digit_of(digit: u8) -> Option<u8> {
    match digit {
        b'0'..=b'9' => Some(digit - b'0'),
        b'A'..=b'F' => Some(digit - b'A' + 10),
        _ => None,
    }
}

fn write_bytes(bytes: &mut Vec<u8>, digits: &str) -> Result<(), Stop> {
    let mut high = None;
    for digit in digits.bytes() {
        if digit == b' ' {
            continue;
        }
        let low = digit_of(digit).ok_or(Fault::BadBytes)?;
        match high {
            Some(first) => {
                bytes.push(u8::wrapping_mul(first, 16) | low)?;
                high = None;
            }
            None => high = Some(low),
        }
    }
    match high {
        Some(_) => Err(Stop::Fault(Fault::BadBytes)),
        None => Ok(()),
    }
}

/// The place after so many line feeds, if there are so many.
fn behind_lines(bytes: &[u8], lines: u64) -> Option<usize> {
    let mut left = lines;
    if left == 0 {
        return Some(0);
    }
    for (place, byte) in bytes.iter().enumerate() {
        if *byte == b'\n' {
            left = left.saturating_sub(1);
            if left == 0 {
                return Some(place.saturating_add(1));
            }
        }
    }
    None
}

fn keep_first(bytes: &mut Vec<u8>, lines: u64) -> Result<(), Fault> {
    let end = behind_lines(bytes, lines).ok_or(Fault::NoLine)?;
    bytes.truncate(end);
    Ok(())
}

fn replace_line(alloc: Global, bytes: &mut Vec<u8>, line: u64, text: &str) -> Result<(), Stop> {
    let start = behind_lines(bytes, line.saturating_sub(1)).ok_or(Fault::NoLine)?;
    let behind = bytes.get(start..).unwrap_or(&[]);
    if line == 0 || behind.is_empty() {
        return Err(Stop::Fault(Fault::NoLine));
    }
    let length = behind_lines(behind, 1).unwrap_or(behind.len());
    let rest = behind.get(length..).unwrap_or(&[]).to_vec(alloc)?;
    bytes.truncate(start);
    write_line(bytes, text)?;
    bytes.extend_from_slice(&rest)?;
    Ok(())
}

fn line_count(bytes: &[u8]) -> u64 {
    let mut count = 0u64;
    for byte in bytes {
        if *byte == b'\n' {
            count = count.saturating_add(1);
        }
    }
    count
}

fn write_each(
    alloc: Global,
    bytes: &mut Vec<u8>,
    first: u64,
    last: u64,
    lines: u64,
) -> Result<(), Stop> {
    let above = line_count(bytes).checked_sub(lines).ok_or(Fault::NoLine)?;
    let start = behind_lines(bytes, above).ok_or(Fault::NoLine)?;
    let pattern = bytes.get(start..).unwrap_or(&[]).to_vec(alloc)?;
    bytes.truncate(start);
    if first <= last {
        for number in first..=last {
            write_numbered(alloc, bytes, &pattern, number)?;
        }
    } else {
        for number in (last..=first).rev() {
            write_numbered(alloc, bytes, &pattern, number)?;
        }
    }
    Ok(())
}

fn write_numbered(
    alloc: Global,
    bytes: &mut Vec<u8>,
    pattern: &[u8],
    number: u64,
) -> Result<(), AllocError> {
    let numeral = number.to_string(alloc)?;
    for byte in pattern {
        if *byte == b'#' {
            bytes.extend_from_slice(numeral.as_bytes())?;
        } else {
            bytes.push(*byte)?;
        }
    }
    Ok(())
}
