//! What is printed of a case.

use std::io;

/// A status, and a text that is compared.
#[derive(Clone, Copy)]
pub(crate) struct Answer<'a> {
    pub(crate) status: u8,
    pub(crate) text: &'a [u8],
}

/// Prints that the case is as wanted, or how the answer that came differs: both statuses, and the
/// first line in which the texts differ.
pub(crate) fn report<R: Print>(
    rt: &R,
    title: &str,
    wanted: Answer<'_>,
    came: Answer<'_>,
) -> io::Result<()> {
    if wanted.status == came.status && wanted.text == came.text {
        return println!(rt; "ok {title}");
    }
    println!(rt; "FAILED {title}")?;
    if wanted.status != came.status {
        println!(rt; "  wanted status {}, came {}", wanted.status, came.status)?;
    }
    if wanted.text != came.text {
        report_text(rt, wanted.text, came.text)?;
    }
    Ok(())
}

/// Prints that something is on an output that has to be empty with the status.
pub(crate) fn report_place<R: Print>(rt: &R, title: &str) -> io::Result<()> {
    println!(rt; "FAILED {title}\n  something is on an output that has to be empty")
}

/// Prints the first line in which the texts differ, as it is in each.
fn report_text<R: Print>(rt: &R, wanted: &[u8], came: &[u8]) -> io::Result<()> {
    let (number, start) = first_difference(wanted, came);
    println!(rt; "  line {number}")?;
    rt.write_all(b"  wanted: ")?;
    rt.write_all(line_from(wanted, start))?;
    rt.write_all(b"\n  came:   ")?;
    rt.write_all(line_from(came, start))?;
    rt.write_all(b"\n")
}

/// The number, from 1, and the start of the first line in which the texts differ.
fn first_difference(wanted: &[u8], came: &[u8]) -> (u64, usize) {
    let mut number = 1u64;
    let mut start = 0usize;
    for (place, (one, other)) in wanted.iter().zip(came).enumerate() {
        if one != other {
            break;
        }
        if *one == b'\n' {
            number = number.saturating_add(1);
            start = place.saturating_add(1);
        }
    }
    (number, start)
}

/// The line that begins at the place, without its line feed.
fn line_from(text: &[u8], start: usize) -> &[u8] {
    let rest = text.get(start..).unwrap_or(&[]);
    let end = rest.iter().position(|byte| *byte == b'\n');
    rest.get(..end.unwrap_or(rest.len())).unwrap_or(rest)
}
