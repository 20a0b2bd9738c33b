//! Pieces of a text.

/// The text without the line feed at its end, if it has one.
pub(crate) fn without_feed(text: &[u8]) -> &[u8] {
    match text {
        [front @ .., b'\n'] => front,
        _ => text,
    }
}

fn without_return(line: &[u8]) -> &[u8] {
    match line {
        [front @ .., b'\r'] => front,
        _ => line,
    }
}

/// The line with this number, counted from 1, without its end.
pub(crate) fn line_at(text: &[u8], number: u32) -> Option<&[u8]> {
    let at = number.saturating_sub(1) as usize;
    let line = without_feed(text).split(|c| *c == b'\n').nth(at)?;
    Some(without_return(line))
}

/// Whether the text has the word.
pub(crate) fn has(text: &[u8], word: &[u8]) -> bool {
    let mut found = false;
    for at in 0..text.len() {
        found = found || text[at..].starts_with(word);
    }
    found
}
