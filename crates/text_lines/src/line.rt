//! Lines, and the texts before and after a mark in them.
ghost use Rattle.std.specs.Prelude.{◌≡◌, ◌≤◌, ◌==◌, length};
ghost use Rattle.std.specs.List.{prefix_len, suffix_len, list_any, position_or_len};
ghost use Rattle.edit_rules.specs.text_rules.Blanks.{is_blank, trim_front, trim};
ghost use Rattle.edit_rules.specs.text_rules.Line.{is_colon, head_of, tail_of, without_return};
ghost use Rattle.edit_rules.specs.text_rules.Line.{without_mark};
ghost use Rattle.edit_rules.specs.text_rules.Line.{is_remark, without_remark};

fn is_blank(c: u8) -> bool
    ensures { result ≡ is_blank c }
{
    c == b' ' || c == b'\t'
}

fn blanks_in_front(text: &[u8]) -> usize
    ensures within { result ≤ length text.now }
    ensures count { result ≡ prefix_len is_blank text.now }
{
    text.iter().take_while(|c| is_blank(**c)).count()
}

fn blanks_behind(text: &[u8]) -> usize
    ensures within { result ≤ length text.now }
    ensures count { result ≡ suffix_len is_blank text.now }
{
    text.iter().rev().take_while(|c| is_blank(**c)).count()
}

fn trim_front(text: &[u8]) -> &[u8]
    ensures within { length result.now ≤ length text.now }
    ensures value { result.now ≡ trim_front text.now }
{
    &text[blanks_in_front(text)..]
}

/// The text without the blanks at its ends.
pub fn trim(text: &[u8]) -> &[u8]
    ensures within { length result.now ≤ length text.now }
    ensures value { result.now ≡ trim text.now }
{
    let rest = trim_front(text);
    &rest[..rest.len() - blanks_behind(rest)]
}

/// The first place of the byte, or the length of the text if it has none.
pub fn place_of(byte: u8, text: &[u8]) -> usize
    ensures within { result ≤ length text.now }
    ensures place { result ≡ position_or_len (λ c. c == byte) text.now }
{
    text.iter().take_while(|c| **c != byte).count()
}

/// The line without the carriage return at its end, if it has one.
pub fn without_return(text: &[u8]) -> &[u8]
    ensures { result.now ≡ without_return text.now }
{
    match text {
        [rest @ .., b'\r'] => rest,
        _ => text,
    }
}

fn is_remark(line: &[u8]) -> bool
    ensures { result ≡ is_remark line.now }
{
    match trim_front(line) {
        [first, ..] => *first == b'#',
        [] => false,
    }
}

/// The line, or an empty one if its first byte other than a blank is a number sign.
pub fn without_remark(line: &[u8]) -> &[u8]
    ensures { result.now ≡ without_remark line.now }
{
    if is_remark(line) { &[] } else { line }
}

/// The text after its byte order mark, if it has one.
pub fn without_mark(bytes: &[u8]) -> &[u8]
    ensures within { length result.now ≤ length bytes.now }
    ensures value { result.now ≡ without_mark bytes.now }
{
    if bytes.starts_with(&[239, 187, 191]) {
        &bytes[3..]
    } else {
        bytes
    }
}

/// The text before the first colon, or the whole text if there is none.
pub fn head_of(text: &[u8]) -> &[u8]
    ensures { result.now ≡ head_of text.now }
{
    trim(&text[..place_of(b':', text)])
}

/// The text after the first colon.
pub fn tail_of(text: &[u8]) -> &[u8]
    ensures { result.now ≡ tail_of text.now }
{
    let at = place_of(b':', text);
    if at < text.len() {
        trim(&text[at + 1..])
    } else {
        trim(&[])
    }
}

/// Whether the text has a colon.
pub fn has_colon(text: &[u8]) -> bool
    ensures { result ≡ list_any is_colon text.now }
{
    text.iter().any(|c| *c == b':')
}
