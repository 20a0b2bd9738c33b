//! The words of a line.
ghost use Rattle.std.specs.Prelude.{◌≡◌, ◌∷◌, [], Ok, Err, IfOk, IfErr, IfSome, IfNone, option_map};
ghost use Rattle.tree_reading.specs.View.{line_of};
ghost use Rattle.report_rules.specs.RangeTable as rules;
ghost use Rattle.json_text.specs.View.{cells_of, words_in};

use tree_reading::{Line, TreeKind, first_token};

/// The five words of a line of a table.
#[derive(Clone, Copy)]
pub(crate) struct Cells<'a> {
    pub(crate) kind: &'a [u8],
    pub(crate) name: &'a [u8],
    pub(crate) from: &'a [u8],
    pub(crate) value: &'a [u8],
    pub(crate) to: &'a [u8],
}

/// The first word of what is left of a line, and what follows it.
#[tactic(auto, using(crate::proofs::Worded::word_found, crate::proofs::Worded::word_skipped))]
pub(crate) fn next_word(fields: Option<&[u8]>) -> Option<(&[u8], Option<&[u8]>)>
    ensures some { IfSome result
        (λ found. words_in fields.entry ≡ found.0.now ∷ words_in found.1) }
    ensures none { IfNone result (words_in fields.entry ≡ []) }
{
    let mut rest = fields;
    'looking: while let Some(left) = rest {
        let (token, behind) = first_token(left);
        if !token.is_empty() {
            return Some((token, behind));
        }
        rest = behind;
    }
    None
}

/// The five words of what is left of a line. There are none if it has more or fewer.
fn five_words<'a>(fields: Option<&'a [u8]>) -> Option<Cells<'a>>
    ensures { option_map cells_of result ≡ rules.cells_in (words_in fields.entry) }
{
    let (kind, rest) = next_word(fields)?;
    let (name, rest) = next_word(rest)?;
    let (from, rest) = next_word(rest)?;
    let (value, rest) = next_word(rest)?;
    let (to, rest) = next_word(rest)?;
    if next_word(rest).is_some() {
        return None;
    }
    Some(Cells {
        kind,
        name,
        from,
        value,
        to,
    })
}

/// Whether the line has no words.
pub(crate) fn has_no_word(line: &Line<'_>) -> bool
    ensures { result ≡ rules.has_no_word (rules.words_of (line_of line.now)) }
{
    next_word(Some(line.text)).is_none()
}

/// Whether the line begins with the word.
pub(crate) fn is_first(word: &[u8], line: &Line<'_>) -> bool
    ensures { result ≡ rules.is_first word.now (rules.words_of (line_of line.now)) }
{
    match next_word(Some(line.text)) {
        Some((first, _)) => first == word,
        None => false,
    }
}

/// The cells of a line.
pub(crate) fn cells_of<'a>(line: &Line<'a>) -> Result<Cells<'a>, TreeKind>
    ensures ok { IfOk result (λ cells. rules.cells_of (line_of line.now) ≡ Ok (cells_of cells)) }
    ensures fault { IfErr result (λ kind. rules.cells_of (line_of line.now) ≡ Err kind) }
{
    if !line.ended {
        return Err(TreeKind::BadLine);
    }
    five_words(Some(line.text)).ok_or(TreeKind::BadLine)
}
