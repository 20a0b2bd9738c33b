//! A line in its parts.
ghost use Rattle.std.specs.Prelude.{◌≡◌, ◌∷◌, ◌<◌, [], IfOk, IfErr, length};
ghost use Rattle.tree_reading.specs.Apart.{AreParts};
ghost use Rattle.tree_reading.specs.View.{line_of, tokens_in};

use crate::line::{Line, first_token, have_bytes, next_token};
use crate::word::word_named;
use tree_text_rules::{TreeKind, Word};

/// Whether a line has ended and each of its tokens has bytes, the word that it begins with, and
/// what follows that word.
#[derive(Clone, Copy)]
pub struct LineParts<'a> {
    pub formed: bool,
    pub word: Option<Word>,
    pub fields: Option<&'a [u8]>,
}

/// The parts of a line.
pub fn parts_of<'a>(line: &Line<'a>) -> LineParts<'a>
    ensures { AreParts result (line_of line.now) }
{
    let (word, fields) = first_token(line.text);
    LineParts {
        formed: line.ended && !word.is_empty() && have_bytes(fields),
        word: word_named(word),
        fields,
    }
}

/// The first token that is left, and what follows it. It is `BadLine` if and only if there is no
/// token.
pub fn some_token(fields: Option<&[u8]>) -> Result<(&[u8], Option<&[u8]>), TreeKind>
    ensures ok { IfOk result (λ found. tokens_in fields.entry ≡ found.0.now ∷ tokens_in found.1) }
    ensures fault { IfErr result
        (λ kind. (kind ≡ TreeKind.BadLine) × (tokens_in fields.entry ≡ [])) }
{
    next_token(fields).ok_or(TreeKind::BadLine)
}

/// The value. It is `BadLine` if and only if a token is left.
pub fn alone<A: Drop>(value: A, fields: Option<&[u8]>) -> Result<A, TreeKind>
    ensures ok { IfOk result (λ found. (found ≡ value) × (tokens_in fields.entry ≡ [])) }
    ensures fault { IfErr result
        (λ kind. (kind ≡ TreeKind.BadLine) × (0 < length (tokens_in fields.entry))) }
{
    match next_token(fields) {
        None => Ok(value),
        Some(_) => Err(TreeKind::BadLine),
    }
}

/// The one token that is left. It is `BadLine` if and only if there are more or fewer.
pub fn only(fields: Option<&[u8]>) -> Result<&[u8], TreeKind>
    ensures ok { IfOk result (λ token. tokens_in fields.entry ≡ token.now ∷ []) }
    ensures fault { IfErr result
        (λ kind. (kind ≡ TreeKind.BadLine) × (length (tokens_in fields.entry) ≡ 1 → ⊥)) }
{
    let (token, behind) = some_token(fields)?;
    alone(token, behind)
}

/// The two tokens that are left. It is `BadLine` if and only if there are more or fewer.
pub fn pair(fields: Option<&[u8]>) -> Result<(&[u8], &[u8]), TreeKind>
    ensures ok { IfOk result (λ found. tokens_in fields.entry ≡ found.0.now ∷ found.1.now ∷ []) }
    ensures fault { IfErr result
        (λ kind. (kind ≡ TreeKind.BadLine) × (length (tokens_in fields.entry) ≡ 2 → ⊥)) }
{
    let (token, behind) = some_token(fields)?;
    Ok((token, only(behind)?))
}
