//! Lines of a text, and tokens of a line.
ghost use Rattle.std.specs.Prelude.{◌≡◌, ◌<◌, ◌≤◌, ◌∷◌, [], IfSome, IfNone, length, drop};
ghost use Rattle.std.specs.List.{slice_split, list_all};
ghost use Rattle.tree_text_rules.specs.Line.{lines_of, is_space, has_bytes};
ghost use Rattle.tree_reading.specs.View.{line_of, tokens_in};

use text_lines::line::place_of;

/// The bytes of a line, and whether a line feed ended it.
#[derive(Clone, Copy)]
pub struct Line<'a> {
    pub text: &'a [u8],
    pub ended: bool,
}

/// The first line of what is left of a text, and how many bytes it takes with its line feed.
#[tactic(auto, using(crate::proofs::Cutting::line_ended, crate::proofs::Cutting::line_open))]
pub fn first_line(rest: &[u8]) -> (Line<'_>, usize)
    requires { 0 < length rest.now }
    ensures cut { lines_of rest.now ≡ line_of result.0
        ∷ lines_of (drop result.1 rest.now) }
    ensures some { 0 < result.1 }
    ensures within { result.1 ≤ length rest.now }
{
    let at = place_of(b'\n', rest);
    let text = &rest[..at];
    if at < rest.len() {
        (Line { text, ended: true }, at + 1)
    } else {
        (Line { text, ended: false }, at)
    }
}

/// The first token of a text, and what follows the space that ends it.
#[tactic(auto, using(crate::proofs::Cutting::token_ended, crate::proofs::Cutting::token_last, std::proofs::lemmas::Grind::common_steps))]
pub fn first_token(text: &[u8]) -> (&[u8], Option<&[u8]>)
    ensures cut { slice_split is_space text.now ≡ result.0.now ∷ tokens_in result.1 }
    ensures shorter { IfSome result.1 (λ behind. length behind.now < length text.now) }
{
    let at = place_of(b' ', text);
    if at < text.len() {
        (&text[..at], Some(&text[at + 1..]))
    } else {
        (text, None)
    }
}

/// The first token of what is left of a line, and what follows it. It is `None` if and only if
/// there is no token.
pub fn next_token(rest: Option<&[u8]>) -> Option<(&[u8], Option<&[u8]>)>
    ensures some { IfSome result
        (λ found. tokens_in rest.entry ≡ found.0.now ∷ tokens_in found.1) }
    ensures none { IfNone result (tokens_in rest.entry ≡ []) }
{
    Some(first_token(rest?))
}

/// How many tokens what is left of a line has.
#[tactic(auto, using(crate::proofs::Cutting::token_number))]
pub fn token_count(rest: Option<&[u8]>) -> usize
    ensures { result ≡ length (tokens_in rest.entry) }
{
    match rest {
        None => 0,
        Some(text) => text.iter().filter(|c| **c == b' ').count() + 1,
    }
}

/// Whether each token that is left of a line has bytes.
pub fn have_bytes(rest: Option<&[u8]>) -> bool
    ensures { result ≡ list_all has_bytes (tokens_in rest.entry) }
{
    match rest {
        None => true,
        Some(text) => text.split(|c| *c == b' ').all(|token| !token.is_empty()),
    }
}
