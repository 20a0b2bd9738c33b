//! First words of lines.
ghost use Rattle.std.specs.Prelude.{◌≡◌};
ghost use Rattle.tree_text_rules.specs.Line.{word_named};

use text_lines::words::looked_up;
use tree_text_rules::Word;

const WORDS: [(&[u8], Word); 30] = [
    (b"network", Word::Network),
    (b"sizes", Word::Sizes),
    (b"cost", Word::Cost),
    (b"infeasible", Word::Infeasible),
    (b"unknown", Word::Unknown),
    (b"node", Word::Node),
    (b"raw", Word::Raw),
    (b"rival", Word::Rival),
    (b"starve", Word::Starve),
    (b"loose", Word::Loose),
    (b"sole", Word::Sole),
    (b"dead", Word::Dead),
    (b"clash", Word::Clash),
    (b"refuted", Word::Refuted),
    (b"bound", Word::Bound),
    (b"charge", Word::Charge),
    (b"some", Word::SomeOf),
    (b"with", Word::With),
    (b"branch", Word::Branch),
    (b"either", Word::Either),
    (b"open", Word::Open),
    (b"cap", Word::Cap),
    (b"out", Word::Out),
    (b"trim", Word::Trim),
    (b"use", Word::Use),
    (b"spent", Word::Spent),
    (b"past", Word::Past),
    (b"nonbasic", Word::Nonbasic),
    (b"place", Word::Place),
    (b"end", Word::End),
];

/// The word that a token is. It is `None` if and only if the token is no first word of a line.
#[tactic(auto, unfolding(tree_text_rules::specs::Line::word_named))]
pub fn word_named(token: &[u8]) -> Option<Word>
    ensures { result ≡ word_named token.now }
{
    looked_up(&WORDS, token)
}
