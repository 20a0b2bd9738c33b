//! The words of causes why a ranking is refused, and the line of a network.
ghost use Rattle.std.specs.Prelude.{◌≡◌, IfOk, string_bytes};
ghost use Rattle.studio_words.specs.studio_rules.Lines.{line};
ghost use Rattle.studio_words.specs.studio_rules.RankWords.{rank_why_word, network_line};

use crate::words::why_word;
use std::alloc::{AllocError, Global};
use studio_words::RankWhy;

/// The word that is printed for a cause.
pub fn rank_why_word(why: RankWhy) -> &'static str
    ensures { result.now ≡ rank_why_word why }
{
    match why {
        RankWhy::Plain(cause) => why_word(cause),
        RankWhy::Order => "order",
        RankWhy::Contains => "contains",
        RankWhy::Named => "named",
        RankWhy::Over => "over",
    }
}

/// The line on a network that fails.
pub fn network_line(alloc: Global, number: u32, why: RankWhy) -> Result<String, AllocError>
    ensures { IfOk result (λ text. string_bytes text ≡ line (network_line number why)) }
{
    let mut text = String::from_str(alloc, "refused network ")?;
    write!(text, "{number}")?;
    text.push(' ')?;
    text.push_str(rank_why_word(why))?;
    text.push('\n')?;
    Ok(text)
}
