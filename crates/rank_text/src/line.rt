//! The lines of a ranking that no tree text has, without their line feeds.
ghost use Rattle.std.specs.Prelude.{◌≡◌, ◌∷◌, [], OnOk, map, decimal, string_bytes};
ghost use Rattle.std.specs.Fmt.{signed_decimal};
ghost use Rattle.tree_text_laws.specs.text_rules.Canonical.{joined};
ghost use Rattle.rank_check.specs.rank_rules.Spelling.{way_word};

use rank_check::{Name, Naming};
use std::alloc::AllocError;
use tree_text::{begin, push_count, push_number, push_numbers};

/// A word and a count.
pub fn count_line(line: &mut String, word: &str, count: u32) -> Result<(), AllocError>
    ensures { OnOk result (string_bytes line.new ≡ joined 32 (word.now ∷ decimal count ∷ [])) }
{
    begin(line, word)?;
    push_count(line, count)
}

/// The first word of the end of a leaf that names a network this way.
fn way_word(way: Naming) -> &'static str
    ensures { result.now ≡ way_word way }
{
    match way {
        Naming::Only => "named",
        Naming::Within => "over",
    }
}

/// The end of a leaf that names a network.
pub fn named_line(line: &mut String, name: &Name) -> Result<(), AllocError>
    ensures { OnOk result
        (string_bytes line.new
        ≡ joined 32
        (way_word name.now.way ∷ decimal name.now.network ∷ signed_decimal name.now.scaled.d
        ∷ map signed_decimal name.now.scaled.ys)) }
{
    begin(line, way_word(name.way))?;
    push_count(line, name.network)?;
    push_number(line, name.scaled.d())?;
    push_numbers(line, name.scaled.ys())?;
    Ok(())
}
