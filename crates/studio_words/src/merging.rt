//! The words of `merge`, which may have up to a hundred parts.
ghost use Rattle.std.specs.Prelude.{◌≡◌, map, option_map, string_bytes};
ghost use Rattle.studio_rules.specs.Command.{merging_of};
ghost use Rattle.studio_words.specs.View.{command_view};

use crate::command::Command;
use crate::file_words::are_files;

/// The words before the parts: the command, FILE and TREE.
const BEFORE_PARTS: usize = 3;

/// The most parts that one call puts back.
const MOST_PARTS: usize = 100;

/// The command `merge`, if the words are those of one.
pub(crate) fn merging_of(words: &[String]) -> Option<Command<'_>>
    ensures { option_map command_view result ≡ merging_of (map string_bytes words.now) }
{
    if words.len() <= BEFORE_PARTS || words.len() > BEFORE_PARTS + MOST_PARTS {
        return None;
    }
    if words[0].as_str() != "merge" || !are_files(&words[1..]) {
        return None;
    }
    Some(Command::Merging(words[1].as_str(), words[2].as_str(), &words[BEFORE_PARTS..]))
}
