//! Words that are files of one call.
ghost use Rattle.std.specs.Prelude.{◌≡◌, ◌∷◌, [], map, string_bytes};
ghost use Rattle.studio_rules.specs.Command.{are_files, is_input};

/// Whether the word is standard input.
fn is_input(word: &str) -> bool
    ensures { result ≡ is_input word.now }
{
    word == "-"
}

/// Whether each word may be that of a file, and at most one is standard input.
pub(crate) fn are_files(words: &[String]) -> bool
    ensures { result ≡ are_files (map string_bytes words.now) }
{
    let mut taken = false;
    'words: for word in words {
        if word.is_empty() {
            return false;
        }
        let input = is_input(word.as_str());
        if taken && input {
            return false;
        }
        taken = taken || input;
    }
    true
}

/// Whether both words may be those of files, and one of them at most is standard input.
pub(crate) fn are_both_files(first: &str, second: &str) -> bool
    ensures { result ≡ are_files (first.now ∷ second.now ∷ []) }
{
    if first.is_empty() || second.is_empty() {
        return false;
    }
    !(is_input(first) && is_input(second))
}
