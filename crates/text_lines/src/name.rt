//! Names, and texts among others.
ghost use Rattle.std.specs.Prelude.{◌≡◌};
ghost use Rattle.std.specs.List.{list_all};
ghost use Rattle.edit_rules.specs.problem_rules.Names.{is_name, begins_name, continues_name};
ghost use Rattle.edit_rules.specs.problem_rules.Names.{is_among};
ghost use Rattle.text_lines.specs.View.{texts};

fn begins_name(c: u8) -> bool
    ensures { result ≡ begins_name c }
{
    c.is_ascii_alphabetic() || c == b'_'
}

fn continues_name(c: u8) -> bool
    ensures { result ≡ continues_name c }
{
    begins_name(c) || c.is_ascii_digit() || c == b'-' || c == b'.'
}

fn all_continue(text: &[u8]) -> bool
    ensures { result ≡ list_all continues_name text.now }
{
    text.iter().all(|c| continues_name(*c))
}

/// Whether the text is a name: a letter or `_`, then letters, digits, `_`, `-` or `.`, at most 64
/// bytes.
pub fn is_name(text: &[u8]) -> bool
    ensures { result ≡ is_name text.now }
{
    !text.is_empty() && text.len() <= 64 && begins_name(text[0]) && all_continue(text)
}

/// Whether the text is one of the names. It looks at all of them.
pub fn is_among(names: &[&[u8]], text: &[u8]) -> bool
    ensures { result ≡ is_among (texts names.now) text.now }
{
    for name in names {
        if *name == text {
            return true;
        }
    }
    false
}
