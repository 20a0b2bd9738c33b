//! Names of materials, operating units and exclusions.
ghost use Rattle.std.specs.Prelude.{◌≡◌};
ghost use Rattle.std.specs.List.{list_all};
ghost use Rattle.text_rules.specs.problem_rules.Names.{is_name, begins_name, continues_name};

fn begins_name(c: u8) -> bool
    ensures { result ≡ begins_name c }
{
    c.is_ascii_alphabetic() || c == b'_'
}

fn continues_name(c: u8) -> bool
    ensures { result ≡ continues_name c }
{
    begins_name(c) || c.is_ascii_digit() || c == b'-' || c == b'.'
}

fn all_continue(text: &[u8]) -> bool
    ensures { result ≡ list_all continues_name text.now }
{
    text.iter().all(|c| continues_name(*c))
}

fn is_name_bytes(text: &[u8]) -> bool
    ensures { result ≡ is_name text.now }
{
    if text.is_empty() || text.len() > 64 {
        return false;
    }
    begins_name(text[0]) && all_continue(text)
}

/// Whether the text is a name: a letter or `_`, then letters, digits, `_`, `-` or `.`, all ASCII,
/// at most 64 bytes. It takes no memory.
pub fn is_name(text: &str) -> bool
    ensures { result ≡ is_name text.now }
{
    is_name_bytes(text.as_bytes())
}
