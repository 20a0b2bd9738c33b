//! Words in a table.
ghost use Rattle.std.specs.Prelude.{◌≡◌};
ghost use Rattle.text_lines.specs.Words.{looked_up};

/// The value in the first row whose name is the text; `None` exactly if there is no such row.
pub fn looked_up<W: Copy>(mut rows: &[(&[u8], W)], text: &[u8]) -> Option<W>
    ensures { result ≡ looked_up rows.entry.now text.now }
{
    while let [row, rest @ ..] = rows {
        if text == row.0 {
            return Some(row.1);
        }
        rows = rest;
    }
    None
}
