//! Pieces in lines of their own.
ghost use Rattle.std.specs.Prelude.{◌≡◌, ◌++◌, ◌∷◌, [], OnOk, map};
ghost use Rattle.tree_reading.specs.pns_problem.Printing.{printed};
ghost use Rattle.report_rules.specs.Json.{with_comma, comma_lines, array_lines};

use crate::piece::{Json, push_quoted};
use std::alloc::AllocError;

/// Appends a line.
pub fn push_line(text: &mut Vec<u8>, line: &[u8]) -> Result<(), AllocError>
    ensures { OnOk result (text.new.items ≡ text.old.items ++ printed (line.now ∷ [])) }
{
    text.extend_from_slice(line)?;
    text.push(b'\n')?;
    Ok(())
}

fn push_with_comma(text: &mut Vec<u8>, line: &[u8]) -> Result<(), AllocError>
    ensures { OnOk result (text.new.items ≡ text.old.items ++ (with_comma line.now ++ 10 ∷ [])) }
{
    text.extend_from_slice(line)?;
    text.extend_from_slice(b",\n")?;
    Ok(())
}

/// Appends a line for each piece, with a comma after it.
pub fn push_with_commas(text: &mut Vec<u8>, pieces: &[Json]) -> Result<(), AllocError>
    ensures { OnOk result (text.new.items ≡ text.old.items ++ printed (map with_comma pieces.now)) }
{
    'printing: for piece in pieces {
        push_with_comma(text, piece.bytes())?;
    }
    Ok(())
}

/// Appends a line for each piece, with a comma after each but the last.
pub fn push_comma_lines(text: &mut Vec<u8>, pieces: &[Json]) -> Result<(), AllocError>
    ensures { OnOk result (text.new.items ≡ text.old.items ++ printed (comma_lines pieces.now)) }
{
    match pieces.split_last() {
        None => Ok(()),
        Some((last, front)) => {
            push_with_commas(text, front)?;
            push_line(text, last.bytes())
        }
    }
}

/// Appends an array under its key, with a line for each value, and a comma after the array.
pub fn push_array(text: &mut Vec<u8>, key: &str, values: &[Json]) -> Result<(), AllocError>
    ensures { OnOk result
        (text.new.items ≡ text.old.items ++ printed (array_lines key.now values.now)) }
{
    push_quoted(text, key)?;
    text.extend_from_slice(b": [\n")?;
    push_comma_lines(text, values)?;
    text.extend_from_slice(b"],\n")?;
    Ok(())
}
