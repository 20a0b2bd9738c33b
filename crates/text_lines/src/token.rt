//! The tokens of a line whose parts are separated by one space.
ghost use Rattle.std.specs.Prelude.{◌≡◌, IfOk};
ghost use Rattle.edit_rules.specs.Line.{tokens_of};
ghost use Rattle.text_lines.specs.View.{texts};

use std::alloc::{AllocError, Global};

/// The tokens of a line, separated by one space.
pub fn tokens_of<'a>(alloc: Global, text: &'a [u8]) -> Result<Vec<&'a [u8]>, AllocError>
    ensures { IfOk result (λ tokens. texts tokens.items ≡ tokens_of text.now) }
{
    text.split(|c| *c == b' ').collect(alloc)
}
