//! `edit` with the script that `undo` prints gives the plant back.
ghost use Rattle.call_laws.specs.EditLaws.{EditIsUndone};
ghost use Rattle.call_laws.specs.EditCalls.{CallGivesBack};

use crate::texts::canonical_is_short;
use studio::{canonical_reads, printed_scripts_read, scripts_are_undone};

/// `edit` by what `undo` printed gives the plant back. It prints the canonical text of the plant,
/// or that the script is too long.
pub fn edit_is_undone()
    ensures { EditIsUndone }
{
    canonical_is_short();
    canonical_reads();
    printed_scripts_read();
    scripts_are_undone();
}

/// A call of `edit` by what calls of `edit` and `undo` put out gives the plant back, or says that
/// the script is too long.
pub fn call_gives_back()
    ensures { CallGivesBack }
{
    edit_is_undone();
}
