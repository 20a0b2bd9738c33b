//! Laws over the definitions that contracts of this crate cite. Each is an empty function, for the
//! proofs of callers.

ghost use Rattle.link_lists.specs.Lists.{RelinkUndoesUnlink, UnlinkKeepsApart};

/// After a cell is unlinked and relinked, the lists and the stack are as they were.
pub fn relink_undoes_unlink()
    ensures { RelinkUndoesUnlink }
{}

/// If each cell is in at most one list, and there once, this is still so after a cell was unlinked.
pub fn unlink_keeps_apart()
    ensures { UnlinkKeepsApart }
{}
