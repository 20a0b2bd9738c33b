//! Why a text stands for no tree.
ghost use Rattle.std.specs.Prelude.{◌≡◌, Ok, IfOk, IfErr};
ghost use Rattle.tree_reading.specs.Tells.{IsOfLine, kind_at};

use crate::cut::Cut;
use text_lines::fault;
use tree_text_rules::TreeKind;

/// The first fault of a text, or out of memory, which says nothing of the text.
pub type TreeFault = fault::TextFault<TreeKind>;

/// The fault of this kind of the line at this place.
pub fn kind_at(cut: Cut, kind: TreeKind) -> TreeFault
    ensures { result ≡ kind_at cut.line kind }
{
    TreeFault::At {
        line: cut.line,
        kind,
    }
}

/// What was read of the line at this place, or its fault.
pub fn at_line<A: Drop>(cut: Cut, read: Result<A, TreeKind>) -> Result<A, TreeFault>
    ensures ok { IfOk result (λ found. read ≡ Ok found) }
    ensures fault { IfErr result (IsOfLine cut.line read) }
{
    match read {
        Ok(found) => Ok(found),
        Err(kind) => Err(kind_at(cut, kind)),
    }
}
