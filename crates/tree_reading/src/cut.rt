//! Places in a text.
ghost use Rattle.std.specs.Prelude.{◌≡◌, ◌<◌, ◌∷◌, ◌^◌, ◌-◌, [], suc, IfSome, IfNone, IfOk, IfErr};
ghost use Rattle.std.specs.Prelude.{length};
ghost use Rattle.tree_reading.specs.View.{line_of};
ghost use Rattle.tree_reading.specs.Place.{IsCut, IsBehind, lines_at};
ghost use Rattle.tree_reading.specs.Tells.{kind_at};

use crate::fault::{TreeFault, kind_at};
use crate::line::{Line, first_line};
use tree_text_rules::TreeKind;

/// A place in the bytes and its line number: the line begins there, or the bytes end there.
#[derive(Clone, Copy)]
pub struct Cut {
    pub at: usize,
    pub line: u32,
}

/// The line at this place, and the place after it. It is `None` if and only if no line is left.
pub fn line_at(bytes: &[u8], cut: Cut) -> Option<(Line<'_>, Cut)>
    requires cut { IsCut bytes.now cut }
    requires few { length bytes.now < 2 ^ 32 - 1 }
    ensures line { IfSome result
        (λ found. lines_at bytes.now cut ≡ line_of found.0 ∷ lines_at bytes.now found.1) }
    ensures cut { IfSome result (λ found. IsCut bytes.now found.1) }
    ensures number { IfSome result (λ found. found.1.line ≡ suc cut.line) }
    ensures later { IfSome result (λ found. cut.at < found.1.at) }
    ensures none { IfNone result (lines_at bytes.now cut ≡ []) }
{
    let rest = &bytes[cut.at..];
    if rest.is_empty() {
        return None;
    }
    let (line, size) = first_line(rest);
    let behind = Cut {
        at: cut.at + size,
        line: cut.line + 1,
    };
    Some((line, behind))
}

/// The line at this place, and the place after it. If no line is left, it is a bad line.
pub fn next_line(bytes: &[u8], cut: Cut) -> Result<(Line<'_>, Cut), TreeFault>
    requires cut { IsCut bytes.now cut }
    requires few { length bytes.now < 2 ^ 32 - 1 }
    ensures line { IfOk result
        (λ found. lines_at bytes.now cut ≡ line_of found.0 ∷ lines_at bytes.now found.1) }
    ensures behind { IfOk result (λ found. IsBehind bytes.now cut found.1) }
    ensures number { IfOk result (λ found. found.1.line ≡ suc cut.line) }
    ensures none { IfErr result
        (λ fault. (lines_at bytes.now cut ≡ []) × (fault ≡ kind_at cut.line TreeKind.BadLine)) }
{
    line_at(bytes, cut).ok_or(kind_at(cut, TreeKind::BadLine))
}
