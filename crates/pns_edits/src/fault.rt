//! Tests that an edit has to pass.
ghost use Rattle.std.specs.Prelude.{◌≡◌, true, false, OnOk, IfErr};
ghost use Rattle.edit_scripts.specs.text_lines.declared.fault.LineFault.TheVariants.{Kind};

use edit_scripts::{EditKind, LineFault};

/// Refuses an edit if its test finds this fault.
pub(crate) fn refuse_if(fails: bool, kind: EditKind) -> Result<(), LineFault>
    ensures clear { OnOk result (fails ≡ false) }
    ensures fault { IfErr result (λ fault. (fails ≡ true) × (fault ≡ Kind kind)) }
{
    if fails {
        Err(LineFault::Kind(kind))
    } else {
        Ok(())
    }
}
