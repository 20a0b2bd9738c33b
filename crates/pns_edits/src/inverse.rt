//! The edits that undo one edit.
ghost use Rattle.std.specs.Prelude.{◌≡◌, ◌∷◌, [], map, ◌++◌, reverse, OnOk};
ghost use Rattle.edit_scripts.specs.View.{edit_of};
ghost use Rattle.pns_edits.specs.Inverse.{edits_of};

use edit_scripts::Edit;
use std::alloc::AllocError;

/// An edit and, if it adds a unit that had investment costs, the edit that gives them back.
#[derive(Drop)]
pub(crate) struct Inverse {
    pub edit: Edit,
    pub investment: Option<Edit>,
}

impl Inverse {
    pub(crate) fn of(edit: Edit) -> Inverse
        ensures { edits_of result ≡ edit_of edit ∷ [] }
    {
        Inverse {
            edit,
            investment: None,
        }
    }
}

/// Puts the edits at the end of a list that will be read from its end.
pub(crate) fn push_inverse(back: &mut Vec<Edit>, inverse: Inverse) -> Result<(), AllocError>
    ensures { OnOk result
        (map edit_of back.new.items ≡ map edit_of back.old.items ++ reverse (edits_of inverse)) }
{
    let Inverse { edit, investment } = inverse;
    if let Some(investment) = investment {
        back.push(investment)?;
    }
    back.push(edit)?;
    Ok(())
}
