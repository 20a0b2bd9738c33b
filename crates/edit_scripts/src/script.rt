//! Scripts: edits with the numbers of their lines.
ghost use Rattle.std.specs.Prelude.{◌≡◌, ◌<◌, ◌-◌, ◌^◌, IfOk, length, map};
ghost use Rattle.text_lines.specs.problem_rules.Each.{Each};
ghost use Rattle.text_lines.specs.edit_rules.Formed.{IsFormed, IsFormedScript, lines_from};
ghost use Rattle.text_lines.specs.edit_rules.Formed.{script_of};
ghost use Rattle.edit_scripts.specs.View.{edit_of};

use crate::edit::Edit;
use std::alloc::{AllocError, Global};
use std::marker::Model;

/// Edits without a fault of form, each with the number of its line; these numbers rise. Contracts
/// see both lists.
#[derive(Drop)]
pub struct Script {
    edits: Vec<Edit>,
    lines: Vec<u32>,
}

impl Model for Script {
    ghost use Rattle.std.specs.Prelude.{map};
    ghost use Rattle.text_lines.specs.edit_rules.Edit as rules;
    ghost use Rattle.text_lines.specs.edit_rules.Formed.{IsFormedScript};
    ghost use Rattle.edit_scripts.specs.View.{edit_of};

    ghost Value = { rules.Script };

    ghost view = { λ s. record { edits = map edit_of s.edits.items; lines = s.lines.items } };

    ghost invariant = { λ s. IsFormedScript
        (record { edits = map edit_of s.edits.items; lines = s.lines.items }) };
}

// The numbers of as many lines as there are edits, from 2 on.
fn lines_of(alloc: Global, edits: &[Edit]) -> Result<Vec<u32>, AllocError>
    requires { length edits.now < 2 ^ 32 - 1 }
    ensures { IfOk result (λ lines. lines.items ≡ lines_from 2 (map edit_of edits.now)) }
{
    let mut lines = Vec::new(alloc);
    'numbering: for (i, _edit) in edits.iter().enumerate() {
        lines.push(i as u32 + 2)?;
    }
    Ok(lines)
}

impl Script {
    /// The script of these edits, which are at lines 2, 3 and so on.
    #[tactic(auto, using(crate::proofs::ScriptLines::script_formed))]
    pub fn of(alloc: Global, edits: Vec<Edit>) -> Result<Script, AllocError>
        requires formed { Each IsFormed (map edit_of edits.items) }
        requires few { length edits.items < 2 ^ 32 - 1 }
        ensures { IfOk result (λ script. script ≡ script_of (map edit_of edits.items)) }
    {
        let lines = lines_of(alloc, &edits)?;
        Ok(Script { edits, lines })
    }

    /// The script of edits that are at these lines.
    pub(crate) fn from_lines(edits: Vec<Edit>, lines: Vec<u32>) -> Script
        requires { IsFormedScript
            (record { edits = map edit_of edits.items; lines = lines.items }) }
        ensures { result ≡ record { edits = map edit_of edits.items; lines = lines.items } }
    {
        Script { edits, lines }
    }

    /// The edits in order.
    pub fn edits(&self) -> &[Edit]
        ensures { map edit_of result.now ≡ self.now.edits }
    {
        &self.edits
    }

    /// The numbers of the edits' lines, counted from 1.
    pub fn lines(&self) -> &[u32]
        ensures { result.now ≡ self.now.lines }
    {
        &self.lines
    }

    /// No edit has a fault of form, and the line numbers rise. A call gives this to a proof, and
    /// does nothing.
    pub fn is_formed(&self)
        ensures { IsFormedScript self.now }
    {
        let _count = self.edits.len();
    }
}
