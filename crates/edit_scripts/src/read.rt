//! The reader of a whole script.
ghost use Rattle.std.specs.Prelude.{◌≡◌, ◌<◌, ◌+◌, ◌-◌, ◌∷◌, ◌^◌, ℕ, List, Ok, IfOk, IfErr, OnOk};
ghost use Rattle.std.specs.Prelude.{length, map};
ghost use Rattle.text_lines.specs.edit_rules.Read.{lines_read, read_script};
ghost use Rattle.text_lines.specs.Tells.{Tells};
ghost use Rattle.edit_scripts.specs.Walk.{read_on};
ghost use Rattle.edit_scripts.specs.View.{edit_of};

use crate::edit::Edit;
use crate::fault::EditFault;
use crate::line::read_line;
use crate::script::Script;
use std::alloc::Global;
use text_lines::EditKind;
use text_lines::lines::{Drops, Lines};

/// The edits so far with the numbers of their lines.
#[derive(Drop)]
pub struct Walk {
    pub edits: Vec<Edit>,
    pub lines: Vec<u32>,
}

impl Walk {
    // Takes a line; an empty one is skipped.
    #[tactic(auto, using(crate::proofs::Reading::take_edit, crate::proofs::Reading::line_told))]
    fn take(&mut self, alloc: Global, number: u32, text: &[u8]) -> Result<(), EditFault>
        ensures ok { OnOk result
            ((lines : List (List ℕ))
            → read_on self.new (number + 1) lines ≡ read_on self.old number (text.now ∷ lines)) }
        ensures fault { IfErr result
            (λ fault. (lines : List (List ℕ))
            → Tells (read_on self.old number (text.now ∷ lines)) fault) }
    {
        if text.is_empty() {
            return Ok(());
        }
        let edit = read_line(alloc, text).map_err(|fault| fault.at(number))?;
        self.edits.push(edit)?;
        self.lines.push(number)?;
        Ok(())
    }
}

// All lines that remain.
#[tactic(auto, using(crate::proofs::Reading::front_none, crate::proofs::Reading::read_to_end))]
fn walk_rest(alloc: Global, mut lines: Lines<'_>) -> Result<Walk, EditFault>
    ensures ok { IfOk result
        (λ w. lines_read lines.entry.number lines.entry.lines
        ≡ Ok (record { edits = map edit_of w.edits.items; lines = w.lines.items })) }
    ensures fault { IfErr result (Tells (lines_read lines.entry.number lines.entry.lines)) }
{
    let mut walk = Walk {
        edits: Vec::new(alloc),
        lines: Vec::new(alloc),
    };
    'reading: while let Some((number, text)) = lines.next() {
        walk.take(alloc, number, text)?;
    }
    Ok(walk)
}

/// The script that the text stands for. The answer is `At` exactly if the text has a fault of form,
/// with the first line that has one, counted from 1, and of its faults the one with the least
/// number. The answer `Memory` means out of memory, at any moment. The time is linear in the text.
#[tactic(auto, using(crate::proofs::Reading::typed, crate::proofs::Reading::untyped))]
pub fn read_script(alloc: Global, bytes: &[u8]) -> Result<Script, EditFault>
    requires { length bytes.now < 2 ^ 32 - 1 }
    ensures read { IfOk result (λ script. read_script bytes.now ≡ Ok script) }
    ensures fault { IfErr result (Tells (read_script bytes.now)) }
{
    let Some(lines) = Lines::behind_type(Drops::Return, bytes, b"file_type=PNS_edits_v1") else {
        return Err(EditFault::At {
            line: 1,
            kind: EditKind::FileType,
        });
    };
    let walk = walk_rest(alloc, lines)?;
    Ok(Script::from_lines(walk.edits, walk.lines))
}
