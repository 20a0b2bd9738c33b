//! A script file: it is read, judged and applied to a problem.
ghost use Rattle.std.specs.Prelude.{◌≡◌, ◌≤◌, ℕ, List, IfOk, IfErr, OnOk, length, string_bytes};
ghost use Rattle.studio_words.specs.studio_rules.Lines.{line};
ghost use Rattle.studio_words.specs.studio_rules.Reading.{AreHeld};
ghost use Rattle.studio_words.specs.studio_rules.Script.{IsEdited, ScriptFaults, edit_fault_line};
ghost use Rattle.studio_words.specs.studio_rules.Script.{edit_kind_word};
ghost use Rattle.command_files.specs.Script.{TellsEdits};
ghost use Rattle.studio_words.specs.studio_rules.Ending.{Ends, Says, Only, OrMemory};
ghost use Rattle.studio_words.specs.studio_rules.Keeps.{Keeps};
ghost use Rattle.studio_words.specs.studio_rules.declared.status.Status.TheVariants.{BadEdit};

use crate::file::bytes_of;
use crate::say::{say_memory, tell};
use pns_edits::{EditFault, EditKind, Script, apply, read_script};
use pns_text::Problem;
use std::alloc::{AllocError, Global};
use studio_words::{Format, Source, Status, fault};
use tree_text::{Outputs, Shelf, Sink};

/// The most bytes of a script file.
const SCRIPT_LIMIT: u64 = 4_194_304;

/// The word for a kind of fault.
fn edit_kind_word(kind: EditKind) -> &'static str
    ensures { result.now ≡ edit_kind_word kind }
{
    match kind {
        EditKind::FileType => "FileType",
        EditKind::BadLine => "BadLine",
        EditKind::BadName => "BadName",
        EditKind::BadNumber => "BadNumber",
        EditKind::TooFine => "TooFine",
        EditKind::TooLarge => "TooLarge",
        EditKind::Sign => "Sign",
        EditKind::BadTerms => "BadTerms",
        EditKind::UnknownName => "UnknownName",
        EditKind::DoubleName => "DoubleName",
        EditKind::BadPlace => "BadPlace",
        EditKind::LowAboveHigh => "LowAboveHigh",
        EditKind::InUse => "InUse",
        EditKind::NoProduct => "NoProduct",
        EditKind::TooMany => "TooMany",
        EditKind::BadMembers => "BadMembers",
    }
}

fn edit_fault_line(alloc: Global, number: u32, kind: EditKind) -> Result<String, AllocError>
    ensures { IfOk result (λ text. string_bytes text ≡ line (edit_fault_line number kind)) }
{
    let mut text = String::from_str(alloc, "script line ")?;
    write!(text, "{number}")?;
    text.push(' ')?;
    text.push_str(edit_kind_word(kind))?;
    text.push('\n')?;
    Ok(text)
}

fn say_edit_fault<K: Sink, E: Sink>(
    alloc: Global,
    out: &mut Outputs<K, E>,
    text: &[u8],
    number: u32,
    kind: EditKind,
) -> Status
    ensures { Ends (OrMemory (Only BadEdit (line (edit_fault_line number kind)))) out.old out.new
        result }
{
    let source = Source {
        text,
        format: Format::Script,
    };
    let notes = fault(alloc, source, number, edit_kind_word(kind));
    match edit_fault_line(alloc, number, kind) {
        Ok(text) => tell(out, text.as_bytes(), notes.bytes(), Status::BadEdit),
        Err(_) => say_memory(out),
    }
}

/// The problem after the edits of the text, and the script that leads from it back. Or the first
/// fault of form, or else the first of meaning.
pub(crate) fn edited_by(
    alloc: Global,
    text: &[u8],
    problem: &Problem,
) -> Result<(Problem, Script), EditFault>
    requires { length text.now ≤ 4194304 }
    ensures edited { IfOk result (λ edited. IsEdited problem.now text.now edited.0 edited.1) }
    ensures fault { IfErr result (TellsEdits problem.now text.now) }
{
    match read_script(alloc, text) {
        Ok(script) => match apply(alloc, problem, &script) {
            Ok(edited) => Ok(edited),
            Err(fault) => Err(fault),
        },
        Err(fault) => Err(fault),
    }
}

/// Reads the file, judges its text as a script and applies it to the problem. If that gives no
/// problem, the text that says why was put, and the status is that of the call.
pub fn edited_of<F: Shelf, K: Sink, E: Sink>(
    alloc: Global,
    shelf: &mut F,
    out: &mut Outputs<K, E>,
    name: &str,
    problem: &Problem,
) -> Result<(Problem, Script), Status>
    ensures edited { IfOk result
        (λ edited. (file : List ℕ) × AreHeld ((F.state shelf.old).held name.now) file
        × IsEdited problem.now file edited.0 edited.1) }
    ensures silent { OnOk result (out.new ≡ out.old) }
    ensures keeps { Keeps (F.state shelf.old) (F.state shelf.new) }
    ensures told { IfErr result
        (Ends
        (Says (ScriptFaults (F.state shelf.old).held name.now problem.now)
        (λ other. other ≡ name.now) (F.state shelf.old) (F.state shelf.new)) out.old out.new) }
{
    let bytes = match bytes_of(alloc, shelf, out, name, SCRIPT_LIMIT) {
        Ok(bytes) => bytes,
        Err(status) => return Err(status),
    };
    match edited_by(alloc, &bytes, problem) {
        Ok(edited) => Ok(edited),
        Err(EditFault::At { line, kind }) => Err(say_edit_fault(alloc, out, &bytes, line, kind)),
        Err(EditFault::Memory) => Err(say_memory(out)),
    }
}
