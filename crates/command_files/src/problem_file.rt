//! A problem file: it is read and judged.
ghost use Rattle.std.specs.Prelude.{◌≡◌, ℕ, List, IfOk, IfErr, OnOk, string_bytes};
ghost use Rattle.studio_words.specs.studio_rules.Lines.{line};
ghost use Rattle.studio_words.specs.studio_rules.Reading.{AreHeld, GivesProblem, FileFaults};
ghost use Rattle.studio_words.specs.studio_rules.Reading.{fault_line};
ghost use Rattle.studio_words.specs.studio_rules.Reading.{kind_word};
ghost use Rattle.studio_words.specs.studio_rules.Ending.{Ends, Says, Only, OrMemory};
ghost use Rattle.studio_words.specs.studio_rules.Keeps.{Keeps};
ghost use Rattle.studio_words.specs.studio_rules.declared.status.Status.TheVariants.{BadProblem};

use crate::file::bytes_of;
use crate::say::{say_memory, tell};
use pns_text::{Problem, TextFault, TextKind, read_problem};
use std::alloc::{AllocError, Global};
use studio_words::{Format, Source, Status, fault};
use tree_text::{Outputs, Shelf, Sink};

/// The most bytes of a problem file.
const FILE_LIMIT: u64 = 4_194_304;

/// The word for a kind of fault.
fn kind_word(kind: TextKind) -> &'static str
    ensures { result.now ≡ kind_word kind }
{
    match kind {
        TextKind::FileType => "FileType",
        TextKind::UnknownSection => "UnknownSection",
        TextKind::DoubleSection => "DoubleSection",
        TextKind::BadLine => "BadLine",
        TextKind::BadName => "BadName",
        TextKind::UnknownKey => "UnknownKey",
        TextKind::DoubleKey => "DoubleKey",
        TextKind::BadNumber => "BadNumber",
        TextKind::TooFine => "TooFine",
        TextKind::TooLarge => "TooLarge",
        TextKind::Negative => "Negative",
        TextKind::UnknownKind => "UnknownKind",
        TextKind::ZeroRate => "ZeroRate",
        TextKind::DoubleTerm => "DoubleTerm",
        TextKind::BothSides => "BothSides",
        TextKind::EmptySide => "EmptySide",
        TextKind::DoubleMaterial => "DoubleMaterial",
        TextKind::DoubleUnit => "DoubleUnit",
        TextKind::DoubleRates => "DoubleRates",
        TextKind::TooMany => "TooMany",
        TextKind::LowAboveHigh => "LowAboveHigh",
        TextKind::UnknownMaterial => "UnknownMaterial",
        TextKind::NoRates => "NoRates",
        TextKind::NoProduct => "NoProduct",
        TextKind::DoubleExclusion => "DoubleExclusion",
        TextKind::DoubleMember => "DoubleMember",
        TextKind::FewMembers => "FewMembers",
        TextKind::UnknownUnit => "UnknownUnit",
        TextKind::BadPayout => "BadPayout",
    }
}

fn fault_line(alloc: Global, number: u32, kind: TextKind) -> Result<String, AllocError>
    ensures { IfOk result (λ text. string_bytes text ≡ line (fault_line number kind)) }
{
    let mut text = String::from_str(alloc, "problem line ")?;
    write!(text, "{number}")?;
    text.push(' ')?;
    text.push_str(kind_word(kind))?;
    text.push('\n')?;
    Ok(text)
}

fn say_fault<K: Sink, E: Sink>(
    alloc: Global,
    out: &mut Outputs<K, E>,
    text: &[u8],
    number: u32,
    kind: TextKind,
) -> Status
    ensures { Ends (OrMemory (Only BadProblem (line (fault_line number kind)))) out.old
        out.new
        result }
{
    let source = Source {
        text,
        format: Format::Plant,
    };
    let notes = fault(alloc, source, number, kind_word(kind));
    match fault_line(alloc, number, kind) {
        Ok(text) => tell(out, text.as_bytes(), notes.bytes(), Status::BadProblem),
        Err(_) => say_memory(out),
    }
}

/// Reads the file and judges its text: its bytes, and the problem that they give. If they give
/// none, the text that says why was put, and the status is that of the call.
pub fn plant_of<F: Shelf, K: Sink, E: Sink>(
    alloc: Global,
    shelf: &mut F,
    out: &mut Outputs<K, E>,
    name: &str,
) -> Result<(Vec<u8>, Problem), Status>
    ensures held { IfOk result
        (λ plant. AreHeld ((F.state shelf.old).held name.now) plant.0.items) }
    ensures problem { IfOk result (λ plant. GivesProblem plant.0.items plant.1) }
    ensures silent { OnOk result (out.new ≡ out.old) }
    ensures keeps { Keeps (F.state shelf.old) (F.state shelf.new) }
    ensures told { IfErr result
        (Ends
        (Says (FileFaults (F.state shelf.old).held name.now) (λ other. other ≡ name.now)
        (F.state shelf.old) (F.state shelf.new)) out.old out.new) }
{
    let bytes = match bytes_of(alloc, shelf, out, name, FILE_LIMIT) {
        Ok(bytes) => bytes,
        Err(status) => return Err(status),
    };
    match read_problem(alloc, &bytes) {
        Ok(problem) => {
            problem.is_valid();
            Ok((bytes, problem))
        }
        Err(TextFault::At { line, kind }) => Err(say_fault(alloc, out, &bytes, line, kind)),
        Err(TextFault::Memory) => Err(say_memory(out)),
    }
}

/// The same without the bytes.
pub fn problem_of<F: Shelf, K: Sink, E: Sink>(
    alloc: Global,
    shelf: &mut F,
    out: &mut Outputs<K, E>,
    name: &str,
) -> Result<Problem, Status>
    ensures problem { IfOk result
        (λ p. (file : List ℕ) × AreHeld ((F.state shelf.old).held name.now) file
        × GivesProblem file p) }
    ensures silent { OnOk result (out.new ≡ out.old) }
    ensures keeps { Keeps (F.state shelf.old) (F.state shelf.new) }
    ensures told { IfErr result
        (Ends
        (Says (FileFaults (F.state shelf.old).held name.now) (λ other. other ≡ name.now)
        (F.state shelf.old) (F.state shelf.new)) out.old out.new) }
{
    match plant_of(alloc, shelf, out, name) {
        Ok((_, problem)) => Ok(problem),
        Err(status) => Err(status),
    }
}
