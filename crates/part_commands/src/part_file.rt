//! The files of parts: each is read and judged by its grammar.
ghost use Rattle.std.specs.Prelude.{◌≡◌, ◌++◌, ℕ, List, IfOk, IfErr, OnOk, codes, map};
ghost use Rattle.std.specs.Prelude.{string_bytes};
ghost use Rattle.std.specs.List.{Contains};
ghost use Rattle.network_commands.specs.problem_rules.Each.{Each};
ghost use Rattle.network_commands.specs.studio_rules.Lines.{line};
ghost use Rattle.network_commands.specs.tree_text_rules.PartSpelling.{KnowsPart};
ghost use Rattle.network_commands.specs.studio_rules.Reading.{AreHeld};
ghost use Rattle.network_commands.specs.studio_rules.PartFile.{GivesPart, PartFaults, GiveParts};
ghost use Rattle.network_commands.specs.studio_rules.PartFile.{FirstFault};
ghost use Rattle.network_commands.specs.studio_rules.PartFile.{are_several, part_words};
ghost use Rattle.network_commands.specs.studio_rules.PartFile.{part_fault_line};
ghost use Rattle.network_commands.specs.studio_rules.Ending.{Ends, Says, Only, OrMemory};
ghost use Rattle.network_commands.specs.studio_rules.Keeps.{Keeps};
ghost use Rattle.network_commands.specs.studio_rules.declared.status.Status.TheVariants.{BadTree};

use network_commands::say::{say_memory, tell_made};
use network_commands::{
    Format, Outputs, Part, Problem, Shelf, Sink, Source, Status, TreeFault, TreeKind, bytes_of,
    fault, read_part, tree_kind_word,
};
use std::alloc::{AllocError, Global};

/// The most bytes of a part file.
const PART_LIMIT: u64 = 268_435_456;

/// The words by which a line names a part: with the name of its file, if there are several.
pub(crate) fn push_part(text: &mut String, several: bool, name: &str) -> Result<(), AllocError>
    ensures { OnOk result
        (string_bytes text.new ≡ string_bytes text.old ++ part_words several name.now) }
{
    text.push_str("part")?;
    if several {
        text.push(' ')?;
        text.push_str(name)?;
    }
    Ok(())
}

fn part_fault_line(
    alloc: Global,
    several: bool,
    name: &str,
    number: u32,
    kind: TreeKind,
) -> Result<String, AllocError>
    ensures { IfOk result
        (λ text. string_bytes text ≡ line (part_fault_line several name.now number kind)) }
{
    let mut text = String::new(alloc);
    push_part(&mut text, several, name)?;
    text.push_str(" line ")?;
    write!(text, "{number}")?;
    text.push(' ')?;
    text.push_str(tree_kind_word(kind))?;
    text.push('\n')?;
    Ok(text)
}

// Reads the file, and judges its text as a part for the problem. If that gives none, the text that
// says why is printed, and `Err` has the status of the call.
fn part_of<F: Shelf, K: Sink, E: Sink>(
    alloc: Global,
    shelf: &mut F,
    out: &mut Outputs<K, E>,
    several: bool,
    name: &str,
    problem: &Problem,
) -> Result<Part, Status>
    ensures part { IfOk result
        (λ part. (file : List ℕ) × AreHeld ((F.state shelf.old).held name.now) file
        × GivesPart problem.now file part) }
    ensures known { IfOk result (KnowsPart problem.now) }
    ensures silent { OnOk result (out.new ≡ out.old) }
    ensures keeps { Keeps (F.state shelf.old) (F.state shelf.new) }
    ensures told { IfErr result
        (Ends
        (Says (PartFaults several (F.state shelf.old).held name.now problem.now)
        (λ other. other ≡ name.now) (F.state shelf.old) (F.state shelf.new)) out.old out.new) }
{
    let bytes = match bytes_of(alloc, shelf, out, name, PART_LIMIT) {
        Ok(bytes) => bytes,
        Err(status) => return Err(status),
    };
    match read_part(alloc, problem, &bytes) {
        Ok(part) => Ok(part),
        Err(TreeFault::At { line, kind }) => {
            let source = Source {
                text: &bytes,
                format: Format::Part,
            };
            let notes = fault(alloc, source, line, tree_kind_word(kind));
            let first = part_fault_line(alloc, several, name, line, kind);
            Err(tell_made(out, first, notes.bytes(), Status::BadTree))
        }
        Err(TreeFault::Memory) => Err(say_memory(out)),
    }
}

/// Reads the files, and judges the text of each as a part for the problem, in order. If one gives
/// none, the text that says why is printed, and `Err` has the status of the call.
pub(crate) fn parts_of<F: Shelf, K: Sink, E: Sink>(
    alloc: Global,
    shelf: &mut F,
    out: &mut Outputs<K, E>,
    names: &[String],
    problem: &Problem,
) -> Result<Vec<Part>, Status>
    ensures parts { IfOk result
        (λ parts. GiveParts (F.state shelf.old).held problem.now (map string_bytes names.now)
        parts.items) }
    ensures known { IfOk result (λ parts. Each (KnowsPart problem.now) parts.items) }
    ensures silent { OnOk result (out.new ≡ out.old) }
    ensures keeps { Keeps (F.state shelf.old) (F.state shelf.new) }
    ensures told { IfErr result
        (Ends
        (Says (FirstFault (F.state shelf.old).held (map string_bytes names.now) problem.now)
        (Contains (map string_bytes names.now))
        (F.state shelf.old) (F.state shelf.new)) out.old out.new) }
{
    let several = 1 < names.len();
    let mut parts = Vec::new(alloc);
    'reading: for name in names {
        match part_of(alloc, shelf, out, several, name.as_str(), problem) {
            Ok(part) => {
                let Ok(()) = parts.push(part) else {
                    return Err(say_memory(out));
                };
            }
            Err(status) => return Err(status),
        }
    }
    Ok(parts)
}
