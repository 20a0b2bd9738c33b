//! A tree file: it is read and judged by its grammar.
ghost use Rattle.std.specs.Prelude.{◌≡◌, ◌<◌, ◌^◌, ℕ, List, IfOk, IfErr, OnOk, length};
ghost use Rattle.std.specs.Prelude.{string_bytes};
ghost use Rattle.tree_reading.specs.tree_rules.Known.{KnowsClaim, KnowsTree};
ghost use Rattle.tree_reading.specs.branch_tree.View.{claim_of};
ghost use Rattle.tree_reading.specs.Said.{said_by};
ghost use Rattle.studio_words.specs.studio_rules.Lines.{line};
ghost use Rattle.studio_words.specs.studio_rules.Reading.{AreHeld};
ghost use Rattle.studio_words.specs.studio_rules.HeadedFile.{GivesHeaded, HeadedFaults};
ghost use Rattle.studio_words.specs.studio_rules.TreeFile.{GivesTree, TreeFaults, tree_fault_line};
ghost use Rattle.studio_words.specs.studio_rules.TreeFile.{tree_kind_word};
ghost use Rattle.studio_words.specs.studio_rules.Ending.{Ends, Says, Only, OrMemory};
ghost use Rattle.studio_words.specs.studio_rules.Keeps.{Keeps};
ghost use Rattle.studio_words.specs.studio_rules.declared.status.Status.TheVariants.{BadTree};

use crate::file::bytes_of;
use crate::say::{say_memory, tell};
use pns_text::Problem;
use std::alloc::{AllocError, Global};
use studio_words::{Format, Source, Status, fault};
use tree_reading::{Claim, Headed, Tree, TreeFault, TreeKind, read_headed, read_tree};
use tree_text::{Outputs, Shelf, Sink};

/// The most bytes of a tree file.
const TREE_LIMIT: u64 = 268_435_456;

/// The word for a kind of fault.
pub fn tree_kind_word(kind: TreeKind) -> &'static str
    ensures { result.now ≡ tree_kind_word kind }
{
    match kind {
        TreeKind::FileType => "FileType",
        TreeKind::BadLine => "BadLine",
        TreeKind::UnknownName => "UnknownName",
        TreeKind::BadNumber => "BadNumber",
        TreeKind::Order => "Order",
        TreeKind::WrongCount => "WrongCount",
        TreeKind::MoreNodes => "MoreNodes",
        TreeKind::FewerNodes => "FewerNodes",
        TreeKind::AfterEnd => "AfterEnd",
    }
}

fn tree_fault_line(alloc: Global, number: u32, kind: TreeKind) -> Result<String, AllocError>
    ensures { IfOk result (λ text. string_bytes text ≡ line (tree_fault_line number kind)) }
{
    let mut text = String::from_str(alloc, "tree line ")?;
    write!(text, "{number}")?;
    text.push(' ')?;
    text.push_str(tree_kind_word(kind))?;
    text.push('\n')?;
    Ok(text)
}

/// Puts the first fault of the text of a tree or of a ranking: its line and its kind.
pub fn say_tree_fault<K: Sink, E: Sink>(
    alloc: Global,
    out: &mut Outputs<K, E>,
    source: Source<'_>,
    number: u32,
    kind: TreeKind,
) -> Status
    ensures { Ends (OrMemory (Only BadTree (line (tree_fault_line number kind)))) out.old out.new
        result }
{
    let notes = fault(alloc, source, number, tree_kind_word(kind));
    match tree_fault_line(alloc, number, kind) {
        Ok(text) => tell(out, text.as_bytes(), notes.bytes(), Status::BadTree),
        Err(_) => say_memory(out),
    }
}

/// Reads the file and judges its text as a claim and a tree for the problem. If that gives none,
/// the text that says why was put, and the status is that of the call.
pub fn tree_of<F: Shelf, K: Sink, E: Sink>(
    alloc: Global,
    shelf: &mut F,
    out: &mut Outputs<K, E>,
    name: &str,
    problem: &Problem,
) -> Result<(Claim, Tree), Status>
    ensures tree { IfOk result
        (λ found. (file : List ℕ) × AreHeld ((F.state shelf.old).held name.now) file
        × GivesTree problem.now file (claim_of found.0) found.1) }
    ensures few { IfOk result (λ found. length found.1 < 2 ^ 32) }
    ensures known { IfOk result
        (λ found. KnowsClaim problem.now (claim_of found.0) × KnowsTree problem.now found.1) }
    ensures silent { OnOk result (out.new ≡ out.old) }
    ensures keeps { Keeps (F.state shelf.old) (F.state shelf.new) }
    ensures told { IfErr result
        (Ends
        (Says (TreeFaults (F.state shelf.old).held name.now problem.now) (λ other. other ≡ name.now)
        (F.state shelf.old) (F.state shelf.new)) out.old out.new) }
{
    let bytes = match bytes_of(alloc, shelf, out, name, TREE_LIMIT) {
        Ok(bytes) => bytes,
        Err(status) => return Err(status),
    };
    match read_tree(alloc, problem, &bytes) {
        Ok((claim, tree, _)) => Ok((claim, tree)),
        Err(TreeFault::At { line, kind }) => {
            let source = Source {
                text: &bytes,
                format: Format::Tree,
            };
            Err(say_tree_fault(alloc, out, source, line, kind))
        }
        Err(TreeFault::Memory) => Err(say_memory(out)),
    }
}

/// The same with the head that the tree may have.
pub fn headed_of<F: Shelf, K: Sink, E: Sink>(
    alloc: Global,
    shelf: &mut F,
    out: &mut Outputs<K, E>,
    name: &str,
    problem: &Problem,
) -> Result<Headed, Status>
    ensures tree { IfOk result
        (λ found. (file : List ℕ) × AreHeld ((F.state shelf.old).held name.now) file
        × GivesHeaded problem.now file (said_by found)) }
    ensures few { IfOk result (λ found. length found.tree < 2 ^ 32) }
    ensures silent { OnOk result (out.new ≡ out.old) }
    ensures keeps { Keeps (F.state shelf.old) (F.state shelf.new) }
    ensures told { IfErr result
        (Ends
        (Says (HeadedFaults (F.state shelf.old).held name.now problem.now)
        (λ other. other ≡ name.now) (F.state shelf.old) (F.state shelf.new)) out.old out.new) }
{
    let bytes = match bytes_of(alloc, shelf, out, name, TREE_LIMIT) {
        Ok(bytes) => bytes,
        Err(status) => return Err(status),
    };
    match read_headed(alloc, problem, &bytes) {
        Ok(found) => Ok(found),
        Err(TreeFault::At { line, kind }) => {
            let source = Source {
                text: &bytes,
                format: Format::Tree,
            };
            Err(say_tree_fault(alloc, out, source, line, kind))
        }
        Err(TreeFault::Memory) => Err(say_memory(out)),
    }
}
