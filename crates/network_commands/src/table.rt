//! The command `table`.
ghost use Rattle.std.specs.Prelude.{◌≡◌, ℕ, List, IfOk};
ghost use Rattle.verdicts.specs.tree_rules.Claim.{IsFeasible};
ghost use Rattle.command_files.specs.studio_rules.Lines.{text_of};
ghost use Rattle.command_files.specs.studio_rules.Reading.{TwoFilesSay};
ghost use Rattle.command_files.specs.studio_rules.HeadedFile.{AnyHead, OnHeaded};
ghost use Rattle.command_files.specs.studio_rules.Network.{OnNetwork};
ghost use Rattle.command_files.specs.studio_rules.Table.{AreTables, TableWork};
ghost use Rattle.command_files.specs.studio_rules.Ending.{Ends, Says};
ghost use Rattle.command_files.specs.studio_rules.Keeps.{Keeps};

use crate::network::{NetworkText, say_claimed};
use command_files::{Status, headed_of, problem_of};
use report_tables::{material_table, unit_table};
use std::alloc::{AllocError, Global};
use verdicts::{Headed, Network, Outputs, Problem, Shelf, Sink, Site};

/// The two tables, with an empty line between them.
pub(crate) fn tables(
    alloc: Global,
    site: &Site<'_>,
    network: &Network,
) -> Result<Vec<u8>, AllocError>
    requires feasible { IsFeasible site.now network.now }
    ensures { IfOk result (λ bytes. (lines : List (List ℕ)) × AreTables site.now network.now lines
        × (bytes.items ≡ text_of lines)) }
{
    network.is_sized();
    let mut bytes = unit_table(alloc, site.problem(), network)?;
    let materials = material_table(alloc, site, network)?;
    bytes.push(b'\n')?;
    bytes.extend_from_slice(&materials)?;
    Ok(bytes)
}

fn say_tree<F: Shelf, K: Sink, E: Sink>(
    alloc: Global,
    problem: &Problem,
    name: &str,
    shelf: &mut F,
    out: &mut Outputs<K, E>,
) -> Status
    ensures ends { Ends
        (Says
        (OnHeaded (AnyHead (OnNetwork TableWork)) (F.state shelf.old).held name.now problem.now)
        (λ other. other ≡ name.now) (F.state shelf.old) (F.state shelf.new)) out.old out.new
        result }
    ensures keeps { Keeps (F.state shelf.old) (F.state shelf.new) }
{
    match headed_of(alloc, shelf, out, name, problem) {
        Ok(text) => {
            let Headed { claim, tree, .. } = text;
            say_claimed(alloc, NetworkText::Table, out, problem, claim, &tree)
        }
        Err(status) => status,
    }
}

/// Prints the network that the tree of the one file claims on the problem of the other as two
/// tables.
pub fn table<F: Shelf, K: Sink, E: Sink>(
    alloc: Global,
    file: &str,
    tree: &str,
    shelf: &mut F,
    out: &mut Outputs<K, E>,
) -> Status
    ensures ends { Ends
        (TwoFilesSay (OnHeaded (AnyHead (OnNetwork TableWork))) file.now tree.now
        (F.state shelf.old) (F.state shelf.new)) out.old out.new result }
    ensures keeps { Keeps (F.state shelf.old) (F.state shelf.new) }
{
    match problem_of(alloc, shelf, out, file) {
        Ok(problem) => say_tree(alloc, &problem, tree, shelf, out),
        Err(status) => status,
    }
}
