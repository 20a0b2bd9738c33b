//! From the bytes of a table of ranges to its object.
ghost use Rattle.std.specs.Prelude.{◌≤◌, ℕ, List, length};
ghost use Rattle.network_commands.specs.studio_rules.RangesJson.{TableSays};
ghost use Rattle.network_commands.specs.studio_rules.Ending.{Ends, Tells};

use json_text::{read_table, table_json};
use network_commands::say::{say_made, say_memory};
use network_commands::{Format, Source, Status, say_tree_fault};
use rank_text::{Outputs, Problem, Sink, TreeFault};
use std::alloc::Global;

/// Prints the rows of the table, or its first fault.
pub(crate) fn say_table<K: Sink, E: Sink>(
    alloc: Global,
    out: &mut Outputs<K, E>,
    problem: &Problem,
    bytes: &[u8],
) -> Status
    requires { length bytes.now ≤ 268435456 }
    ensures { (name : List ℕ)
        → Ends (Tells (TableSays name problem.now bytes.now)) out.old out.new result }
{
    match read_table(alloc, problem, bytes) {
        Ok(rows) => say_made(out, table_json(alloc, problem, &rows)),
        Err(TreeFault::At { line, kind }) => {
            let source = Source {
                text: bytes,
                format: Format::Ranges,
            };
            say_tree_fault(alloc, out, source, line, kind)
        }
        Err(TreeFault::Memory) => say_memory(out),
    }
}
