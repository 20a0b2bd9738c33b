//! The command `lint`.
ghost use Rattle.std.specs.Prelude.{◌≡◌, ℕ, List};
ghost use Rattle.command_files.specs.studio_rules.Reading.{GivesProblem, TextSays};
ghost use Rattle.command_files.specs.studio_rules.Lint.{LintWork};
ghost use Rattle.command_files.specs.studio_rules.Ending.{Ends, Tells};
ghost use Rattle.command_files.specs.studio_rules.Keeps.{Keeps};

use crate::lint_text;
use cert_check::Problem;
use command_files::say::{say_memory, say_text};
use command_files::{Outputs, Shelf, Sink, Status, plant_of};
use std::alloc::Global;

fn say_warnings<K: Sink, E: Sink>(
    alloc: Global,
    out: &mut Outputs<K, E>,
    problem: &Problem,
    bytes: &[u8],
) -> Status
    requires { GivesProblem bytes.now problem.now }
    ensures { Ends (Tells (LintWork bytes.now problem.now)) out.old out.new result }
{
    match lint_text(alloc, problem, bytes) {
        Ok(text) => say_text(out, &text, Status::Done),
        Err(_) => say_memory(out),
    }
}

/// Prints what looks odd in the plant of the file.
pub fn lint<F: Shelf, K: Sink, E: Sink>(
    alloc: Global,
    file: &str,
    shelf: &mut F,
    out: &mut Outputs<K, E>,
) -> Status
    ensures ends { Ends (TextSays LintWork file.now (F.state shelf.old) (F.state shelf.new)) out.old
        out.new result }
    ensures keeps { Keeps (F.state shelf.old) (F.state shelf.new) }
{
    match plant_of(alloc, shelf, out, file) {
        Ok((bytes, problem)) => say_warnings(alloc, out, &problem, &bytes),
        Err(status) => status,
    }
}
