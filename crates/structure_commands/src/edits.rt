//! The commands `edit` and `undo`.
ghost use Rattle.std.specs.Prelude.{◌≡◌};
ghost use Rattle.command_files.specs.studio_rules.Reading.{TwoFilesSay};
ghost use Rattle.command_files.specs.studio_rules.Script.{OnScript};
ghost use Rattle.command_files.specs.studio_rules.Edits.{EditWork, UndoWork};
ghost use Rattle.command_files.specs.studio_rules.Ending.{Ends, Says};
ghost use Rattle.command_files.specs.studio_rules.Keeps.{Keeps};

use cert_check::Problem;
use command_files::say::say_made;
use command_files::{Outputs, Shelf, Sink, Status, edited_of, print_script, problem_of};
use std::alloc::Global;

fn say_edited<F: Shelf, K: Sink, E: Sink>(
    alloc: Global,
    problem: &Problem,
    script: &str,
    shelf: &mut F,
    out: &mut Outputs<K, E>,
) -> Status
    ensures ends { Ends
        (Says (OnScript EditWork (F.state shelf.old).held script.now problem.now)
        (λ other. other ≡ script.now) (F.state shelf.old) (F.state shelf.new)) out.old out.new
        result }
    ensures keeps { Keeps (F.state shelf.old) (F.state shelf.new) }
{
    match edited_of(alloc, shelf, out, script, problem) {
        Ok(edited) => say_made(out, edited.0.canonical_text(alloc)),
        Err(status) => status,
    }
}

/// Prints the canonical text of the file's problem after the edits of the script.
pub fn edit<F: Shelf, K: Sink, E: Sink>(
    alloc: Global,
    file: &str,
    script: &str,
    shelf: &mut F,
    out: &mut Outputs<K, E>,
) -> Status
    ensures ends { Ends
        (TwoFilesSay (OnScript EditWork) file.now script.now (F.state shelf.old)
        (F.state shelf.new)) out.old out.new result }
    ensures keeps { Keeps (F.state shelf.old) (F.state shelf.new) }
{
    match problem_of(alloc, shelf, out, file) {
        Ok(problem) => say_edited(alloc, &problem, script, shelf, out),
        Err(status) => status,
    }
}

fn say_inverse<F: Shelf, K: Sink, E: Sink>(
    alloc: Global,
    problem: &Problem,
    script: &str,
    shelf: &mut F,
    out: &mut Outputs<K, E>,
) -> Status
    ensures ends { Ends
        (Says (OnScript UndoWork (F.state shelf.old).held script.now problem.now)
        (λ other. other ≡ script.now) (F.state shelf.old) (F.state shelf.new)) out.old out.new
        result }
    ensures keeps { Keeps (F.state shelf.old) (F.state shelf.new) }
{
    match edited_of(alloc, shelf, out, script, problem) {
        Ok(edited) => say_made(out, print_script(alloc, &edited.1)),
        Err(status) => status,
    }
}

/// Prints the script that leads back from the file's problem after the edits of the script.
pub fn undo<F: Shelf, K: Sink, E: Sink>(
    alloc: Global,
    file: &str,
    script: &str,
    shelf: &mut F,
    out: &mut Outputs<K, E>,
) -> Status
    ensures ends { Ends
        (TwoFilesSay (OnScript UndoWork) file.now script.now (F.state shelf.old)
        (F.state shelf.new)) out.old out.new result }
    ensures keeps { Keeps (F.state shelf.old) (F.state shelf.new) }
{
    match problem_of(alloc, shelf, out, file) {
        Ok(problem) => say_inverse(alloc, &problem, script, shelf, out),
        Err(status) => status,
    }
}
