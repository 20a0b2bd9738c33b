//! The command `migrate`.
ghost use Rattle.std.specs.Prelude.{◌≡◌, ◌≤◌};
ghost use Rattle.command_files.specs.studio_rules.Reading.{FileSays};
ghost use Rattle.command_files.specs.studio_rules.Migrate.{MigrateWork};
ghost use Rattle.command_files.specs.studio_rules.Ending.{Ends, Tells};
ghost use Rattle.command_files.specs.studio_rules.Keeps.{Keeps};

use cert_check::Problem;
use command_files::say::{say_made, say_memory, tell, tell_with};
use command_files::{
    MigrateFault, Outputs, Shelf, Sink, Status, has_payout, out_of_range, print_script, problem_of,
};
use std::alloc::Global;

fn say_migration<K: Sink, E: Sink>(
    alloc: Global,
    out: &mut Outputs<K, E>,
    problem: &Problem,
    years: u64,
) -> Status
    requires { (1 ≤ years) × (years ≤ 100) }
    ensures { Ends (Tells (MigrateWork years problem.now)) out.old out.new result }
{
    match command_files::migrate(alloc, problem, years as u32) {
        Ok(script) => say_made(out, print_script(alloc, &script)),
        Err(MigrateFault::HasPayout) => {
            let notes = has_payout(alloc);
            tell(out, b"has payout\n", notes.bytes(), Status::NotMigrated)
        }
        Err(MigrateFault::OutOfRange { unit }) => {
            let notes = out_of_range(alloc);
            let name = problem.unit_name(unit);
            let words = ("out of range ", name);
            tell_with(alloc, out, words, notes.bytes(), Status::NotMigrated)
        }
        Err(MigrateFault::Memory) => say_memory(out),
    }
}

/// Prints the script that turns the yearly costs of the file's problem into investment costs over
/// this many years, 1 to 100.
pub fn migrate<F: Shelf, K: Sink, E: Sink>(
    alloc: Global,
    file: &str,
    years: u64,
    shelf: &mut F,
    out: &mut Outputs<K, E>,
) -> Status
    requires { (1 ≤ years) × (years ≤ 100) }
    ensures ends { Ends
        (FileSays (MigrateWork years) file.now (F.state shelf.old) (F.state shelf.new)) out.old
        out.new result }
    ensures keeps { Keeps (F.state shelf.old) (F.state shelf.new) }
{
    match problem_of(alloc, shelf, out, file) {
        Ok(problem) => say_migration(alloc, out, &problem, years),
        Err(status) => status,
    }
}
