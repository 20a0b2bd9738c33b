//! The command `make`.
ghost use Rattle.std.specs.Prelude.{◌≡◌, ◌≤◌, IfOk};
ghost use Rattle.text_lines.specs.text_rules.Canonical.{canonical_lines};
ghost use Rattle.text_lines.specs.problem_rules.Generated.{generated};
ghost use Rattle.command_files.specs.studio_rules.Lines.{text_of};
ghost use Rattle.command_files.specs.studio_rules.Make.{MakeWork};
ghost use Rattle.command_files.specs.studio_rules.Ending.{Ends, Tells};

use cert_check::generate;
use command_files::say::say_made;
use command_files::{Outputs, Sink, Status};
use std::alloc::{AllocError, Global};

fn made_text(alloc: Global, number: u64, units: u64) -> Result<Vec<u8>, AllocError>
    requires some { 1 ≤ units }
    requires few { units ≤ 128 }
    ensures { IfOk result
        (λ text. text.items ≡ text_of (canonical_lines (generated number units))) }
{
    let problem = generate(alloc, number, units as u32)?;
    problem.canonical_text(alloc)
}

/// Prints the canonical text of the problem of this number with this many operating units, 1 to
/// 128.
pub fn make<K: Sink, E: Sink>(
    alloc: Global,
    number: u64,
    units: u64,
    out: &mut Outputs<K, E>,
) -> Status
    requires some { 1 ≤ units }
    requires few { units ≤ 128 }
    ensures { Ends (Tells (MakeWork number units)) out.old out.new result }
{
    say_made(out, made_text(alloc, number, units))
}
