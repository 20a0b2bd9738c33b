//! The command `trial`.
ghost use Rattle.std.specs.Prelude.{◌≤◌};
ghost use Rattle.command_files.specs.studio_rules.Trial.{TrialWork};
ghost use Rattle.command_files.specs.studio_rules.Ending.{Ends, Tells};

use crate::summary::say_summed;
use command_files::Status;
use command_files::say::say_memory;
use headed_search::{Effort, Outputs, Sink, Watch, generate};
use std::alloc::Global;

/// Prints what a search finds of the problem of this number with this many operating units, 1 to
/// 128.
pub fn trial<K: Sink, E: Sink, W: Watch>(
    alloc: Global,
    number: u64,
    units: u64,
    effort: Effort<W>,
    out: &mut Outputs<K, E>,
) -> Status
    requires some { 1 ≤ units }
    requires few { units ≤ 128 }
    requires some_nodes { 1 ≤ effort.budget }
    requires few_nodes { effort.budget ≤ 1000000 }
    ensures { Ends (Tells (TrialWork number units effort.budget)) out.old out.new result }
{
    match generate(alloc, number, units as u32) {
        Ok(problem) => say_summed(alloc, out, &problem, effort),
        Err(_) => say_memory(out),
    }
}
