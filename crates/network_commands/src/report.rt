//! The report of a tree.
ghost use Rattle.std.specs.Prelude.{◌<◌, ◌^◌, length};
ghost use Rattle.verdicts.specs.tree_reading.Said.{said_by};
ghost use Rattle.command_files.specs.studio_rules.Report.{ReportWork};
ghost use Rattle.command_files.specs.studio_rules.Ending.{Ends, Tells};

use crate::claim::say_refused;
use crate::headed::headed_report_text;
use command_files::Status;
use command_files::say::{say_memory, say_text};
use report_tables::Plant;
use std::alloc::Global;
use verdicts::{Headed, Outputs, Sink, Unjudged};

/// Prints what the tree proves of the claim, and its network if it has one, or the bounds that
/// clash; or the first line of the claim that fails.
pub fn say_reported<K: Sink, E: Sink>(
    alloc: Global,
    out: &mut Outputs<K, E>,
    plant: &Plant<'_>,
    text: &Headed,
) -> Status
    requires few { length text.now.tree < 2 ^ 32 }
    ensures { Ends
        (Tells (ReportWork plant.now.measures.now plant.now.site.now (said_by text.now))) out.old
        out.new result }
{
    match headed_report_text(alloc, plant, &text.claim, &text.head, &text.tree) {
        Ok(bytes) => say_text(out, &bytes, Status::Done),
        Err(Unjudged::Claim(why)) => say_refused(alloc, out, why),
        Err(Unjudged::Memory) => say_memory(out),
    }
}
