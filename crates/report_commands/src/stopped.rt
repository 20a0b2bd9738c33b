//! The text of a search that is not finished.
ghost use Rattle.network_commands.specs.studio_rules.Ending.{Ends, Only, IsUnfinished};
ghost use Rattle.network_commands.specs.studio_rules.Seconds.{AreSeconds};

use network_commands::Status;
use network_commands::outputs::put_answer;
use network_commands::say::say_unfinished;
use rank_text::{Outputs, Sink};

/// Prints the text on standard output, and on standard error why the search is not finished.
pub(crate) fn say_stopped<K: Sink, E: Sink>(
    out: &mut Outputs<K, E>,
    text: &[u8],
    notes: &[u8],
    status: Status,
) -> Status
    requires unfinished { IsUnfinished status }
    requires seconds { AreSeconds notes.now }
    ensures { Ends (Only status text.now) out.old out.new result }
{
    match put_answer(out, text) {
        Ok(()) => say_unfinished(out, notes, status),
        Err(_) => Status::WriteFault,
    }
}
