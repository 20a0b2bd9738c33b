//! The network of a claim.
ghost use Rattle.std.specs.Prelude.{◌≡◌, ◌++◌, IfOk, IfErr, OnOk};
ghost use Rattle.verdicts.specs.branch_tree.View.{claim_of};
ghost use Rattle.command_files.specs.studio_rules.RefusalWords.{claim_line};
ghost use Rattle.command_files.specs.studio_rules.Lines.{line};
ghost use Rattle.command_files.specs.studio_rules.Ending.{Ends, Tells, Only, OrMemory};
ghost use Rattle.command_files.specs.studio_rules.declared.status.Status.TheVariants.{BadClaim};
ghost use Rattle.command_files.specs.studio_rules.Network.{ClaimRefusal, ClaimsNetwork};

use command_files::say::tell_with;
use command_files::{Notes, Status, no_network, refused, why_word};
use std::alloc::Global;
use verdicts::{Claim, Network, Outputs, Sink, Site, Why, check_claim};

// Prints that a claim is refused, and the notes after it.
fn say_why<K: Sink, E: Sink>(
    alloc: Global,
    out: &mut Outputs<K, E>,
    why: Why,
    notes: &Notes,
) -> Status
    ensures { Ends (OrMemory (Only BadClaim (line (claim_line why)))) out.old out.new result }
{
    let words = ("refused claim ", why_word(why));
    tell_with(alloc, out, words, notes.bytes(), Status::BadClaim)
}

/// Prints why a claim is refused.
pub fn say_refused<K: Sink, E: Sink>(alloc: Global, out: &mut Outputs<K, E>, why: Why) -> Status
    ensures { Ends (OrMemory (Only BadClaim (line (claim_line why)))) out.old out.new result }
{
    say_why(alloc, out, why, &refused(alloc, why))
}

// The same if the tree says that no network meets the bounds.
fn say_none<K: Sink, E: Sink>(alloc: Global, out: &mut Outputs<K, E>) -> Status
    ensures { Ends (OrMemory (Only BadClaim (line (claim_line Why.Unknown)))) out.old out.new
        result }
{
    say_why(alloc, out, Why::Unknown, &no_network(alloc))
}

/// The network of a claim of which each line holds. If the claim has no network, or a line of it
/// fails, the line that says why is printed, and `Err` has the status of the call.
pub fn network_of<K: Sink, E: Sink>(
    alloc: Global,
    out: &mut Outputs<K, E>,
    site: &Site<'_>,
    claim: Claim,
) -> Result<Network, Status>
    ensures network { IfOk result (ClaimsNetwork site.now (claim_of claim)) }
    ensures silent { OnOk result (out.new ≡ out.old) }
    ensures told { IfErr result
        (Ends (Tells (ClaimRefusal site.now (claim_of claim))) out.old out.new) }
{
    match check_claim(site, &claim) {
        Ok(()) => match claim {
            Claim::Network(network) => Ok(network),
            Claim::Infeasible => Err(say_none(alloc, out)),
            Claim::Unknown => Err(say_refused(alloc, out, Why::Unknown)),
        },
        Err(why) => Err(say_refused(alloc, out, why)),
    }
}
