//! The verdict on a claim with its tree.
ghost use Rattle.std.specs.Prelude.{◌≡◌, ◌<◌, ◌^◌, length, IfOk, IfErr, true};
ghost use Rattle.report_rules.specs.tree_rules.Claim.{ClaimPasses};
ghost use Rattle.report_rules.specs.tree_rules.Accepted.{first_node, IsAccepted};
ghost use Rattle.tree_parts.specs.branch_tree.View.{claim_of};
ghost use Rattle.report_rules.specs.Verdict.{IsVerdict};
ghost use Rattle.verdicts.specs.Unjudged.{IsUnjudged};

use crate::lower::lower_bound;
use report_rules::{Refusal, Verdict, Why};
use std::alloc::Global;
use tree_parts::{Claim, Node, Site, Tree, UnitSet, check_from, check_tree};

/// Why there is no verdict.
#[derive(Clone, Copy, Debug, PartialEq, Eq)]
pub enum Unjudged {
    /// There was no memory for the walk through the tree.
    Memory,
    /// The claim fails.
    Claim(Why),
}

/// The verdict on a tree that is not accepted.
fn partial_verdict(
    alloc: Global,
    site: &Site<'_>,
    claim: &Claim,
    tree: &Tree,
) -> Result<Verdict, Unjudged>
    requires few { length tree.now < 2 ^ 32 }
    requires refused { IsAccepted site.now first_node (claim_of claim.now) tree.now → ⊥ }
    ensures verdict { IfOk result (λ v. IsVerdict site.now (claim_of claim.now) tree.now v) }
    ensures passes { IfOk result (λ v. ClaimPasses true site.now (claim_of claim.now)) }
    ensures unjudged { IfErr result (IsUnjudged site.now (claim_of claim.now)) }
{
    let start = Node {
        inside: UnitSet::empty(),
        outside: UnitSet::empty(),
    };
    match check_from(alloc, site, &start, true, claim, tree) {
        Ok(leaves) => {
            let low = lower_bound(site, claim, tree, &leaves);
            Ok(Verdict::Unfinished { low })
        }
        Err(Refusal::Node { node, why }) => Ok(Verdict::Fails { node, why }),
        Err(Refusal::Claim(why)) => Err(Unjudged::Claim(why)),
        Err(Refusal::Memory) => Err(Unjudged::Memory),
    }
}

/// What the tree proves of the claim. The claim is judged first. A claim of nothing and open leaves
/// are permitted. A tree that is not accepted is judged once more, as a tree with open leaves.
pub fn verdict_of(
    alloc: Global,
    site: &Site<'_>,
    claim: &Claim,
    tree: &Tree,
) -> Result<Verdict, Unjudged>
    requires few { length tree.now < 2 ^ 32 }
    ensures verdict { IfOk result (λ v. IsVerdict site.now (claim_of claim.now) tree.now v) }
    ensures passes { IfOk result (λ v. ClaimPasses true site.now (claim_of claim.now)) }
    ensures unjudged { IfErr result (IsUnjudged site.now (claim_of claim.now)) }
{
    match check_tree(alloc, site, claim, tree) {
        Ok(()) => Ok(Verdict::Proved),
        Err(Refusal::Memory) => Err(Unjudged::Memory),
        Err(Refusal::Claim(_) | Refusal::Node { .. }) => partial_verdict(alloc, site, claim, tree),
    }
}
