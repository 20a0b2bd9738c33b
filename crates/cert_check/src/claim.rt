//! Claims.
ghost use Rattle.std.specs.Prelude.{◌≡◌, ◌↔◌, Err, IsOk, OnOk, IfErr, false};
ghost use Rattle.tree_text_rules.specs.tree_rules.declared.why.Why.{Why};
ghost use Rattle.tree_text_rules.specs.tree_rules.Claim.{claimed_cost, ClaimPasses, ClaimFails};
ghost use Rattle.branch_tree.specs.View.{claim_of};
ghost use Rattle.cert_check.specs.Shown.{cost_over};

use crate::judge_network;
use branch_tree::Claim;
use charges::{CostOver, Site};
use tree_laws::claim_has_one_fault;
use tree_text_rules::Why;

/// The cost that is claimed, if the claim has a network.
pub(crate) fn cost_of_claim(claim: &Claim) -> Option<CostOver>
    ensures { cost_over result ≡ claimed_cost (claim_of claim.now) }
{
    match claim {
        Claim::Network(network) => {
            network.is_sized();
            Some(CostOver {
                cost: network.cost(),
                d: network.d(),
            })
        }
        _ => None,
    }
}

/// Judges a claim. For a partial tree, a claim of nothing passes.
pub(crate) fn judge_claim(site: &Site<'_>, claim: &Claim, partial: bool) -> Result<(), Why>
    ensures passes { OnOk result (ClaimPasses partial site.now (claim_of claim.now)) }
    ensures fails { IfErr result (λ why. ClaimFails partial site.now (claim_of claim.now) why) }
{
    match claim {
        Claim::Network(network) => {
            network.is_sized();
            judge_network(
                site,
                network.units(),
                network.sizes(),
                network.d(),
                network.cost(),
            )
        }
        Claim::Infeasible => Ok(()),
        Claim::Unknown => { if partial { Ok(()) } else { Err(Why::Unknown) } }
    }
}

/// Judges the claim alone. `Ok` comes if and only if it passes, so also if the claim is that there
/// is no network. Else the cause is that of the first line that fails. It takes no memory.
pub fn check_claim(site: &Site<'_>, claim: &Claim) -> Result<(), Why>
    ensures passes { IsOk result ↔ ClaimPasses false site.now (claim_of claim.now) }
    ensures fails { (why : Why) → (result ≡ Err why)
        ↔ ClaimFails false site.now (claim_of claim.now) why }
{
    claim_has_one_fault();
    judge_claim(site, claim, false)
}
