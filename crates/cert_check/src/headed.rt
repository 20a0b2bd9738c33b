//! Claims with trees that may have a head.
ghost use Rattle.std.specs.Prelude.{◌≡◌, ◌<◌, ◌^◌, ◌∷◌, [], ℕ, Bool, true, false, length, OnOk};
ghost use Rattle.std.specs.Prelude.{IfErr};
ghost use Rattle.tree_text_rules.specs.pns_rules.Shape.{shape_of};
ghost use Rattle.tree_text_rules.specs.pns_rules.Structure.{IsStructure, IsAllowed};
ghost use Rattle.tree_text_rules.specs.tree_rules.Tree.{Pass};
ghost use Rattle.tree_text_rules.specs.tree_rules.Claim as claims;
ghost use Rattle.tree_text_rules.specs.tree_rules.Costs.{CostsEnough};
ghost use Rattle.charges.specs.pgraph.View.{node_of};
ghost use Rattle.branch_tree.specs.View.{claim_of};
ghost use Rattle.charges.specs.Known.{facts_of};
ghost use Rattle.cert_check.specs.Known.{KnowsInside};
ghost use Rattle.cert_check.specs.Shown.{cost_over};
ghost use Rattle.tree_text_rules.specs.tree_rules.Headed as rules;
ghost use Rattle.tree_text_rules.specs.tree_rules.Headed.{head_node, IsAcceptedBy, RefusesBy};
ghost use Rattle.cert_check.specs.Headed.{IsOkOrMemoryBy, NamesFaultBy, refusal_by};

use crate::claim::{cost_of_claim, judge_claim};
use crate::visit::Judge;
use crate::walk::walk;
use crate::{Known, judge_head};
use branch_tree::{Claim, Head, Tree};
use charges::{CostOver, Site};
use std::alloc::Global;
use tree_laws::{accepted_by_is_optimal, claim_has_one_fault, tree_has_one_fault_by};
use tree_text_rules::{HeadRefusal, Refusal as NodeRefusal, one_fault};

/// Why the nodes of a tree with a head are refused.
fn refusal_by(refusal: NodeRefusal) -> HeadRefusal
    ensures { result ≡ refusal_by refusal }
{
    match refusal {
        NodeRefusal::Memory => HeadRefusal::Memory,
        NodeRefusal::Claim(why) => HeadRefusal::Claim(why),
        NodeRefusal::Node { node, why } => HeadRefusal::Node { node, why },
    }
}

/// Judges the nodes of the tree from what is known after its head.
fn check_known(
    alloc: Global,
    site: &Site<'_>,
    known: &Known,
    claimed: Option<CostOver>,
    tree: &Tree,
) -> Result<(), HeadRefusal>
    requires inside { KnowsInside (shape_of site.now) (node_of known.now.node) }
    requires few { length tree.now < 2 ^ 32 }
    ensures passes { OnOk result
        (Pass (shape_of site.now)
        (rules.LeafPassesBy (facts_of known.now.facts) false site.now (cost_over claimed))
        (node_of known.now.node ∷ []) tree.now) }
    ensures fault { IfErr result
        (NamesFaultBy (shape_of site.now)
        (rules.LeafPassesBy (facts_of known.now.facts) false site.now (cost_over claimed))
        (rules.LeafFailsBy (facts_of known.now.facts) false site.now (cost_over claimed))
        (node_of known.now.node ∷ []) tree.now) }
{
    tree.is_tree();
    let judge = Judge {
        site,
        claimed,
        facts: &known.facts,
        partial: false,
        bounds: true,
    };
    match walk(alloc, &judge, &known.node, tree.nodes()) {
        Ok(_) => Ok(()),
        Err(refusal) => Err(refusal_by(refusal)),
    }
}

/// Judges the lines of the head in order, and then the nodes of the tree.
fn check_lines(
    alloc: Global,
    site: &Site<'_>,
    claim: &Claim,
    head: &Head,
    tree: &Tree,
) -> Result<(), HeadRefusal>
    requires claimed { claims.ClaimPasses false site.now (claim_of claim.now) }
    requires few { length tree.now < 2 ^ 32 }
    ensures accepted { OnOk result
        (IsAcceptedBy site.now (claim_of claim.now) head.now tree.now) }
    ensures refused { IfErr result
        (RefusesBy false site.now (head_node site.now head.now) (claim_of claim.now) head.now
        tree.now) }
{
    let claimed = cost_of_claim(claim);
    match judge_head(site, claimed, head.lines()) {
        Ok(known) => check_known(alloc, site, &known, claimed, tree),
        Err(fault) => Err(HeadRefusal::Line {
            line: fault.line,
            why: fault.why,
        }),
    }
}

/// Judges the claim, then the lines of the head in order, and then the nodes of the tree in
/// preorder, from what is known after the head.
pub fn check_headed(
    alloc: Global,
    site: &Site<'_>,
    claim: &Claim,
    head: &Head,
    tree: &Tree,
) -> Result<(), HeadRefusal>
    requires few { length tree.now < 2 ^ 32 }
    // `Ok` comes only if the head and the tree prove the claim. If they do, the only other answer
    // is that there is no memory.
    ensures accepted { OnOk result
        (IsAcceptedBy site.now (claim_of claim.now) head.now tree.now) }
    ensures accepts { IsAcceptedBy site.now (claim_of claim.now) head.now tree.now
        → IsOkOrMemoryBy result }
    // A refusal names the first fault.
    ensures refused { IfErr result
        (RefusesBy false site.now (head_node site.now head.now) (claim_of claim.now) head.now
        tree.now) }
    // With any flows, each clash-free solution structure costs at least what is claimed, also one
    // that the head rules out. If the claim has no network, none has flows.
    ensures least { OnOk result
        ((s : ℕ → Bool) → IsStructure (shape_of site.now) s → IsAllowed (shape_of site.now) s
        → CostsEnough site.now (claims.claimed_cost (claim_of claim.now)) s) }
{
    site.problem();
    claim_has_one_fault();
    one_fault();
    tree_has_one_fault_by();
    accepted_by_is_optimal();
    match judge_claim(site, claim, false) {
        Ok(()) => check_lines(alloc, site, claim, head, tree),
        Err(why) => Err(HeadRefusal::Claim(why)),
    }
}
