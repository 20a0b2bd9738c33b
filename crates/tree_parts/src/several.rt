//! Several parts that are put back in turn.
ghost use Rattle.std.specs.Prelude.{◌≡◌, ◌≤◌, ◌<◌, ◌+◌, ◌^◌, ℕ, true, false, [], length, take};
ghost use Rattle.std.specs.Prelude.{OnOk, IfOk, IfErr};
ghost use Rattle.tree_text_laws.specs.problem_rules.Each.{Each};
ghost use Rattle.tree_text_laws.specs.pns_rules.Shape.{shape_of};
ghost use Rattle.tree_text_laws.specs.tree_rules.Tree.{IsTree};
ghost use Rattle.tree_text_laws.specs.tree_rules.Claim as rules;
ghost use Rattle.tree_text_laws.specs.tree_rules.Accepted as trees;
ghost use Rattle.tree_text_laws.specs.tree_rules.Accepted.{first_node, IsPartial};
ghost use Rattle.tree_text_laws.specs.branch_tree.View.{claim_of};
ghost use Rattle.cert_check.specs.Known.{KnowsInside};
ghost use Rattle.cert_check.specs.OpenLeaves.{leaves_at};
ghost use Rattle.tree_text_laws.specs.tree_text_rules.OpenLeaves.{IsAmong};
ghost use Rattle.tree_text_laws.specs.tree_text_rules.Graft as grafts;
ghost use Rattle.tree_parts.specs.Splices as splices;
ghost use Rattle.tree_parts.specs.Splices.{AreRising, spliced};
ghost use Rattle.tree_text_laws.specs.tree_text_rules.Part.{start_of};
ghost use Rattle.tree_text_laws.specs.tree_text_rules.Merge.{MergeFails};
ghost use Rattle.tree_text_laws.specs.tree_text_rules.Several.{AreMerged, StopsAt};
ghost use Rattle.tree_text_laws.specs.tree_text_rules.declared.merge_fault.MergeFault.TheVariants.{Memory};
ghost use Rattle.tree_parts.specs.Waiting.{splices_of, AreWithin, IsOneMore};

use crate::copies::copied_network;
use crate::merging::{cheaper_of, has_open, judge_part, leaves_of};
use crate::part::Part;
use crate::splicing::splice;
use crate::waiting::{Waiting, put_by};
use crate::{grafts_are_partial, open_leaves_stand};
use cert_check::OpenLeaf;
use std::alloc::{AllocError, Global};
use tree_text_laws::{Claim, MergeFault, Site, Tree, TreeNode};

/// Which of several parts is not put back, counted from 0, and why.
#[derive(Clone, Copy, Debug, PartialEq, Eq)]
pub struct PartFault {
    pub part: usize,
    pub fault: MergeFault,
}

/// What came of the first parts, and how many they are.
#[derive(Drop)]
struct Merged {
    claim: Claim,
    tree: Tree,
    count: usize,
}

impl PartFault {
    // There was no memory to put this part back.
    fn memory(part: usize) -> PartFault
        ensures { result ≡ record { part = part; fault = Memory } }
    {
        PartFault {
            part,
            fault: MergeFault::Memory,
        }
    }
}

// The cheaper network of two claims, or the first if the second is not cheaper.
fn cheapest(alloc: Global, own: Claim, other: &Claim) -> Result<Claim, AllocError>
    ensures { IfOk result
        (λ claim. claim_of claim ≡ splices.cheapest (claim_of own) (claim_of other.now)) }
{
    match other {
        Claim::Network(other) => match own {
            Claim::Network(own) => Ok(Claim::Network(cheaper_of(alloc, own, other)?)),
            _ => Ok(Claim::Network(copied_network(alloc, other)?)),
        },
        _ => Ok(own),
    }
}

// What is claimed of the nodes. It is the network; without one it depends on whether a leaf is
// open.
fn settle(claim: Claim, nodes: &[TreeNode]) -> Claim
    ensures { claim_of result ≡ splices.settled (claim_of claim) nodes.now }
{
    match claim {
        Claim::Network(network) => Claim::Network(network),
        _ => {
            if has_open(nodes) {
                Claim::Unknown
            } else {
                Claim::Infeasible
            }
        }
    }
}

// Puts the parts that wait in their places. If there is no memory, the fault names the first part.
fn put_all(
    alloc: Global,
    claim: Claim,
    tree: Tree,
    waiting: Vec<Waiting>,
    count: usize,
) -> Result<Merged, PartFault>
    requires rising { AreRising (splices_of waiting.items) }
    requires within { AreWithin (length tree) (splices_of waiting.items) }
    requires tree { IsTree (spliced (splices_of waiting.items) tree) }
    ensures tree { IfOk result (λ m. m.tree ≡ spliced (splices_of waiting.items) tree) }
    ensures claim { IfOk result
        (λ m. claim_of m.claim
        ≡ splices.settled (claim_of claim) (spliced (splices_of waiting.items) tree)) }
    ensures count { IfOk result (λ m. m.count ≡ count) }
    ensures fault { IfErr result (λ stop. stop ≡ record { part = 0; fault = Memory }) }
{
    let Ok(nodes) = splice(alloc, tree.into_nodes(), waiting) else {
        return Err(PartFault::memory(0));
    };
    let claim = settle(claim, &nodes);
    Ok(Merged {
        claim,
        tree: Tree::from_nodes(nodes),
        count,
    })
}

// Judges the part, and lets a copy of it wait for an open leaf that has its node. If there is no
// such leaf, or another part waits for it, the list stays as it is.
fn take_next(
    alloc: Global,
    site: &Site<'_>,
    leaves: &[OpenLeaf],
    waiting: &mut Vec<Waiting>,
    part: &Part,
) -> Result<bool, MergeFault>
    requires known { KnowsInside (shape_of site.now) (start_of part.now) }
    requires rising { AreRising (splices_of waiting.old.items) }
    ensures partial { OnOk result
        (IsPartial site.now (start_of part.now) part.now.claim part.now.tree) }
    ensures put { IfOk result (λ taken. taken ≡ true
        → IsOneMore (leaves_at leaves.now) part.now (splices_of waiting.old.items)
        (splices_of waiting.new.items)) }
    ensures kept { IfOk result (λ taken. taken ≡ false → waiting.new ≡ waiting.old) }
    ensures none { IfOk result
        (λ taken. taken ≡ false → waiting.old.items ≡ [] → (k : ℕ)
        → IsAmong (record { number = k; node = start_of part.now }) (leaves_at leaves.now) → ⊥) }
    ensures fault { IfErr result
        (λ fault. (claim : rules.Claim) (tree : trees.Tree)
        → IsPartial site.now first_node claim tree
        → MergeFails site.now claim tree part.now fault) }
{
    judge_part(alloc, site, part)?;
    match put_by(alloc, leaves, waiting, part) {
        Ok(taken) => Ok(taken),
        Err(_) => Err(MergeFault::Memory),
    }
}

// Puts back the first parts, as many as wait for leaves of the tree itself, and at least one. The
// tree is judged once. Each part is judged and waits for its leaf, and then all take their places.
fn merge_some(
    alloc: Global,
    site: &Site<'_>,
    claim: Claim,
    whole: Tree,
    parts: &[Part],
) -> Result<Merged, PartFault>
    requires known { Each (λ part. KnowsInside (shape_of site.now) (start_of part)) parts.now }
    requires some { 0 < length parts.now }
    ensures some { IfOk result (λ m. 0 < m.count) }
    ensures within { IfOk result (λ m. m.count ≤ length parts.now) }
    ensures merged { IfOk result
        (λ m. AreMerged site.now (claim_of claim) whole (take m.count parts.now)
        (claim_of m.claim)
        m.tree) }
    ensures fault { IfErr result
        (λ stop. StopsAt site.now (claim_of claim) whole parts.now stop.part stop.fault) }
{
    let leaves = match leaves_of(alloc, site, &claim, &whole) {
        Ok(leaves) => leaves,
        Err(fault) => return Err(PartFault { part: 0, fault }),
    };
    open_leaves_stand();
    grafts_are_partial();
    whole.is_tree();
    let mut waiting = Vec::new(alloc);
    let mut both = claim;
    'putting: for (at, part) in parts.iter().enumerate() {
        part.tree().is_tree();
        let taken = match take_next(alloc, site, &leaves, &mut waiting, part) {
            Ok(taken) => taken,
            Err(fault) => return Err(PartFault { part: at, fault }),
        };
        if !taken {
            if at == 0 {
                return Err(PartFault {
                    part: at,
                    fault: MergeFault::NoLeaf,
                });
            }
            return put_all(alloc, both, whole, waiting, at);
        }
        let Ok(next) = cheapest(alloc, both, part.claim()) else {
            return Err(PartFault::memory(at));
        };
        both = next;
    }
    put_all(alloc, both, whole, waiting, parts.len())
}

/// Puts the parts back in turn, each into the tree that the ones before it gave. The first that is
/// not put back is named, with why; at any of them there may be no memory. The tree is judged once,
/// and again only if a part's leaf is one of an earlier part. Without parts, the claim and the tree
/// are given back as they are, and are not judged.
pub fn merge_all(
    alloc: Global,
    site: &Site<'_>,
    claim: Claim,
    tree: Tree,
    parts: &[Part],
) -> Result<(Claim, Tree), PartFault>
    requires known { Each (λ part. KnowsInside (shape_of site.now) (start_of part)) parts.now }
    ensures merged { IfOk result
        (λ found. AreMerged site.now (claim_of claim) tree parts.now (claim_of found.0) found.1) }
    ensures fault { IfErr result
        (λ stop. StopsAt site.now (claim_of claim) tree parts.now stop.part stop.fault) }
{
    let mut both = claim;
    let mut whole = tree;
    let mut at = 0;
    'merging: while at < parts.len() {
        match merge_some(alloc, site, both, whole, &parts[at..]) {
            Ok(merged) => {
                both = merged.claim;
                whole = merged.tree;
                at += merged.count;
            }
            Err(stop) => {
                return Err(PartFault {
                    part: at + stop.part,
                    fault: stop.fault,
                });
            }
        }
    }
    Ok((both, whole))
}
