//! A part that is put back.
ghost use Rattle.std.specs.Prelude.{◌≡◌, ◌<◌, ◌+◌, ◌-◌, ◌^◌, ◌↔◌, ◌∷◌, ◌<ℤ◌, ◌*ℤ◌, [], ℕ, length};
ghost use Rattle.std.specs.Prelude.{IsTrue, OnOk, IfOk, IfErr, IfSome, IfNone};
ghost use Rattle.tree_text_laws.specs.problem_rules.Problem.{Problem};
ghost use Rattle.tree_text_laws.specs.pns_rules.Shape.{shape_of};
ghost use Rattle.tree_text_laws.specs.tree_rules.Claim as rules;
ghost use Rattle.tree_text_laws.specs.tree_rules.Accepted as trees;
ghost use Rattle.tree_text_laws.specs.tree_rules.Accepted.{first_node, IsPartial};
ghost use Rattle.tree_text_laws.specs.pgraph.View.{node_of};
ghost use Rattle.tree_text_laws.specs.branch_tree.View.{claim_of, end_of};
ghost use Rattle.cert_check.specs.Known.{KnowsInside};
ghost use Rattle.cert_check.specs.OpenLeaves.{leaves_at};
ghost use Rattle.tree_text_laws.specs.tree_text_rules.OpenLeaves.{open_leaves, IsAmong};
ghost use Rattle.tree_text_laws.specs.tree_text_rules.Graft as grafts;
ghost use Rattle.tree_text_laws.specs.tree_text_rules.Part as parts;
ghost use Rattle.tree_text_laws.specs.tree_text_rules.Part.{start_of};
ghost use Rattle.tree_text_laws.specs.tree_text_rules.Merge.{IsMerged, IsLeafOf, MergeFails};

use crate::copies::{copied_network, grafted, push_copies};
use crate::open::{check_part, open_leaves};
use crate::part::Part;
use crate::{grafts_are_partial, open_leaves_stand};
use cert_check::OpenLeaf;
use std::alloc::{AllocError, Global};
use tree_text::CostOver;
use tree_text_laws::{Claim, End, MergeFault, Network, Node, Refusal, Site, Tree, TreeNode};

/// Whether the nodes are the same.
fn are_same(a: &Node, b: &Node) -> bool
    ensures { IsTrue result ↔ (node_of a.now ≡ node_of b.now) }
{
    a.inside.rises();
    a.outside.rises();
    b.inside.rises();
    b.outside.rises();
    a.inside == b.inside && a.outside == b.outside
}

/// The open leaf at the node, by its number.
pub(crate) fn leaf_at(leaves: &[OpenLeaf], start: &Node) -> Option<u32>
    ensures some { IfSome result
        (λ k. IsAmong (record { number = k; node = node_of start.now }) (leaves_at leaves.now)) }
    ensures none { IfNone result
        ((k : ℕ)
        → IsAmong (record { number = k; node = node_of start.now }) (leaves_at leaves.now)
        → ⊥) }
{
    'looking: for leaf in leaves {
        if are_same(&leaf.node, start) {
            return Some(leaf.number);
        }
    }
    None
}

/// Whether the second network costs less.
fn is_cheaper(own: &Network, other: &Network) -> bool
    ensures { IsTrue result ↔ ((other.now.cost *ℤ own.now.d) <ℤ (own.now.cost *ℤ other.now.d)) }
{
    own.is_sized();
    other.is_sized();
    let claimed = CostOver {
        cost: own.cost(),
        d: own.d(),
    };
    !claimed.is_reached(other.cost(), other.d())
}

fn cheaper(alloc: Global, own: &Network, other: &Network) -> Result<Network, AllocError>
    ensures { IfOk result (λ w. w ≡ grafts.cheaper own.now other.now) }
{
    if is_cheaper(own, other) {
        copied_network(alloc, other)
    } else {
        copied_network(alloc, own)
    }
}

fn is_open(end: &End) -> bool
    ensures { result ≡ grafts.is_open (end_of end.now) }
{
    matches!(end, End::Open(_))
}

pub(crate) fn has_open(nodes: &[TreeNode]) -> bool
    ensures { result ≡ grafts.has_open nodes.now }
{
    'looking: for node in nodes {
        if is_open(&node.end) {
            return true;
        }
    }
    false
}

/// The cheaper of two networks, or the first if the second is not cheaper.
pub(crate) fn cheaper_of(
    alloc: Global,
    own: Network,
    other: &Network,
) -> Result<Network, AllocError>
    ensures { IfOk result (λ w. w ≡ grafts.cheaper own other.now) }
{
    if is_cheaper(&own, other) {
        copied_network(alloc, other)
    } else {
        Ok(own)
    }
}

/// What the tree and the part claim together.
fn claim_of_both(
    alloc: Global,
    own: &Claim,
    other: &Claim,
    nodes: &[TreeNode],
) -> Result<Claim, AllocError>
    ensures { IfOk result
        (λ claim. claim_of claim
        ≡ grafts.claim_of_both (claim_of own.now) (claim_of other.now) nodes.now) }
{
    match (own, other) {
        (Claim::Network(own), Claim::Network(other)) => {
            Ok(Claim::Network(cheaper(alloc, own, other)?))
        }
        (Claim::Network(network), _) | (_, Claim::Network(network)) => {
            Ok(Claim::Network(copied_network(alloc, network)?))
        }
        _ => {
            if has_open(nodes) {
                Ok(Claim::Unknown)
            } else {
                Ok(Claim::Infeasible)
            }
        }
    }
}

/// The nodes of the tree with the part in the place of a node.
fn graft_at(
    alloc: Global,
    at: usize,
    tree: &[TreeNode],
    part: &[TreeNode],
) -> Result<Vec<TreeNode>, AllocError>
    requires within { at < length tree.now }
    requires some { 0 < length part.now }
    ensures { IfOk result (λ nodes. nodes.items ≡ grafts.graft_at at tree.now part.now) }
{
    let mut nodes = Vec::new(alloc);
    push_copies(alloc, &tree[..at], &mut nodes)?;
    let joined = grafted(alloc, &tree[at], &part[0])?;
    nodes.push(joined)?;
    push_copies(alloc, &part[1..], &mut nodes)?;
    push_copies(alloc, &tree[at + 1..], &mut nodes)?;
    Ok(nodes)
}

/// The part in the place of the open leaf, and what both claim.
fn put_back(
    alloc: Global,
    claim: &Claim,
    tree: &Tree,
    part: &Part,
    at: u32,
) -> Result<(Claim, Tree), AllocError>
    requires { (p : Problem) × IsLeafOf p tree.now part.now at }
    ensures tree { IfOk result (λ found. found.1 ≡ grafts.graft_at at tree.now part.now.tree) }
    ensures claim { IfOk result
        (λ found. claim_of found.0
        ≡ grafts.claim_of_both (claim_of claim.now) part.now.claim found.1) }
{
    grafts_are_partial();
    tree.is_tree();
    part.tree().is_tree();
    let nodes = graft_at(alloc, at as usize, tree.nodes(), part.tree().nodes())?;
    let both = claim_of_both(alloc, claim, part.claim(), &nodes)?;
    Ok((both, Tree::from_nodes(nodes)))
}

// The open leaves of the tree, or why it is refused. For a tree with too many nodes to be numbered
// the answer is `Memory`.
pub(crate) fn leaves_of(
    alloc: Global,
    site: &Site<'_>,
    claim: &Claim,
    tree: &Tree,
) -> Result<Vec<OpenLeaf>, MergeFault>
    ensures partial { OnOk result (IsPartial site.now first_node (claim_of claim.now) tree.now) }
    ensures leaves { IfOk result
        (λ v. leaves_at v.items ≡ open_leaves (shape_of site.now) (first_node ∷ []) tree.now 0) }
    ensures fault { IfErr result
        (λ fault. (part : parts.Part)
        → MergeFails site.now (claim_of claim.now) tree.now part fault) }
{
    if (u32::MAX as usize) < tree.nodes().len() {
        return Err(MergeFault::Memory);
    }
    match open_leaves(alloc, site, claim, tree) {
        Ok(leaves) => Ok(leaves),
        Err(Refusal::Memory) => Err(MergeFault::Memory),
        Err(refusal) => Err(MergeFault::Tree(refusal)),
    }
}

// Judges the part. For a part with too many nodes to be numbered the answer is `Memory`.
pub(crate) fn judge_part(alloc: Global, site: &Site<'_>, part: &Part) -> Result<(), MergeFault>
    requires { KnowsInside (shape_of site.now) (start_of part.now) }
    ensures partial { OnOk result
        (IsPartial site.now (start_of part.now) part.now.claim part.now.tree) }
    ensures fault { IfErr result
        (λ fault. (claim : rules.Claim) (tree : trees.Tree)
        → IsPartial site.now first_node claim tree
        → MergeFails site.now claim tree part.now fault) }
{
    if (u32::MAX as usize) < part.tree().nodes().len() {
        return Err(MergeFault::Memory);
    }
    match check_part(alloc, site, part) {
        Ok(()) => Ok(()),
        Err(Refusal::Memory) => Err(MergeFault::Memory),
        Err(refusal) => Err(MergeFault::Part(refusal)),
    }
}

/// Puts the part in the place of the open leaf of the tree whose node is its own. The result is one
/// whole tree, which proves the cheaper claim but for its open leaves. Unless there is no memory, a
/// fault comes if and only if the tree is refused, or then the part, or no open leaf has the part's
/// node.
pub fn merge(
    alloc: Global,
    site: &Site<'_>,
    claim: &Claim,
    tree: &Tree,
    part: &Part,
) -> Result<(Claim, Tree), MergeFault>
    requires known { KnowsInside (shape_of site.now) (start_of part.now) }
    requires few { length tree.now + length part.now.tree < 2 ^ 32 - 1 }
    ensures merged { IfOk result
        (λ found. IsMerged site.now (claim_of claim.now) tree.now part.now (claim_of found.0)
        found.1) }
    ensures fault { IfErr result (MergeFails site.now (claim_of claim.now) tree.now part.now) }
{
    grafts_are_partial();
    open_leaves_stand();
    tree.is_tree();
    part.tree().is_tree();
    let leaves = leaves_of(alloc, site, claim, tree)?;
    judge_part(alloc, site, part)?;
    let start = part.start();
    let Some(at) = leaf_at(&leaves, &start) else {
        return Err(MergeFault::NoLeaf);
    };
    match put_back(alloc, claim, tree, part, at) {
        Ok(found) => Ok(found),
        Err(_) => Err(MergeFault::Memory),
    }
}
