//! Parts that wait for the places of their leaves in one tree.
ghost use Rattle.std.specs.Prelude.{◌≡◌, ◌≤◌, ◌<◌, ℕ, true, false, [], length, take, drop, IfOk};
ghost use Rattle.std.specs.Prelude.{IfSome, IfNone};
ghost use Rattle.tree_text_laws.specs.tree_text_rules.OpenLeaves.{IsAmong};
ghost use Rattle.cert_check.specs.OpenLeaves.{leaves_at};
ghost use Rattle.tree_parts.specs.Splices.{AllBelow, AllAbove, AreRising};
ghost use Rattle.tree_text_laws.specs.tree_text_rules.Part.{start_of};
ghost use Rattle.tree_parts.specs.Waiting.{splices_of, IsOneMore};

use crate::copies::push_copies;
use crate::merging::leaf_at;
use crate::part::Part;
use cert_check::OpenLeaf;
use std::alloc::{AllocError, Global};
use tree_text_laws::TreeNode;

/// The nodes of a part, and the number of the leaf whose place they take.
#[derive(Drop)]
pub struct Waiting {
    pub place: u32,
    pub nodes: Vec<TreeNode>,
}

/// The place of a part for the leaf among those that wait, which is after those for earlier leaves.
/// There is no place if a part already waits for the leaf.
fn slot(waiting: &[Waiting], place: u32) -> Option<usize>
    requires rising { AreRising (splices_of waiting.now) }
    ensures within { IfSome result (λ i. i ≤ length waiting.now) }
    ensures low { IfSome result (λ i. AllBelow place (take i (splices_of waiting.now))) }
    ensures high { IfSome result (λ i. AllAbove place (drop i (splices_of waiting.now))) }
    ensures some { IfNone result (0 < length waiting.now) }
{
    'looking: for (at, other) in waiting.iter().enumerate() {
        if place < other.place {
            return Some(at);
        }
        if place == other.place {
            return None;
        }
    }
    Some(waiting.len())
}

/// Lets a copy of the part wait for an open leaf that has its node. If there is no such leaf, or
/// another part waits for it, the list stays as it is.
pub fn put_by(
    alloc: Global,
    leaves: &[OpenLeaf],
    waiting: &mut Vec<Waiting>,
    part: &Part,
) -> Result<bool, AllocError>
    requires rising { AreRising (splices_of waiting.old.items) }
    ensures put { IfOk result (λ taken. taken ≡ true
        → IsOneMore (leaves_at leaves.now) part.now (splices_of waiting.old.items)
        (splices_of waiting.new.items)) }
    ensures kept { IfOk result (λ taken. taken ≡ false → waiting.new ≡ waiting.old) }
    ensures none { IfOk result
        (λ taken. taken ≡ false → waiting.old.items ≡ [] → (k : ℕ)
        → IsAmong (record { number = k; node = start_of part.now }) (leaves_at leaves.now) → ⊥) }
{
    let start = part.start();
    let Some(place) = leaf_at(leaves, &start) else {
        return Ok(false);
    };
    let Some(at) = slot(waiting, place) else {
        return Ok(false);
    };
    let mut nodes = Vec::new(alloc);
    push_copies(alloc, part.tree().nodes(), &mut nodes)?;
    waiting.insert(at, Waiting { place, nodes })?;
    Ok(true)
}
