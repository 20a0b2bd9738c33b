//! The ends of nodes.
ghost use Rattle.std.specs.Prelude.{◌≡◌};
ghost use Rattle.tree_rules.specs.Tree.{children};
ghost use Rattle.branch_tree.specs.View.{end_of};

use crate::multipliers::Multipliers;
use crate::scaled::Scaled;
use pgraph::Covers;

/// How a node ends.
#[derive(Drop)]
pub enum End {
    /// The needed material has no maker that is not left out.
    Dead(u32),
    /// The exclusion has two units that are taken in.
    Clash(u32),
    /// The multipliers show that the node has no flows.
    Refuted(Multipliers),
    /// The multipliers bound the cost of the node's flows, over their scale.
    Bound(Scaled),
    /// The multipliers and the covers charge the node, over their scale.
    Charge { scaled: Scaled, covers: Covers },
    /// So many children follow, one for each option of the material.
    Branch { material: u32, children: u32 },
    /// Two children follow: the unit is taken in, and the unit is left out.
    Either(u32),
    /// The leaf is open, with a bound if one is known.
    Open(Option<Scaled>),
}

impl End {
    /// How many subtrees follow the node as its children.
    pub fn children(&self) -> u32
        ensures { result ≡ children (end_of self.now) }
    {
        match self {
            End::Branch { children, .. } => *children,
            End::Either(_) => 2,
            _ => 0,
        }
    }
}
