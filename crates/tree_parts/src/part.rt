//! Parts.
ghost use Rattle.std.specs.Prelude.{◌≡◌};
ghost use Rattle.tree_text_laws.specs.branch_tree.View.{claim_of, tail_of};
ghost use Rattle.tree_text_laws.specs.tree_text_rules.Part.{IsApart};

use std::marker::Model;
use tree_text_laws::{Claim, Node, Tail, Tree};

/// What a run found from a node of its own: what it claims, its tree, and the tail, which says why
/// it stopped. No unit is both taken in and left out at the node.
#[derive(Drop)]
pub struct Part {
    start: Node,
    claim: Claim,
    tree: Tree,
    tail: Tail,
}

impl Model for Part {
    ghost use Rattle.tree_text_laws.specs.branch_tree.View.{claim_of, tail_of};
    ghost use Rattle.tree_text_laws.specs.tree_text_rules.Part as rules;
    ghost use Rattle.tree_text_laws.specs.tree_text_rules.Part.{IsApart};

    ghost Value = { rules.Part };

    ghost view = { λ p. record {
      inside = p.start.inside;
      outside = p.start.outside;
      claim =
          claim_of p.claim;
      tree = p.tree;
      tail = tail_of p.tail;
    } };

    ghost invariant = { λ p. IsApart p.start.inside p.start.outside };
}

impl Part {
    /// The part of a run from the node.
    pub fn of(start: Node, claim: Claim, tree: Tree, tail: Tail) -> Part
        requires { IsApart start.inside start.outside }
        ensures { result
            ≡ record {
              inside = start.inside;
              outside = start.outside;
              claim =
                  claim_of claim;
              tree = tree;
              tail = tail_of tail;
            } }
    {
        Part {
            start,
            claim,
            tree,
            tail,
        }
    }

    /// The node at which the run began.
    pub fn start(&self) -> Node
        ensures inside { result.inside ≡ self.now.inside }
        ensures outside { result.outside ≡ self.now.outside }
    {
        self.start
    }

    /// What it claims.
    pub fn claim(&self) -> &Claim
        ensures { claim_of result.now ≡ self.now.claim }
    {
        &self.claim
    }

    /// Its tree.
    pub fn tree(&self) -> &Tree
        ensures { result.now ≡ self.now.tree }
    {
        &self.tree
    }

    /// Why it stopped, if it did.
    pub fn tail(&self) -> &Tail
        ensures { tail_of result.now ≡ self.now.tail }
    {
        &self.tail
    }

    /// No unit is both taken in and left out at the node of the part. A call shows this to a proof,
    /// and does nothing.
    pub fn is_apart(&self)
        ensures { IsApart self.now.inside self.now.outside }
    {
        let _start = self.start;
    }
}
