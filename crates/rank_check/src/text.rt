//! Whole ranked trees.
ghost use Rattle.std.specs.Prelude.{◌≡◌, ◌<◌, ◌^◌, length, map};
ghost use Rattle.rank_laws.specs.rank_rules.Text.{IsCounted};
ghost use Rattle.rank_check.specs.View.{mark_of};
ghost use Rattle.cert_check.specs.branch_tree.View.{tail_of};

use crate::mark::Mark;
use cert_check::{Network, Tail, Tree};
use std::marker::Model;

/// What was asked for.
#[derive(Clone, Copy, Debug, PartialEq, Eq)]
pub struct Asked {
    /// How many networks.
    pub count: u32,
    /// Whether none of them may be another with something idle: a list of alternatives.
    pub distinct: bool,
}

/// The number of networks asked for, those that were found, best first, and the tree that is to
/// prove that no other is better. With the tree are a mark for each of its open leaves in preorder,
/// and the tail, which says why a search stopped. At least one network was asked for, no more are
/// there, and networks are named by their numbers from 1 on. A leaf that names one has no bound of
/// its own. In a list of alternatives a leaf may name a network that each structure there contains.
#[derive(Drop)]
pub struct RankText {
    asked: Asked,
    networks: Vec<Network>,
    tree: Tree,
    marks: Vec<Mark>,
    tail: Tail,
}

impl Model for RankText {
    ghost use Rattle.std.specs.Prelude.{map};
    ghost use Rattle.rank_laws.specs.rank_rules.Text as specs;
    ghost use Rattle.rank_check.specs.View.{mark_of};
    ghost use Rattle.cert_check.specs.branch_tree.View.{tail_of};

    ghost Value = { specs.Text };

    ghost view = { λ t. record {
      count = t.asked.count;
      distinct = t.asked.distinct;
      networks = t.networks.items;
      tree =
          t.tree;
      marks = map mark_of t.marks.items;
      tail = tail_of t.tail;
    } };

    ghost invariant = { λ t. specs.IsCounted t.asked.count t.asked.distinct
        t.networks.items t.tree (map mark_of t.marks.items) };
}

impl RankText {
    /// The ranked tree of these parts.
    pub fn of(
        asked: Asked,
        networks: Vec<Network>,
        tree: Tree,
        marks: Vec<Mark>,
        tail: Tail,
    ) -> RankText
        requires { IsCounted asked.count asked.distinct networks.items tree
            (map mark_of marks.items) }
        ensures { result
            ≡ record {
              count = asked.count;
              distinct = asked.distinct;
              networks = networks.items;
              tree = tree;
              marks =
                  map mark_of marks.items;
              tail = tail_of tail;
            } }
    {
        RankText {
            asked,
            networks,
            tree,
            marks,
            tail,
        }
    }

    /// How many networks were asked for.
    pub fn count(&self) -> u32
        ensures { result ≡ self.now.count }
    {
        self.asked.count
    }

    /// Whether it is a list of alternatives.
    pub fn is_distinct(&self) -> bool
        ensures { result ≡ self.now.distinct }
    {
        self.asked.distinct
    }

    /// The networks, best first.
    pub fn networks(&self) -> &[Network]
        ensures { result.now ≡ self.now.networks }
    {
        &self.networks
    }

    /// The tree, in which a leaf that names a network is an open leaf.
    pub fn tree(&self) -> &Tree
        ensures { result.now ≡ self.now.tree }
    {
        &self.tree
    }

    /// What each open leaf of the tree stands for, in preorder.
    pub fn marks(&self) -> &[Mark]
        ensures { map mark_of result.now ≡ self.now.marks }
    {
        &self.marks
    }

    /// Why the search stopped, if it did.
    pub fn tail(&self) -> &Tail
        ensures { tail_of result.now ≡ self.now.tail }
    {
        &self.tail
    }

    /// The counts are within their bounds. A call shows this to a proof, and does nothing.
    pub fn is_counted(&self)
        ensures counted { IsCounted self.now.count self.now.distinct self.now.networks self.now.tree
            self.now.marks }
        ensures few { length self.now.networks < 2 ^ 32 }
    {
        let _count = self.asked.count;
    }
}
