//! The sets of a charge.
ghost use Rattle.std.specs.Prelude.{◌≡◌};
ghost use Rattle.pgraph.specs.CoversView.{covers_of};
ghost use Rattle.pgraph.specs.Kept.{AreKept};

use crate::cover::Cover;
use std::marker::Model;

/// Covers in order, a million at most. Each weight is in range and not below 0, and a unit beside a
/// set is below 128.
#[derive(Drop)]
pub struct Covers {
    covers: Vec<Cover>,
}

impl Model for Covers {
    ghost use Rattle.std.specs.Prelude.{List};
    ghost use Rattle.flow_rules.specs.Cover as rules;
    ghost use Rattle.pgraph.specs.CoversView.{covers_of};
    ghost use Rattle.pgraph.specs.Kept.{AreKept};

    ghost Value = { List rules.Cover };

    ghost view = { λ c. covers_of c.covers.items };

    ghost invariant = { λ c. AreKept (covers_of c.covers.items) };
}

impl Covers {
    /// The list of these covers.
    pub fn from_vec(covers: Vec<Cover>) -> Covers
        requires { AreKept (covers_of covers.items) }
        ensures { result ≡ covers_of covers.items }
    {
        Covers { covers }
    }

    /// The covers in order.
    pub fn covers(&self) -> &[Cover]
        ensures { covers_of result.now ≡ self.now }
    {
        &self.covers
    }

    /// What the type keeps. A call gives it to a proof, and does nothing.
    pub fn are_kept(&self)
        ensures { AreKept self.now }
    {
        let _count = self.covers.len();
    }
}
