//! Which units exclude each other.
ghost use Rattle.std.specs.Prelude.{◌≡◌, ◌<◌, ◌↔◌, ℕ, true, IsTrue, MatchOption};
ghost use Rattle.flow_rules.specs.number_sets.Sets.{has};
ghost use Rattle.flow_rules.specs.pns_rules.Structure.{Clashes};
ghost use Rattle.flow_rules.specs.pns_rules.Ends.{IsFirst, IsNever};
ghost use Rattle.pgraph.specs.Tables.{shape};
ghost use Rattle.pgraph.specs.Rivals.{IsRival, SharesBelow, IsFoundOrMet};

use crate::graph::Graph;
use unit_sets::UnitSet;

impl Graph {
    fn clashes_at(&self, set: UnitSet, k: u32) -> bool
        requires { k < (shape self.now).exclusions }
        ensures { IsTrue result ↔ Clashes (shape self.now) (has set) k }
    {
        let both = self.excluded(k).meet(set);
        both.rises();
        both.count() >= 2
    }

    /// The least exclusion of which the set has two units; `None` exactly if there is none.
    pub fn clash(&self, set: UnitSet) -> Option<u32>
        ensures { MatchOption result (IsNever (Clashes (shape self.now) (has set)))
            (IsFirst (Clashes (shape self.now) (has set))) }
    {
        self.is_proper();
        'exclusions: for k in 0..self.exclusion_count() {
            if self.clashes_at(set, k) {
                return Some(k);
            }
        }
        None
    }

    /// The units that share an exclusion with a unit of the set, those of the set among them.
    fn sharing(&self, set: UnitSet) -> UnitSet
        ensures { (u : ℕ) → (has result u ≡ true)
            ↔ SharesBelow (shape self.now) (has set) (shape self.now).exclusions u }
    {
        let mut found = UnitSet::empty();
        for k in 0..self.exclusion_count() {
            let excluded = self.excluded(k);
            found = with_if_met(found, excluded, set);
        }
        found
    }

    /// The units outside the set that share an exclusion with a unit of it.
    pub fn rivals(&self, set: UnitSet) -> UnitSet
        ensures { (u : ℕ) → (has result u ≡ true) ↔ IsRival (shape self.now) (has set) u }
    {
        self.sharing(set).minus(set)
    }
}

/// The units found and, if the set has a unit of the exclusion, the units of the exclusion.
fn with_if_met(found: UnitSet, excluded: UnitSet, set: UnitSet) -> UnitSet
    ensures { (u : ℕ) → (has result u ≡ true)
        ↔ IsFoundOrMet (has found) (has excluded) (has set) u }
{
    if excluded.meet(set).is_empty() {
        found
    } else {
        found.union(excluded)
    }
}
