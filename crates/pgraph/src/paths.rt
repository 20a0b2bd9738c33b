//! Which units have a path to a product.
ghost use Rattle.std.specs.Prelude.{◌≡◌, ◌↔◌, ℕ, true};
ghost use Rattle.flow_rules.specs.number_sets.Sets.{has};
ghost use Rattle.flow_rules.specs.pns_rules.Structure.{HasPath};
ghost use Rattle.pgraph.specs.Tables.{shape};

use crate::graph::Graph;
use unit_sets::{MatSet, UnitSet};

impl Graph {
    /// The units of the set that have a path to a product through units of the set. It goes back
    /// from the products, and looks at each material and each unit once.
    pub fn reaching(&self, set: UnitSet) -> UnitSet
        ensures { (u : ℕ) → (has result u ≡ true) ↔ HasPath (shape self.now) (has set) u }
    {
        self.is_proper();
        let mut found = UnitSet::empty();
        let mut wanted = self.products();
        let mut done = MatSet::empty();
        'grow: loop {
            let Some(x) = wanted.minus(done).least() else {
                return found;
            };
            let fresh = self.producers(x).meet(set).minus(found);
            let more = done.with(x);
            done.rises();
            more.rises();
            found = found.union(fresh);
            wanted = wanted.union(self.used(fresh));
            done = more;
        }
    }
}
