//! Makers that are led from node to node.
ghost use Rattle.std.specs.Prelude.{◌≡◌, ℕ};
ghost use Rattle.pgraph.specs.number_sets.Sets.{has};
ghost use Rattle.pgraph.specs.Tables.{shape};
ghost use Rattle.neutral_extension.specs.Candidates.{led, AreMakersOf};

use crate::makers::Makers;
use crate::open_leaf::take_out_all;
use pgraph::{Graph, UnitSet};

impl Makers {
    /// Makes the units of the set those that are taken out. Of those that are out it keeps the
    /// longest front that is in the set. It brings back the others, the last one first, and takes
    /// out what is missing, the least first. It takes no memory. The graph is the one of `open`.
    pub fn lead_to(&mut self, graph: &Graph, out: UnitSet)
        requires same { AreMakersOf (shape graph.now) self.old.makers }
        ensures makers { self.new.makers ≡ self.old.makers }
        ensures taken { self.new.taken ≡ led out self.old.taken }
        ensures out { (u : ℕ) → has self.new.taken u ≡ has out u }
    {
        let front = self.front_within(out);
        self.back(graph, front);
        let missing = out.minus(self.taken_out());
        take_out_all(self, graph, missing);
    }
}
