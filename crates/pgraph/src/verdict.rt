//! The axioms, judged one after another.
ghost use Rattle.std.specs.Prelude.{◌≡◌, ◌<◌, ◌↔◌, ℕ, true, false};
ghost use Rattle.flow_rules.specs.number_sets.Sets.{has};
ghost use Rattle.flow_rules.specs.pns_rules.Structure.{IsStructure, HasPath};
ghost use Rattle.pgraph.specs.Tables.{shape};
ghost use Rattle.flow_rules.specs.pns_rules.Breaks.{BreaksS1, BreaksS2, BreaksS4};
ghost use Rattle.flow_rules.specs.pns_rules.Verdict.{Judges};

use crate::graph::Graph;
use flow_rules::{Axiom, Verdict};
use unit_sets::{MatSet, UnitSet};

impl Graph {
    /// The materials at which S1 is broken: products that no unit of the set uses or makes.
    pub fn breaking_s1(&self, set: UnitSet) -> MatSet
        requires { (u : ℕ) → has set u ≡ true → u < (shape self.now).units }
        ensures { (x : ℕ) → (has result x ≡ true) ↔ BreaksS1 (shape self.now) (has set) x }
    {
        self.products().minus(self.materials(set))
    }

    /// The materials at which S2 is broken: raw materials that the set makes, and others that it
    /// uses and does not make.
    pub fn breaking_s2(&self, set: UnitSet) -> MatSet
        requires { (u : ℕ) → has set u ≡ true → u < (shape self.now).units }
        ensures { (x : ℕ) → (has result x ≡ true) ↔ BreaksS2 (shape self.now) (has set) x }
    {
        let raws = self.raws();
        let made = self.made(set);
        made.meet(raws)
            .union(self.used(set).minus(raws.union(made)))
    }

    /// The units at which S4 is broken: those of the set without a path to a product through units
    /// of the set.
    pub fn breaking_s4(&self, set: UnitSet) -> UnitSet
        ensures broken { (u : ℕ) → (has result u ≡ true) ↔ BreaksS4 (shape self.now) (has set) u }
        ensures others { (u : ℕ) → has set u ≡ true → has result u ≡ false
            → HasPath (shape self.now) (has set) u }
    {
        set.minus(self.reaching(set))
    }

    /// Judges the set, with the materials of its units, by the axioms in their order.
    pub fn judge(&self, set: UnitSet) -> Verdict
        requires { (u : ℕ) → has set u ≡ true → u < (shape self.now).units }
        ensures judges { Judges (shape self.now) (has set) result }
        ensures meets { (result ≡ Verdict.Meets) ↔ IsStructure (shape self.now) (has set) }
    {
        let missing = self.breaking_s1(set);
        missing.rises();
        if let Some(at) = missing.least() {
            let axiom = Axiom::S1;
            return Verdict::Breaks { axiom, at };
        }
        let unbalanced = self.breaking_s2(set);
        unbalanced.rises();
        if let Some(at) = unbalanced.least() {
            let axiom = Axiom::S2;
            return Verdict::Breaks { axiom, at };
        }
        let pathless = self.breaking_s4(set);
        pathless.rises();
        match pathless.least() {
            Some(at) => Verdict::Breaks {
                axiom: Axiom::S4,
                at,
            },
            None => Verdict::Meets,
        }
    }
}
