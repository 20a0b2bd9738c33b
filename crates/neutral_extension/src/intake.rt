//! What the units taken in need, use, make and exclude.
ghost use Rattle.std.specs.Prelude.{◌≡◌, ◌<◌, ℕ, true};
ghost use Rattle.pgraph.specs.number_sets.Sets.{has, IsWithin};
ghost use Rattle.pgraph.specs.pns_rules.Structure.{is_made, is_used};
ghost use Rattle.pgraph.specs.Tables.{shape};
ghost use Rattle.neutral_extension.specs.OpenLeaf.{IsIntake};

use pgraph::{Graph, MatSet, UnitSet};

/// What the units taken in need, use, make and exclude.
#[derive(Clone, Copy, Debug)]
pub struct Intake {
    /// The products, and what the units use that is not raw.
    pub needed: MatSet,
    /// What some unit uses.
    pub used: MatSet,
    /// What some unit makes.
    pub made: MatSet,
    /// The other units that share an exclusion with one of them.
    pub rivals: UnitSet,
    /// The least exclusion that has two of them.
    pub clash: Option<u32>,
}

fn intake_with(graph: &Graph, units: UnitSet, used: MatSet, made: MatSet) -> Intake
    requires used { has used ≡ is_used (shape graph.now) (has units) }
    requires made { has made ≡ is_made (shape graph.now) (has units) }
    ensures { IsIntake (shape graph.now) (has units) result }
{
    let needed = graph.products().union(used.minus(graph.raws()));
    let rivals = graph.rivals(units);
    let clash = graph.clash(units);
    Intake {
        needed,
        used,
        made,
        rivals,
        clash,
    }
}

/// The intake of the units.
pub fn intake_of(graph: &Graph, units: UnitSet) -> Intake
    requires { (u : ℕ) → has units u ≡ true → u < (shape graph.now).units }
    ensures { IsIntake (shape graph.now) (has units) result }
{
    intake_with(graph, units, graph.used(units), graph.made(units))
}

/// The intake of the units, from that of some of them. It looks only at those that are new.
pub fn intake_after(graph: &Graph, intake: &Intake, before: UnitSet, units: UnitSet) -> Intake
    requires before { IsIntake (shape graph.now) (has before) intake.now }
    requires known { (u : ℕ) → has units u ≡ true → u < (shape graph.now).units }
    requires grown { IsWithin (has before) (has units) }
    ensures { IsIntake (shape graph.now) (has units) result }
{
    let more = units.minus(before);
    if more.is_empty() {
        return *intake;
    }
    let used = intake.used.union(graph.used(more));
    let made = intake.made.union(graph.made(more));
    intake_with(graph, units, used, made)
}
