// The least flows of a set of units.
ghost use Rattle.std.specs.Prelude.{◌≡◌, ◌<◌, ℕ, length, true, IfOk};
ghost use Rattle.dual_simplex.specs.number_sets.Sets.{has};
ghost use Rattle.dual_simplex.specs.integer_laws.Range.{InRange, AllInRange};
ghost use Rattle.dual_simplex.specs.pns_rules.Shape.{shape_of};
ghost use Rattle.dual_simplex.specs.pns_rules.Structure.{IsStructure};
ghost use Rattle.dual_simplex.specs.flow_rules.Net.{net_of};
ghost use Rattle.dual_simplex.specs.flow_rules.Program.{program_of};
ghost use Rattle.node_evaluation.specs.tree_rules.Known.{KnowsPlace};
ghost use Rattle.dual_simplex.specs.Bench.{IsLeastOf, IsNoneOf};
ghost use Rattle.dual_simplex.specs.PastLaws.{IsPastHere};
ghost use Rattle.node_evaluation.specs.tree_rules.LeastFlows.{decided};
ghost use Rattle.flow_evaluator.specs.Answers.{AnswersFor};

use crate::answer::StructureFlows;
use crate::certified::certified;
use crate::laws::{multipliers_prove, node_is_decided};
use crate::nodes::node_of;
use dual_simplex::{
    Bench, Ends, Place, Problem, Program, Site, UnitSet, cost_is_past, cost_of, entry_is_past,
    flow_is_past, least_is_least, none_is_refuted, split_flows_are_least, sums_are_last,
};
use node_evaluation::{Columns, Multipliers, Network, Scaled};
use std::alloc::{AllocError, Global};

fn past(
    alloc: Global,
    problem: &Problem,
    set: UnitSet,
    bench: &Bench,
    place: Place,
) -> Result<StructureFlows, AllocError>
    requires past { IsPastHere (net_of problem.now) (decided problem.now set) bench.now place }
    requires known { KnowsPlace problem.now place }
    ensures { IfOk result (AnswersFor problem.now set) }
{
    let _units = problem.units().len();
    let nonbasic = bench.nonbasic().to_vec(alloc)?;
    Ok(StructureFlows::Past {
        nonbasic: Columns::from_vec(nonbasic),
        place,
    })
}

fn refuted(
    alloc: Global,
    problem: &Problem,
    set: UnitSet,
    program: &Program,
    bench: &Bench,
) -> Result<StructureFlows, AllocError>
    requires structure { IsStructure (shape_of problem.now) (has set) }
    requires program { program.now ≡ program_of (net_of problem.now) (decided problem.now set) }
    requires none { IsNoneOf program.now bench.now }
    ensures { IfOk result (AnswersFor problem.now set) }
{
    problem.is_valid();
    multipliers_prove();
    none_is_refuted();
    let _fixed = program.fixed();
    let ys = bench.ys().to_vec(alloc)?;
    Ok(StructureFlows::Refuted {
        ys: Multipliers::from_vec(ys),
    })
}

/// The multipliers that the bench keeps, with their scale.
fn kept_bound(alloc: Global, bench: &Bench) -> Result<Scaled, AllocError>
    requires scale { InRange bench.now.d }
    requires multipliers { AllInRange bench.now.ys }
    ensures { IfOk result (λ s. s ≡ record { d = bench.now.d; ys = bench.now.ys }) }
{
    Scaled::of(alloc, bench.d(), bench.ys())
}

fn least(
    alloc: Global,
    site: &Site<'_>,
    set: UnitSet,
    program: &Program,
    bench: &mut Bench,
) -> Result<StructureFlows, AllocError>
    requires known { (u : ℕ) → has set u ≡ true → u < length site.now.units }
    requires structure { IsStructure (shape_of site.now) (has set) }
    requires program { program.now ≡ program_of (net_of site.now) (decided site.now set) }
    requires least { IsLeastOf program.now bench.old }
    ensures { IfOk result (AnswersFor site.now set) }
{
    let (problem, graph) = (site.problem(), site.graph());
    multipliers_prove();
    node_is_decided();
    sums_are_last();
    least_is_least();
    split_flows_are_least();
    flow_is_past();
    cost_is_past();
    set.rises();
    if let Err(place) = bench.read_flows(program) {
        return past(alloc, problem, set, bench, place);
    }
    let sizes = bench.flows().to_vec(alloc)?;
    let bound = kept_bound(alloc, bench)?;
    let den = bench.flow_den();
    match cost_of(problem, graph, set, &sizes, den) {
        Ok(cost) => Ok(StructureFlows::Least {
            network: Network::of(set, sizes, den, cost),
            bound,
        }),
        Err(sum) => past(alloc, problem, set, bench, Place::Cost { at: sum.at }),
    }
}

/// What the path of the set's program gives.
fn walked(alloc: Global, site: &Site<'_>, set: UnitSet) -> Result<StructureFlows, AllocError>
    requires known { (u : ℕ) → has set u ≡ true → u < length site.now.units }
    requires structure { IsStructure (shape_of site.now) (has set) }
    ensures { IfOk result (AnswersFor site.now set) }
{
    let (problem, graph) = (site.problem(), site.graph());
    let node = node_of(problem, set);
    let program = Program::of(alloc, problem, graph, node)?;
    program.is_program();
    let (units, rows) = (program.units(), program.rows());
    units.rises();
    rows.rises();
    entry_is_past();
    let mut bench = Bench::open(alloc, units.count(), rows.count())?;
    match bench.least(&program) {
        Ok(Ends::Least) => least(alloc, site, set, &program, &mut bench),
        Ok(Ends::None) => refuted(alloc, problem, set, &program, &bench),
        Err(place) => past(alloc, problem, set, &bench, place),
    }
}

/// The flows of a solution structure, clash-free or not: what the path of its program gives. If a
/// number overflows on the path, it is what is certified without it.
pub fn flows_of(alloc: Global, site: &Site<'_>, set: UnitSet) -> Result<StructureFlows, AllocError>
    requires known { (u : ℕ) → has set u ≡ true → u < length site.now.units }
    requires structure { IsStructure (shape_of site.now) (has set) }
    ensures { IfOk result (AnswersFor site.now set) }
{
    match walked(alloc, site, set)? {
        StructureFlows::Past { nonbasic, place } => {
            match certified(alloc, site, set)? {
                Some(flows) => Ok(flows),
                None => Ok(StructureFlows::Past { nonbasic, place }),
            }
        }
        told => Ok(told),
    }
}
