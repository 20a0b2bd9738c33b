//! The design of a network.
ghost use Rattle.std.specs.Prelude.{◌≡◌, ◌≤◌, ◌<◌, ◌+◌, ◌*◌, ◌++◌, ◌∷◌, [], ℕ, true, pos, IfOk};
ghost use Rattle.std.specs.Prelude.{OnOk, length, cond, map, slice_index_or};
ghost use Rattle.std.specs.List.{range_with_len};
ghost use Rattle.plan_laws.specs.number_sets.Sets.{has, with_number};
ghost use Rattle.plan_laws.specs.plan_rules.Plan.{IsPlan};
ghost use Rattle.plan_laws.specs.plan_rules.Expanded.{expanded};
ghost use Rattle.plan_laws.specs.tree_rules.Claim.{IsFeasible, size_in};
ghost use Rattle.plan_laws.specs.plan_rules.Folded.{folded, run_from, run_in};

use crate::Plan;
use crate::design::{Design, Run};
use branch_tree::Network;
use edit_scripts::Problem;
use flow_program::{UnitSet, by_unit};
use plan_laws::plans_are_short;
use std::alloc::{AllocError, Global};

/// If the unit `i` is taken, adds it to the set, and appends its size.
fn take_if(
    taken: bool,
    units: UnitSet,
    sizes: &mut Vec<i128>,
    i: u32,
    size: i128,
) -> Result<UnitSet, AllocError>
    requires { i < 128 }
    ensures units { IfOk result (λ more. more ≡ cond taken (with_number i units) units) }
    ensures sizes { OnOk result (sizes.new.items ≡ sizes.old.items ++ cond taken (size ∷ []) []) }
{
    if taken {
        sizes.push(size)?;
        Ok(units.with(i))
    } else {
        Ok(units)
    }
}

/// The units of the network among `count` numbers from `first` on, which then count from 0, and
/// their sizes. The table has sizes by number.
fn run_from(
    alloc: Global,
    network: &Network,
    size_at: &[i128; 128],
    first: u32,
    count: u32,
) -> Result<Run, AllocError>
    requires sizes { (k : ℕ) → has network.now.units k ≡ true
        → slice_index_or size_at.now k (pos 0) ≡ size_in network.now k }
    requires few { first + count ≤ 128 }
    ensures { IfOk result (λ run. run ≡ run_from network.now first count) }
{
    let all = network.units();
    let mut units = UnitSet::empty();
    let mut sizes = Vec::new(alloc);
    'taking: for i in 0..count {
        let k = first + i;
        units = take_if(all.has(k), units, &mut sizes, i, size_at[k as usize])?;
    }
    Ok(Run { units, sizes })
}

/// How each of this many periods runs, for a plant of this many units.
fn runs_of(
    alloc: Global,
    network: &Network,
    size_at: &[i128; 128],
    units: u32,
    periods: u32,
) -> Result<Vec<Run>, AllocError>
    requires sizes { (k : ℕ) → has network.now.units k ≡ true
        → slice_index_or size_at.now k (pos 0) ≡ size_in network.now k }
    requires few { units * (periods + 1) ≤ 128 }
    requires short { periods ≤ 256 }
    ensures { IfOk result
        (λ v. v.items ≡ map (λ t. run_from network.now (units + t * units + 0) units)
        (range_with_len 0 periods)) }
{
    let mut runs = Vec::new(alloc);
    'running: for t in 0..periods {
        let before = t * units;
        let first = units + before;
        runs.push(run_from(alloc, network, size_at, first, units)?)?;
    }
    Ok(runs)
}

/// The size of each unit of the network, by number.
fn size_table(network: &Network) -> [i128; 128]
    ensures { (k : ℕ) → has network.now.units k ≡ true
        → slice_index_or result k (pos 0) ≡ size_in network.now k }
{
    network.is_sized();
    by_unit(network.units(), network.sizes())
}

fn unit_count(problem: &Problem) -> u32
    ensures { result ≡ length problem.now.units }
{
    problem.is_valid();
    problem.units().len() as u32
}

fn period_count(plan: &Plan) -> u32
    requires { length plan.now.periods ≤ 256 }
    ensures { result ≡ length plan.now.periods }
{
    plan.periods.len() as u32
}

/// The design that the network stands for. The units that build are the units that are built, at
/// their capacities. The copies that run in a period are the units that run in it. The only error
/// is that there is no memory.
pub fn fold(
    alloc: Global,
    problem: &Problem,
    plan: &Plan,
    network: &Network,
) -> Result<Design, AllocError>
    requires plan { IsPlan problem.now plan.now }
    requires feasible { IsFeasible (expanded problem.now plan.now) network.now }
    ensures { IfOk result (λ design. design ≡ folded problem.now plan.now network.now) }
{
    problem.is_valid();
    plans_are_short();
    let units = unit_count(problem);
    let periods = period_count(plan);
    let size_at = size_table(network);
    let built = run_from(alloc, network, &size_at, 0, units)?;
    let runs = runs_of(alloc, network, &size_at, units, periods)?;
    Ok(Design {
        built: built.units,
        capacities: built.sizes,
        runs,
        d: network.d(),
        cost: network.cost(),
    })
}
