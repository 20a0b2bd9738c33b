//! The rates of a unit, by material.
ghost use Rattle.std.specs.Prelude.{◌≡◌, ◌<◌, ◌≤◌, ℕ, pos, neg_ℤ, cond, length, slice_index_or};
ghost use Rattle.pgraph.specs.problem_rules.Problem.{terms_have, rate_in};
ghost use Rattle.pgraph.specs.problem_rules.WellFormed.{IsInRange, IsWellFormedSide};
ghost use Rattle.pgraph.specs.pns_rules.Shape.{shape_of};
ghost use Rattle.pgraph.specs.Tables.{shape};
ghost use Rattle.flow_program.specs.Rates.{AreRates};

use pgraph::{Graph, MatSet, Problem, Term};

/// The rate, negative if it is of an input.
fn signed(rate: i64, used: bool) -> i64
    requires { IsInRange rate }
    ensures { result ≡ cond used (neg_ℤ rate) rate }
{
    if used { -rate } else { rate }
}

/// Writes the rate of each term at its material.
fn put(rates: &mut [i64], terms: &[Term], used: bool, materials: u32)
    requires size { length rates.old ≡ 256 }
    requires few { materials ≤ 256 }
    requires formed { IsWellFormedSide materials terms.now }
    ensures size { length rates.new ≡ 256 }
    ensures written { (x : ℕ) → slice_index_or rates.new x (pos 0)
        ≡ cond (terms_have terms.now x)
        (cond used (neg_ℤ (rate_in terms.now x)) (rate_in terms.now x))
        (slice_index_or rates.old x (pos 0)) }
{
    'writing: for term in terms {
        rates[term.material as usize] = signed(term.rate, used);
    }
}

/// Writes the rates of the unit at its materials, which are returned; the rest stays.
pub fn put_rates(rates: &mut [i64], problem: &Problem, graph: &Graph, u: u32) -> MatSet
    requires size { length rates.old ≡ 256 }
    requires unit { u < length problem.now.units }
    requires graph { shape graph.now ≡ shape_of problem.now }
    ensures { AreRates problem.now u result rates.new }
{
    problem.is_valid();
    graph.is_proper();
    let materials = problem.materials().len() as u32;
    let unit = &problem.units()[u as usize];
    put(rates, &unit.outputs, false, materials);
    put(rates, &unit.inputs, true, materials);
    graph.inputs(u).union(graph.outputs(u))
}
