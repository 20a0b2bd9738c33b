//! The greatest flow of a network.
ghost use Rattle.std.specs.Prelude.{◌≡◌, ◌<◌, true, Some, IfSome, option_map, unsigned_abs, length};
ghost use Rattle.report_amounts.specs.integer_laws.Range.{InRange};
ghost use Rattle.report_amounts.specs.number_sets.Sets.{has};
ghost use Rattle.report_amounts.specs.tree_rules.Claim.{IsFeasible};
ghost use Rattle.report_amounts.specs.report_rules.Aligned.{greater};
ghost use Rattle.report_amounts.specs.report_rules.Drawn.{moved, most_of, most_at, greatest_flow};

use report_amounts::{Network, Problem, Term, moved_at, rate_at, size_at, valid_is_proper};

/// What a unit of the network makes of the material less what it uses of it, in 10^-12 over d.
pub(crate) fn moved(problem: &Problem, network: &Network, u: u32, j: u32) -> i128
    requires unit { u < length problem.now.units }
    requires in_network { has network.now.units u ≡ true }
    requires feasible { IsFeasible problem.now network.now }
    ensures value { result ≡ moved problem.now network.now u j }
    ensures in_range { InRange result }
{
    problem.is_valid();
    valid_is_proper();
    moved_at(rate_at(problem, j, u), size_at(network, u))
}

fn greater(least: u128, number: u128) -> u128
    ensures { result ≡ greater least number }
{
    if least < number { number } else { least }
}

/// The greatest flow of the arcs of these terms of the unit, or `least` if none is above it.
fn most_of(problem: &Problem, network: &Network, u: u32, least: u128, terms: &[Term]) -> u128
    requires unit { u < length problem.now.units }
    requires in_network { has network.now.units u ≡ true }
    requires feasible { IsFeasible problem.now network.now }
    ensures { result ≡ most_of problem.now network.now u least terms.now }
{
    let mut most = least;
    'terms: for term in terms {
        let flow = moved(problem, network, u, term.material);
        most = greater(most, flow.unsigned_abs());
    }
    most
}

/// The greatest flow of the arcs of the unit, or `least` if none is above it.
fn most_at(problem: &Problem, network: &Network, least: u128, u: u32) -> u128
    requires unit { u < length problem.now.units }
    requires in_network { has network.now.units u ≡ true }
    requires feasible { IsFeasible problem.now network.now }
    ensures { result ≡ most_at problem.now network.now least u }
{
    let unit = &problem.units()[u as usize];
    let most = most_of(problem, network, u, least, &unit.inputs);
    most_of(problem, network, u, most, &unit.outputs)
}

fn greatest_in(problem: &Problem, network: &Network) -> u128
    requires { IsFeasible problem.now network.now }
    ensures { result ≡ greatest_flow problem.now (Some network.now) }
{
    let mut most = 0;
    for u in network.units() {
        most = most_at(problem, network, most, u);
    }
    most
}

/// The greatest flow of an arc of the network in 10^-12 over its `d`, or 0 without a network.
pub(crate) fn greatest_flow(problem: &Problem, network: Option<&Network>) -> u128
    requires { IfSome network (λ n. IsFeasible problem.now n.now) }
    ensures { result ≡ greatest_flow problem.now (option_map (λ n. n.now) network.entry) }
{
    match network {
        None => 0,
        Some(network) => greatest_in(problem, network),
    }
}
