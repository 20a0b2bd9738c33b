//! What is printed for people of a search that stopped.
ghost use Rattle.std.specs.Prelude.{◌≡◌};

use command_files::{Notes, Stop, not_finished};
use headed_search::{Claim, Network, Problem, Tail};
use report_amounts::push_six_digits;
use std::alloc::{AllocError, Global};

// The cost of the network in one year, with 6 digits.
fn cost_of(alloc: Global, problem: &Problem, network: &Network) -> Result<String, AllocError> {
    problem.is_valid();
    network.is_sized();
    let half = 500_000_000_000 * problem.payout().unsigned_abs();
    let mut text = String::new(alloc);
    push_six_digits(&mut text, half, network.cost(), network.d())?;
    Ok(text)
}

fn stop_of(tail: &Tail, budget: u64) -> Option<Stop> {
    match tail {
        Tail::Whole => None,
        Tail::Spent { .. } => Some(Stop::Spent { budget }),
        Tail::Past { node, .. } => Some(Stop::Past { node: *node }),
    }
}

/// The network of the claim, if it has one.
pub fn claimed(claim: &Claim) -> Option<&Network> {
    match claim {
        Claim::Network(network) => Some(network),
        Claim::Infeasible | Claim::Unknown => None,
    }
}

/// The second lines of a search with this budget: why it stopped, what its best network costs, and
/// what to do. There are none if it was finished, or if there is no memory for the cost.
pub fn stopped_notes(
    alloc: Global,
    problem: &Problem,
    best: Option<&Network>,
    tail: &Tail,
    budget: u64,
) -> Notes {
    let Some(stop) = stop_of(tail, budget) else {
        return Notes::new(alloc);
    };
    match best {
        Some(network) => match cost_of(alloc, problem, network) {
            Ok(cost) => not_finished(alloc, stop, Some(cost.as_str())),
            Err(_) => Notes::new(alloc),
        },
        None => not_finished(alloc, stop, None),
    }
}
