//! The lower bound of a tree or of a ranking that is not finished, and the gap between the network
//! and it.
ghost use Rattle.std.specs.Prelude.{◌≡◌, pos, IfOk, codes};
ghost use Rattle.report_rules.specs.tree_rules.Claim as claims;
ghost use Rattle.tree_reading.specs.branch_tree.View.{claim_of};
ghost use Rattle.report_rules.specs.Amounts.{quotient};
ghost use Rattle.report_rules.specs.Json.{member};
ghost use Rattle.report_rules.specs.JsonLower as rules;
ghost use Rattle.report_rules.specs.RankLow.{best_claim};

use crate::Json;
use crate::foot::year;
use report_rules::{LowerBound, Verdict};
use report_tables::{Number, gap_above};
use std::alloc::{AllocError, Global};
use tree_reading::{Claim, Network, Problem};

/// The bound in 10^-18, not yet divided by the payout period.
#[tactic(auto, unfolding(crate::specs::Unfolded::quotient))]
fn bounding(low: &LowerBound) -> Number
    ensures { result ≡ quotient low.now.cost low.now.d }
{
    Number::of(low.cost, low.d)
}

/// The bound for one year.
fn low_money(problem: &Problem, low: &LowerBound) -> Number
    ensures { result ≡ rules.low_money problem.now low.now }
{
    bounding(low).times(&year(problem))
}

fn bound_json(alloc: Global, problem: &Problem, low: Option<LowerBound>) -> Result<Json, AllocError>
    ensures { IfOk result (λ json. json ≡ rules.bound_json problem.now low) }
{
    match low {
        None => Json::null(alloc),
        Some(low) => Json::number(alloc, low_money(problem, &low).fraction()),
    }
}

fn low_json(alloc: Global, problem: &Problem, verdict: Verdict) -> Result<Json, AllocError>
    ensures { IfOk result (λ json. json ≡ rules.low_json problem.now verdict) }
{
    match verdict {
        Verdict::Unfinished { low } => bound_json(alloc, problem, low),
        Verdict::Proved | Verdict::Fails { .. } => Json::null(alloc),
    }
}

/// The lower bound for one year, under its key.
pub fn low_member(alloc: Global, problem: &Problem, verdict: Verdict) -> Result<Json, AllocError>
    ensures { IfOk result
        (λ json. json ≡ member (codes "low") (rules.low_json problem.now verdict)) }
{
    let low = low_json(alloc, problem, verdict)?;
    Json::member(alloc, "low", &low)
}

/// The gap, or `null` if the network costs nothing.
#[tactic(auto, unfolding(crate::specs::Unfolded::gap_over))]
fn gap_over(alloc: Global, network: &Network, low: &LowerBound) -> Result<Json, AllocError>
    ensures { IfOk result (λ json. json ≡ rules.gap_over network.now low.now) }
{
    if network.cost() == 0 {
        Json::null(alloc)
    } else {
        Json::number(alloc, gap_above(network, low).fraction())
    }
}

fn gap_between(alloc: Global, claim: &Claim, low: Option<LowerBound>) -> Result<Json, AllocError>
    ensures { IfOk result (λ json. json ≡ rules.gap_between (claim_of claim.now) low) }
{
    match (claim, low) {
        (Claim::Network(network), Some(low)) => gap_over(alloc, network, &low),
        (Claim::Network(_), None) => Json::null(alloc),
        (Claim::Infeasible | Claim::Unknown, _) => Json::null(alloc),
    }
}

fn gap_json(alloc: Global, claim: &Claim, verdict: Verdict) -> Result<Json, AllocError>
    ensures { IfOk result (λ json. json ≡ rules.gap_json (claim_of claim.now) verdict) }
{
    match verdict {
        Verdict::Unfinished { low } => gap_between(alloc, claim, low),
        Verdict::Proved | Verdict::Fails { .. } => Json::null(alloc),
    }
}

/// How far the network is above the lower bound, over the size of its cost, under its key.
pub fn gap_member(alloc: Global, claim: &Claim, verdict: Verdict) -> Result<Json, AllocError>
    ensures { IfOk result
        (λ json. json ≡ member (codes "gap") (rules.gap_json (claim_of claim.now) verdict)) }
{
    let gap = gap_json(alloc, claim, verdict)?;
    Json::member(alloc, "gap", &gap)
}

/// A lower bound for one year, under its key.
pub fn bound_member(
    alloc: Global,
    problem: &Problem,
    low: Option<LowerBound>,
) -> Result<Json, AllocError>
    ensures { IfOk result (λ json. json ≡ member (codes "low") (rules.bound_json problem.now low)) }
{
    let bound = bound_json(alloc, problem, low)?;
    Json::member(alloc, "low", &bound)
}

/// The gap of a network, or `null` if no bound is known.
fn gap_of(alloc: Global, network: &Network, low: Option<LowerBound>) -> Result<Json, AllocError>
    ensures { IfOk result
        (λ json. json ≡ rules.gap_between (claims.network network.now) low) }
{
    match low {
        Some(low) => gap_over(alloc, network, &low),
        None => Json::null(alloc),
    }
}

fn first_gap(
    alloc: Global,
    networks: &[Network],
    low: Option<LowerBound>,
) -> Result<Json, AllocError>
    ensures { IfOk result (λ json. json ≡ rules.gap_between (best_claim networks.now) low) }
{
    match networks.split_first() {
        Some((first, _)) => gap_of(alloc, first, low),
        None => Json::null(alloc),
    }
}

/// How far the first network is above the lower bound, over the size of its cost, under its key.
pub fn first_gap_member(
    alloc: Global,
    networks: &[Network],
    low: Option<LowerBound>,
) -> Result<Json, AllocError>
    ensures { IfOk result
        (λ json. json ≡ member (codes "gap") (rules.gap_between (best_claim networks.now) low)) }
{
    let gap = first_gap(alloc, networks, low)?;
    Json::member(alloc, "gap", &gap)
}
