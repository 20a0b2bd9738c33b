//! The command `stable`.
ghost use Rattle.std.specs.Prelude.{◌≡◌, ◌≤◌, ℕ, IfSome, length};
ghost use Rattle.stability.specs.number_sets.Sets.{AreBelow};
ghost use Rattle.stability.specs.pns_rules.Shape.{shape_of};
ghost use Rattle.stability.specs.pgraph.Tables.{shape};
ghost use Rattle.stability.specs.tree_rules.Claim.{Network, IsFeasible};
ghost use Rattle.stability.specs.tree_rules.Accepted.{first_node};
ghost use Rattle.stability.specs.branch_tree.View.{claim_of};
ghost use Rattle.stability.specs.abb_search.Found.{IsFound};
ghost use Rattle.network_commands.specs.studio_rules.Reading.{TwoFilesSay};
ghost use Rattle.network_commands.specs.studio_rules.HeadedFile.{AnyHead, OnHeaded};
ghost use Rattle.network_commands.specs.studio_rules.Network.{OnNetwork};
ghost use Rattle.stability.specs.report_rules.Spot.{KnowsSpot, IsAllowedValue, valued};
ghost use Rattle.stability.specs.Refusal.{IsRefusal};
ghost use Rattle.network_commands.specs.studio_rules.Stable.{spot_named, not_best_lines};
ghost use Rattle.network_commands.specs.studio_rules.Stable.{past_cost_lines, SpotWork};
ghost use Rattle.network_commands.specs.studio_rules.Stable.{NamedWork, StableWork};
ghost use Rattle.stability_commands.specs.Beyond.{StopSays};
ghost use Rattle.network_commands.specs.studio_rules.declared.status.Status.TheVariants.{NotBest};
ghost use Rattle.network_commands.specs.studio_rules.declared.status.Status.TheVariants.{Past};
ghost use Rattle.network_commands.specs.studio_rules.Printed.{OneAnswer};
ghost use Rattle.network_commands.specs.studio_rules.Ending.{Ends, Says, Tells};
ghost use Rattle.network_commands.specs.studio_rules.Keeps.{Keeps};

use crate::text::{print_not_best, print_past_cost, print_range, print_stopped};
use network_commands::say::{say_memory, say_printed, tell};
use network_commands::{
    Headed, Notes, PrintFault, Status, headed_of, network_of, problem_of, unknown_material,
    unknown_unit,
};
use searches::certificate_of;
use stability::{
    Claim, Effort, Found, Graph, Network, Outputs, Problem, RangeFault, Shelf, Sink, Site, Spot,
    SpotKind, Tree, Watch, accepted_is_optimal, range, structures_stay, valued, valued_is_valid,
};
use std::alloc::Global;

/// The spot of this kind and name. It is `None` if and only if the problem has no such material or
/// unit.
fn spot_named(problem: &Problem, kind: SpotKind, name: &str) -> Option<Spot>
    ensures { result ≡ spot_named problem.now kind name.now }
{
    match kind {
        SpotKind::Price => match problem.material_named(name) {
            Some(x) => Some(Spot::Price(x)),
            None => None,
        },
        SpotKind::Fix => match problem.unit_named(name) {
            Some(u) => Some(Spot::Fix(u)),
            None => None,
        },
        SpotKind::Proportional => match problem.unit_named(name) {
            Some(u) => Some(Spot::Proportional(u)),
            None => None,
        },
    }
}

// What is printed of a name that the problem does not have.
fn unknown_name(alloc: Global, problem: &Problem, kind: SpotKind, name: &str) -> Notes {
    match kind {
        SpotKind::Price => unknown_material(alloc, problem, name),
        SpotKind::Fix | SpotKind::Proportional => unknown_unit(alloc, problem, name),
    }
}

/// Prints that a network is not the best, and a cheaper one of least cost.
pub(crate) fn say_not_best<K: Sink, E: Sink>(
    alloc: Global,
    out: &mut Outputs<K, E>,
    problem: &Problem,
    cheaper: &Network,
) -> Status
    requires { AreBelow (length problem.now.units) cheaper.now.units }
    ensures { Ends (Tells (OneAnswer NotBest (not_best_lines problem.now cheaper.now))) out.old
        out.new result }
{
    match print_not_best(alloc, problem, cheaper, &mut out.out) {
        Ok(()) => Status::NotBest,
        Err(PrintFault::WriteFault) => Status::WriteFault,
        Err(PrintFault::Memory) => say_memory(out),
    }
}

/// Prints that the network's cost overflows at a value.
fn say_past_cost<K: Sink, E: Sink>(
    alloc: Global,
    out: &mut Outputs<K, E>,
    value: i64,
    at: u32,
) -> Status
    ensures { Ends (Tells (OneAnswer Past (past_cost_lines value at))) out.old out.new result }
{
    let printed = print_past_cost(alloc, value, at, &mut out.out);
    say_printed(out, printed, Status::Past)
}

/// Prints at which value a search stopped, and how far it came on the problem with this value in
/// the spot.
fn say_stopped<K: Sink, E: Sink>(
    alloc: Global,
    out: &mut Outputs<K, E>,
    problem: &Problem,
    spot: Spot,
    value: i64,
    found: Found,
) -> Status
    requires known { KnowsSpot problem.now spot }
    requires allowed { IsAllowedValue spot value }
    requires found { (budget : ℕ)
        × IsFound (valued problem.now spot value) first_node budget found }
    ensures { Ends (Tells (StopSays (valued problem.now spot value) value found)) out.old out.new
        result }
{
    let Ok(other) = valued(alloc, problem, spot, value) else {
        return say_memory(out);
    };
    match certificate_of(found) {
        Some(certificate) => {
            certificate.reads_back(&other);
            let printed = print_stopped(alloc, &other, value, &certificate, &mut out.out);
            say_printed(out, printed, certificate.status())
        }
        None => say_memory(out),
    }
}

/// Prints why there is no range.
fn say_refusal<K: Sink, E: Sink>(
    alloc: Global,
    out: &mut Outputs<K, E>,
    problem: &Problem,
    spot: Spot,
    fault: RangeFault,
) -> Status
    requires known { KnowsSpot problem.now spot }
    requires refusal { (w : Network) × (budget : ℕ) × IsRefusal problem.now spot w budget fault }
    ensures { (w : Network) (budget : ℕ) → IsRefusal problem.now spot w budget fault
        → Ends (Tells (SpotWork spot budget problem.now w)) out.old out.new result }
{
    problem.is_valid();
    valued_is_valid();
    accepted_is_optimal();
    match fault {
        RangeFault::NotBest(cheaper) => say_not_best(alloc, out, problem, &cheaper),
        RangeFault::Spent {
            value,
            best,
            tree,
            next,
            options,
        } => {
            let found = Found::Spent {
                best,
                tree,
                next,
                options,
            };
            say_stopped(alloc, out, problem, spot, value, found)
        }
        RangeFault::Past {
            value,
            best,
            tree,
            node,
            nonbasic,
            place,
        } => {
            let found = Found::Past {
                best,
                tree,
                node,
                nonbasic,
                place,
            };
            say_stopped(alloc, out, problem, spot, value, found)
        }
        RangeFault::PastCost { value, at } => say_past_cost(alloc, out, value, at),
        RangeFault::Memory => say_memory(out),
    }
}

/// Prints the range of a spot for a network, or why there is none.
fn say_range<K: Sink, E: Sink, W: Watch>(
    alloc: Global,
    out: &mut Outputs<K, E>,
    problem: &Problem,
    graph: &Graph,
    network: &Network,
    spot: Spot,
    effort: Effort<W>,
) -> Status
    requires graph { shape graph.now ≡ shape_of problem.now }
    requires passes { IsFeasible problem.now network.now }
    requires known { KnowsSpot problem.now spot }
    requires some { 1 ≤ effort.budget }
    requires few { effort.budget ≤ 1000000 }
    ensures { Ends (Tells (SpotWork spot effort.budget problem.now network.now)) out.old out.new
        result }
{
    structures_stay();
    let site = Site::of(problem, graph);
    match range(alloc, &site, network, spot, effort) {
        Ok(range) => {
            let printed = print_range(alloc, problem, &range, &mut out.out);
            say_printed(out, printed, Status::Done)
        }
        Err(fault) => say_refusal(alloc, out, problem, spot, fault),
    }
}

/// Prints the range for the network of a claim, of which each line is judged.
fn say_claimed<K: Sink, E: Sink, W: Watch>(
    alloc: Global,
    out: &mut Outputs<K, E>,
    problem: &Problem,
    claim: Claim,
    tree: &Tree,
    spot: Spot,
    effort: Effort<W>,
) -> Status
    requires known { KnowsSpot problem.now spot }
    requires some { 1 ≤ effort.budget }
    requires few { effort.budget ≤ 1000000 }
    ensures { Ends
        (Tells (OnNetwork (SpotWork spot effort.budget) problem.now (claim_of claim) tree.now))
        out.old out.new result }
{
    let Ok(graph) = Graph::of(alloc, problem) else {
        return say_memory(out);
    };
    let site = Site::of(problem, &graph);
    match network_of(alloc, out, &site, claim) {
        Ok(network) => say_range(alloc, out, problem, &graph, &network, spot, effort),
        Err(status) => status,
    }
}

/// Prints the same, or that the problem does not have the name.
fn say_named<K: Sink, E: Sink, W: Watch>(
    alloc: Global,
    out: &mut Outputs<K, E>,
    problem: &Problem,
    claim: Claim,
    tree: &Tree,
    spot: Option<Spot>,
    effort: Effort<W>,
    notes: &Notes,
) -> Status
    requires known { IfSome spot (KnowsSpot problem.now) }
    requires some { 1 ≤ effort.budget }
    requires few { effort.budget ≤ 1000000 }
    ensures { Ends (Tells (NamedWork spot effort.budget problem.now (claim_of claim) tree.now))
        out.old out.new result }
{
    match spot {
        Some(spot) => say_claimed(alloc, out, problem, claim, tree, spot, effort),
        None => tell(out, b"unknown name\n", notes.bytes(), Status::UnknownName),
    }
}

/// Prints the same for the claim of a tree file.
fn say_tree<F: Shelf, K: Sink, E: Sink, W: Watch>(
    alloc: Global,
    problem: &Problem,
    file: &str,
    kind: SpotKind,
    name: &str,
    effort: Effort<W>,
    shelf: &mut F,
    out: &mut Outputs<K, E>,
) -> Status
    requires some { 1 ≤ effort.budget }
    requires few { effort.budget ≤ 1000000 }
    ensures ends { Ends
        (Says
        (OnHeaded (AnyHead (StableWork kind name.now effort.budget)) (F.state shelf.old).held
        file.now problem.now) (λ other. other ≡ file.now) (F.state shelf.old) (F.state shelf.new))
        out.old out.new result }
    ensures keeps { Keeps (F.state shelf.old) (F.state shelf.new) }
{
    match headed_of(alloc, shelf, out, file, problem) {
        Ok(text) => {
            let Headed { claim, tree, .. } = text;
            let spot = spot_named(problem, kind, name);
            let notes = unknown_name(alloc, problem, kind, name);
            say_named(alloc, out, problem, claim, &tree, spot, effort, &notes)
        }
        Err(status) => status,
    }
}

/// Prints how far the price or the cost of this name may move. Within the range, the network that
/// the tree of the one file claims on the problem of the other stays optimal. A network that is
/// cheaper one step beyond an end is printed too, unless the end is the limit of the values.
pub fn stable<F: Shelf, K: Sink, E: Sink, W: Watch>(
    alloc: Global,
    file: &str,
    tree: &str,
    kind: SpotKind,
    name: &str,
    effort: Effort<W>,
    shelf: &mut F,
    out: &mut Outputs<K, E>,
) -> Status
    requires some { 1 ≤ effort.budget }
    requires few { effort.budget ≤ 1000000 }
    ensures ends { Ends
        (TwoFilesSay (OnHeaded (AnyHead (StableWork kind name.now effort.budget))) file.now
        tree.now (F.state shelf.old) (F.state shelf.new)) out.old out.new result }
    ensures keeps { Keeps (F.state shelf.old) (F.state shelf.new) }
{
    match problem_of(alloc, shelf, out, file) {
        Ok(problem) => say_tree(alloc, &problem, tree, kind, name, effort, shelf, out),
        Err(status) => status,
    }
}
