//! The whole search, over any evaluator of nodes.
ghost use Rattle.std.specs.Prelude.{◌≡◌, ◌≤◌, IfOk};
ghost use Rattle.rank_check.specs.pns_rules.Shape.{shape_of};
ghost use Rattle.abb_search.specs.neutral_extension.Candidates.{AreMakersOf};
ghost use Rattle.rank_search.specs.Ranked.{IsRankedBy};
ghost use Rattle.rank_search.specs.Turns.{IsRanking};

use crate::found::FoundNetworks;
use crate::outcome::Ranked;
use crate::told::ranked_by;
use crate::turns::run;
use abb_search::{Effort, Evaluator, Growing, Watch, Workspace, copy_of_network, look_at_root};
use rank_check::{Node, Site, UnitSet};
use std::alloc::{AllocError, Global};

/// A search before its first turn.
#[derive(Drop)]
struct Begun {
    growing: Growing,
    found: FoundNetworks,
}

/// The root after the steps that are possible there, and the network that was found there, if there
/// is one.
fn begin<E: Evaluator>(
    workspace: &mut Workspace<E>,
    site: &Site<'_>,
    count: u32,
    budget: u32,
) -> Result<Begun, AllocError>
    requires own { E.values site.now workspace.old.evaluator }
    requires makers { AreMakersOf (shape_of site.now) workspace.old.makers.makers }
    requires asked { 1 ≤ count }
    requires some { 1 ≤ budget }
    ensures ranking { IfOk result (λ b. IsRanking E.past site.now budget b.growing b.found) }
    ensures count { IfOk result (λ b. b.found.count ≡ count) }
    ensures own { E.values site.now workspace.new.evaluator }
    ensures makers { workspace.new.makers.makers ≡ workspace.old.makers.makers }
{
    let start = Node {
        inside: UnitSet::empty(),
        outside: UnitSet::empty(),
    };
    let alloc = workspace.alloc;
    let growing = look_at_root(workspace, site, start, budget, None)?;
    let mut networks = Vec::new(alloc);
    networks.push(copy_of_network(alloc, &growing.best)?)?;
    let mut found = FoundNetworks::new(alloc, count);
    found.add_all(networks, 0)?;
    Ok(Begun { growing, found })
}

/// Searches all structures of the site's problem for so many networks whose flows are cheapest,
/// within a budget of nodes. `Err` comes if memory is refused.
fn ranked<E: Evaluator, W: Watch>(
    workspace: &mut Workspace<E>,
    site: &Site<'_>,
    count: u32,
    effort: Effort<W>,
) -> Result<Ranked, AllocError>
    requires own { E.values site.now workspace.old.evaluator }
    requires makers { AreMakersOf (shape_of site.now) workspace.old.makers.makers }
    requires asked { 1 ≤ count }
    requires some { 1 ≤ effort.budget }
    ensures { IfOk result (IsRankedBy E.past site.now count effort.budget) }
{
    let mut watch = effort.watch;
    let begun = begin(workspace, site, count, effort.budget)?;
    let mut growing = begun.growing;
    let mut found = begun.found;
    let ending = run(workspace, site, &mut growing, &mut found, &mut watch)?;
    ranked_by::<E>(workspace.alloc, site, &growing, found, ending)
}

/// Searches all structures of the site's problem for so many networks whose flows are cheapest,
/// within a budget of nodes.
pub fn rank_with<E: Evaluator, W: Watch>(
    workspace: &mut Workspace<E>,
    site: &Site<'_>,
    count: u32,
    effort: Effort<W>,
) -> Ranked
    requires own { E.values site.now workspace.old.evaluator }
    requires makers { AreMakersOf (shape_of site.now) workspace.old.makers.makers }
    requires asked { 1 ≤ count }
    requires some { 1 ≤ effort.budget }
    ensures { IsRankedBy E.past site.now count effort.budget result }
{
    match ranked(workspace, site, count, effort) {
        Ok(ranked) => ranked,
        Err(_) => Ranked::Memory,
    }
}
