//! The graph of a ranking.
ghost use Rattle.std.specs.Prelude.{[]};
ghost use Rattle.rank_text.specs.rank_rules.Networks.{ArePassing};
ghost use Rattle.network_commands.specs.studio_rules.RankGraph.{RankGraphWork};
ghost use Rattle.network_commands.specs.studio_rules.Ending.{Ends, Tells};

use crate::ranking::say_network;
use network_commands::say::say_told;
use network_commands::{Scene, Status, list_graph, say_refused};
use rank_text::{Outputs, RankText, Sink, Site, Why, judge_networks};
use std::alloc::Global;

/// Prints the graph of this scene with the first network in it, and all as a table; or that there
/// is none.
fn say_first<K: Sink, E: Sink>(
    alloc: Global,
    scene: Scene,
    out: &mut Outputs<K, E>,
    site: &Site<'_>,
    ranking: &RankText,
) -> Status
    requires listed { ArePassing ranking.now.distinct site.now [] ranking.now.networks }
    ensures { Ends (Tells (RankGraphWork scene site.now ranking.now)) out.old out.new result }
{
    ranking.is_counted();
    let networks = ranking.networks();
    match networks.split_first() {
        Some((first, _)) => say_told(out, list_graph(alloc, scene, site, first, networks)),
        None => say_refused(alloc, out, Why::Unknown),
    }
}

/// The same, or the first network that fails.
pub(crate) fn say_drawn<K: Sink, E: Sink>(
    alloc: Global,
    scene: Scene,
    out: &mut Outputs<K, E>,
    site: &Site<'_>,
    ranking: &RankText,
) -> Status
    ensures { Ends (Tells (RankGraphWork scene site.now ranking.now)) out.old out.new result }
{
    ranking.is_counted();
    match judge_networks(site, ranking.is_distinct(), ranking.networks()) {
        Ok(()) => say_first(alloc, scene, out, site, ranking),
        Err((number, why)) => say_network(alloc, out, number, why),
    }
}
