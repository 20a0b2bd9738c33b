//! Progress reports of a search.

use crate::growing::Growing;
use node_evaluation::{Network, Site};
use pns_io::{Progress, Watch};

/// How many leaves are open.
fn open_leaves(growing: &Growing) -> u32 {
    let mut next = growing.pool.least();
    'leaves: for count in 0..growing.nodes {
        let Some(leaf) = next else {
            return count;
        };
        next = growing.pool.next_open(leaf);
    }
    growing.nodes
}

/// The least value of an open leaf, rounded down.
fn least_value(growing: &Growing) -> Option<i128> {
    growing.pool.is_pool();
    match growing.pool.least() {
        None => None,
        Some(leaf) => Some(growing.pool.value(leaf).floor()),
    }
}

/// What the network costs, rounded down.
fn whole_cost(network: &Network) -> i128 {
    network.is_sized();
    network.cost().div_euclid(network.d())
}

fn progress_of(site: &Site<'_>, growing: &Growing) -> Progress {
    let problem = site.problem();
    problem.is_valid();
    let best = match &growing.best {
        None => None,
        Some(network) => Some(whole_cost(network)),
    };
    Progress {
        nodes: growing.nodes,
        open: open_leaves(growing),
        best,
        bound: least_value(growing),
        years: problem.payout() as u8,
    }
}

/// Reports to the watch how far the search is, if that is due. The open leaves are counted for this
/// alone.
pub fn report_progress<W: Watch>(watch: &mut W, site: &Site<'_>, growing: &Growing) {
    if watch.is_due() {
        watch.report(&progress_of(site, growing));
    }
}
