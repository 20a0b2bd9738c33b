//! Open leaves that a charge shuts.
ghost use Rattle.std.specs.Prelude.{◌≡◌, IfSome};
ghost use Rattle.abb_search.specs.Growing.{IsGrowing, IsGoing};
ghost use Rattle.abb_search.specs.Charging.{IsCharging, KeepsGoing};

use crate::growing::{Growing, node_at, reaches, shut_leaf};
use node_evaluation::{Charged, End, Evaluator, Site, Workspace};

/// A charge of the leaf of least value that is no less than the best network's cost, with the
/// number of the leaf. If a charge is not needed, there is none: if no leaf is open, if no network
/// was found yet, or if its cost is no more than the leaf's value.
fn charge_least<E: Evaluator>(
    workspace: &mut Workspace<E>,
    site: &Site<'_>,
    growing: &Growing,
) -> Option<(u32, Charged)>
    requires own { E.values site.now workspace.old.evaluator }
    requires growing { IsGrowing E.past site.now growing.now }
    ensures charged { IfSome result (λ c. IsCharging site.now growing.now c.0 c.1) }
    ensures own { E.values site.now workspace.new.evaluator }
    ensures makers { workspace.new.makers ≡ workspace.old.makers }
{
    site.problem();
    growing.pool.is_pool();
    let leaf = growing.pool.least()?;
    let network = growing.best.as_ref()?;
    if reaches(&growing.pool.value(leaf), network) {
        return None;
    }
    let node = node_at(&growing.pool, leaf);
    let charged = workspace
        .evaluator
        .charge(workspace.alloc, site, node, network)?;
    Some((leaf, charged))
}

/// Shuts the leaf of least value, if a charge of it is found, and says whether it did.
fn shut_least<E: Evaluator>(
    workspace: &mut Workspace<E>,
    site: &Site<'_>,
    growing: &mut Growing,
) -> bool
    requires own { E.values site.now workspace.old.evaluator }
    requires going { IsGoing E.past site.now growing.old }
    ensures keeps { KeepsGoing E.past site.now growing.old growing.new }
    ensures own { E.values site.now workspace.new.evaluator }
    ensures makers { workspace.new.makers ≡ workspace.old.makers }
{
    if growing.stop.is_some() {
        return false;
    }
    match charge_least(workspace, site, growing) {
        None => false,
        Some((leaf, charged)) => {
            let end = End::Charge {
                scaled: charged.scaled,
                covers: charged.covers,
            };
            shut_leaf(growing, leaf, end);
            true
        }
    }
}

/// Shuts the leaf of least value again and again, as long as charges are found. It is asked for
/// after a turn, so that a leaf is tried when it comes next, with the best network so far.
pub(crate) fn shut_by_charges<E: Evaluator>(
    workspace: &mut Workspace<E>,
    site: &Site<'_>,
    growing: &mut Growing,
)
    requires own { E.values site.now workspace.old.evaluator }
    requires going { IsGoing E.past site.now growing.old }
    ensures keeps { KeepsGoing E.past site.now growing.old growing.new }
    ensures own { E.values site.now workspace.new.evaluator }
    ensures makers { workspace.new.makers ≡ workspace.old.makers }
{
    'leaves: for _ in 0..growing.nodes {
        if !shut_least(workspace, site, growing) {
            return;
        }
    }
}
