//! The loop over the turns of a search.
ghost use Rattle.std.specs.Prelude.{◌≡◌, ◌≤◌, true};
ghost use Rattle.node_evaluation.specs.pns_rules.Shape.{shape_of};
ghost use Rattle.node_evaluation.specs.pns_rules.Ends.{IsSound};
ghost use Rattle.node_evaluation.specs.pgraph.View.{node_of};
ghost use Rattle.node_evaluation.specs.neutral_extension.Candidates.{AreMakersOf};
ghost use Rattle.node_evaluation.specs.tree_rules.Claim.{ClaimPasses};
ghost use Rattle.node_evaluation.specs.Children.{claim_with};
ghost use Rattle.abb_search.specs.Growing.{IsGoing};
ghost use Rattle.abb_search.specs.Answers.{IsAgainst};
ghost use Rattle.abb_search.specs.Found.{IsFoundBy};

use crate::growing::Growing;
use crate::outcome::Found;
use crate::root::look_at_root;
use crate::step::step;
use crate::watching::report_progress;
use node_evaluation::{Evaluator, Network, Node, Site, Workspace};
use pns_io::{Effort, Watch};

/// Takes turns from a root that was looked at, until the search ends or there is no memory. Before
/// each turn it reports how far the search is.
pub fn run<E: Evaluator, W: Watch>(
    workspace: &mut Workspace<E>,
    site: &Site<'_>,
    root: Growing,
    watch: &mut W,
) -> Found
    requires own { E.values site.now workspace.old.evaluator }
    requires makers { AreMakersOf (shape_of site.now) workspace.old.makers.makers }
    requires going { IsGoing E.past site.now root }
    ensures found { IsFoundBy E.past site.now (node_of root.start) root.budget result }
    ensures against { IsAgainst root.best result }
    ensures own { E.values site.now workspace.new.evaluator }
    ensures makers { workspace.new.makers.makers ≡ workspace.old.makers.makers }
{
    let mut growing = root;
    'turns: loop {
        report_progress(watch, site, &growing);
        match step(workspace, site, &mut growing) {
            Ok(None) => {}
            Ok(Some(found)) => return found,
            Err(_) => return Found::Memory,
        }
    }
}

/// Searches the structures of the family of a node for one whose flows are cheapest. If a network
/// `best` is given, what is found is that network or a cheaper one.
pub fn search_with<E: Evaluator, W: Watch>(
    workspace: &mut Workspace<E>,
    site: &Site<'_>,
    start: Node,
    effort: Effort<W>,
    best: Option<Network>,
) -> Found
    requires own { E.values site.now workspace.old.evaluator }
    requires makers { AreMakersOf (shape_of site.now) workspace.old.makers.makers }
    requires sound { IsSound (shape_of site.now) (node_of start) }
    requires some { 1 ≤ effort.budget }
    requires passes { ClaimPasses true site.now (claim_with best) }
    ensures found { IsFoundBy E.past site.now (node_of start) effort.budget result }
    ensures against { IsAgainst best result }
    ensures makers { workspace.new.makers.makers ≡ workspace.old.makers.makers }
{
    let mut watch = effort.watch;
    match look_at_root(workspace, site, start, effort.budget, best) {
        Ok(root) => run(workspace, site, root, &mut watch),
        Err(_) => Found::Memory,
    }
}
