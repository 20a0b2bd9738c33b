//! What a search over the simplex method works with.
ghost use Rattle.std.specs.Prelude.{IfOk};
ghost use Rattle.flow_evaluator.specs.pns_rules.Shape.{shape_of};
ghost use Rattle.flow_evaluator.specs.neutral_extension.Candidates.{AreMakersOf};
ghost use Rattle.flow_evaluator.specs.Evaluating.{IsFor};

use flow_evaluator::{FlowEvaluator, Site, Workspace};
use std::alloc::{AllocError, Global};

/// What such searches work with.
pub type FlowWorkspace = Workspace<FlowEvaluator>;

/// A workspace over the site, whose evaluator bounds nodes by the simplex method. `Err` comes if
/// memory is refused.
pub fn workspace_of(alloc: Global, site: &Site<'_>) -> Result<FlowWorkspace, AllocError>
    ensures own { IfOk result (λ w. IsFor site.now w.evaluator) }
    ensures makers { IfOk result (λ w. AreMakersOf (shape_of site.now) w.makers.makers) }
{
    let evaluator = FlowEvaluator::open(alloc, site)?;
    Workspace::of(alloc, evaluator, site)
}
