//! What a search works with.
ghost use Rattle.std.specs.Prelude.{IfOk, OnOk, ◌≡◌};
ghost use Rattle.structure_list.specs.pns_rules.Shape.{shape_of};
ghost use Rattle.neutral_extension.specs.Candidates.{AreMakersOf};

use crate::evaluator::Evaluator;
use neutral_extension::Makers;
use std::alloc::{AllocError, Global};
use structure_list::Site;

/// What a search over one plant works with: whose memory it takes, an evaluator of the plant's
/// nodes, and the makers of each material. Calls that take it also take the plant's site.
#[derive(Drop)]
pub struct Workspace<E: Evaluator> {
    pub alloc: Global,
    pub evaluator: E,
    pub makers: Makers,
}

impl<E: Evaluator + Drop> Workspace<E> {
    /// A workspace with this evaluator of the site's nodes. `Err` comes if memory is refused.
    pub fn of(alloc: Global, evaluator: E, site: &Site<'_>) -> Result<Workspace<E>, AllocError>
        requires { E.values site.now evaluator }
        ensures own { IfOk result (λ w. E.values site.now w.evaluator) }
        ensures makers { IfOk result (λ w. AreMakersOf (shape_of site.now) w.makers.makers) }
    {
        let makers = Makers::open(alloc, site.graph())?;
        Ok(Workspace {
            alloc,
            evaluator,
            makers,
        })
    }

    /// Goes over to another plant with the same graph. After `Err` the evaluator values the nodes
    /// of no plant.
    pub fn rebind(&mut self, site: &Site<'_>) -> Result<(), AllocError>
        ensures own { OnOk result (E.values site.now self.new.evaluator) }
        ensures makers { self.new.makers ≡ self.old.makers }
    {
        self.evaluator.rebind(self.alloc, site)
    }
}
