//! The answers for a node without its path, in the form that a search takes.
ghost use Rattle.std.specs.Prelude.{◌≡◌, Bool, Some, None, IfSome};
ghost use Rattle.dual_simplex.specs.problem_rules.Problem.{Problem};
ghost use Rattle.dual_simplex.specs.pns_rules.Nodes.{Node};
ghost use Rattle.certified_bounds.specs.Certified.{IsCertified, IsFirstBound};
ghost use Rattle.node_evaluation.specs.Evaluated.{IsEvaluated, IsFirstLook};
ghost use Rattle.node_evaluation.specs.tree_rules.Past.{IsPastAt};

use certified_bounds::{Between, Certified, FirstBound, LeastBound};
use node_evaluation::{Bound, Evaluation, FirstLook, Interval, LowerBound, PastStop};

fn bound_of(least: LeastBound) -> Bound
    ensures { result ≡ record {
      value = least.value;
      low = least.low;
      scaled =
          least.scaled;
      interval = None;
    } }
{
    Bound {
        value: least.value,
        low: least.low,
        scaled: least.scaled,
        interval: None,
    }
}

/// What a node is worth whose path stops, by two costs between which its least cost lies.
pub(crate) fn bound_between(between: Between, stop: PastStop) -> Bound
    ensures { result ≡ record {
      value = between.low;
      low = between.low;
      scaled =
          between.scaled;
      interval = Some (record { reached = between.reached; stop = stop });
    } }
{
    Bound {
        value: between.low,
        low: between.low,
        scaled: between.scaled,
        interval: Some(Interval {
            reached: between.reached,
            stop,
        }),
    }
}

/// The answer of a first look.
pub(crate) fn first_look_of(told: FirstBound) -> FirstLook
    ensures { (p : Problem) (n : Node) → IsFirstBound p n told → IsFirstLook p n result }
{
    match told {
        FirstBound::AtLeast(bound) => FirstLook::AtLeast(LowerBound {
            low: bound.low,
            scaled: bound.scaled,
            basis: bound.basis,
        }),
        FirstBound::Refuted(multipliers) => FirstLook::Refuted(multipliers),
        FirstBound::Nothing => FirstLook::Nothing,
    }
}

/// The evaluation, if there is an answer.
pub(crate) fn evaluation_of(told: Certified) -> Option<Evaluation>
    ensures { (p : Problem) (n : Node) (decided : Bool) → IsCertified p n decided told
        → IfSome result (IsEvaluated IsPastAt p n decided) }
{
    match told {
        Certified::Least(least) => Some(Evaluation::Least(bound_of(least))),
        Certified::Flows(least, network) => { Some(Evaluation::Flows(bound_of(least), network)) }
        Certified::Refuted(multipliers) => Some(Evaluation::Refuted(multipliers)),
        Certified::Nothing => None,
    }
}
