ghost use Rattle.pns_rules.specs.Laws.{OrderIsStrict, OrderIsTransitive, OrderIsTotal};
ghost use Rattle.pns_rules.specs.Laws.{TracesBranch};

/// The order of solution structures by their traces is strict, transitive and total.
pub fn order_is_total()
    ensures strict { OrderIsStrict }
    ensures transitive { OrderIsTransitive }
    ensures total { OrderIsTotal }
{}

/// Take the first material at which the traces of two sets differ, and the greatest maker of it
/// that only one set has. The set without that maker comes first.
pub fn traces_branch()
    ensures { TracesBranch }
{}
