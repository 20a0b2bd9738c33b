ghost use Rattle.tree_laws.specs.Laws.{LeanIsSmall};

/// A lean tree has fewer nodes than twice the number of sets of the units that are free after the
/// steps of its root.
pub fn lean_is_small()
    ensures { LeanIsSmall }
{}
