ghost use Rattle.pns_rules.specs.Laws.{StepsKeepFamilies, ClashesAreEmpty, DeadAreEmpty};

/// A possible step of a node keeps its family.
pub fn steps_keep_families()
    ensures { StepsKeepFamilies }
{}

/// A node that clashes at an exclusion has an empty family. So has a node with a dead material.
pub fn ends_are_empty()
    ensures clash { ClashesAreEmpty }
    ensures dead { DeadAreEmpty }
{}
