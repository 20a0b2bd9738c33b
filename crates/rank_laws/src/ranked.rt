ghost use Rattle.rank_laws.specs.Laws.{ListedAreLeast, OthersCostEnough, OthersHaveNone};
ghost use Rattle.rank_laws.specs.Laws.{AlternativesAreRight};

/// No flows for the units of a listed network cost less than it.
pub fn listed_are_least()
    ensures { ListedAreLeast }
{}

/// In a ranking that is no list of alternatives: if as many networks are listed as were asked for,
/// each clash-free solution structure that is not listed costs at least what the last network does,
/// with any flows. If fewer are listed, none of these structures has flows.
pub fn others_are_no_better()
    ensures full { OthersCostEnough }
    ensures fewer { OthersHaveNone }
{}

/// If a list of alternatives has a tree that passes, it is right: each listed network is the best
/// for its units, none contains the units of another that costs no more, and each other clash-free
/// solution structure with flows contains a listed one and costs no less, or costs at least what
/// the last one does.
pub fn alternatives_are_right()
    ensures { AlternativesAreRight }
{}
