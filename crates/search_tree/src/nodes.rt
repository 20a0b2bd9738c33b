ghost use Rattle.search_tree.specs.SearchLaws.{ReducedIsStructure, ReducedIsWithinUnion};
ghost use Rattle.search_tree.specs.SearchLaws.{FreeUnitsAreFew};
ghost use Rattle.search_tree.specs.SearchLaws.{StepsFreeNone, DecisionsSplit, FreeMakersDecide};
ghost use Rattle.search_tree.specs.SearchLaws.{ChildrenAreSound};

/// At a reduced node the units that are not left out form a solution structure.
pub fn reduced_is_structure()
    ensures { ReducedIsStructure }
{}

/// So they are units of the union of all solution structures, and the free ones among them are no
/// more than that union has. No step makes them more.
pub fn free_units_are_few()
    ensures within { ReducedIsWithinUnion }
    ensures few { FreeUnitsAreFew }
    ensures steps { StepsFreeNone }
{}

/// At a reduced node a needed material with a maker outside I and E has two options or more. The
/// node may also be branched at each such maker.
pub fn decisions_split()
    ensures options { DecisionsSplit }
    ensures units { FreeMakersDecide }
{}

/// The children of a sound node that is reduced are sound, if there is something to decide.
pub fn children_are_sound()
    ensures { ChildrenAreSound }
{}
