ghost use Rattle.pns_rules.specs.Laws.{OptionsAreAll, OptionsAscend, ChildrenCover};
ghost use Rattle.pns_rules.specs.Laws.{ChildrenAreApart};

/// The options of a material are listed in numeric order, each of them and nothing else.
pub fn options_are_all()
    ensures all { OptionsAreAll }
    ensures ascend { OptionsAscend }
{}

/// The families of the children of a needed material cover the family of the node, and no structure
/// is in two.
pub fn children_split_families()
    ensures cover { ChildrenCover }
    ensures apart { ChildrenAreApart }
{}
