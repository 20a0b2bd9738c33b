ghost use Rattle.search_tree.specs.SearchLaws.{OptionsOfNone, OptionsOfSome, SharesAreSmall};
ghost use Rattle.search_tree.specs.SearchLaws.{LeanIsFew};
ghost use Rattle.search_tree.specs.SearchLaws.{SpentIsNever};

/// How many options a material has, by its makers that are taken in and its makers that are free.
/// The sets of free units of the children are together no more than those of the node.
pub fn options_are_counted()
    ensures none { OptionsOfNone }
    ensures some { OptionsOfSome }
    ensures shares { SharesAreSmall }
{}

/// A lean tree has fewer nodes than twice the number of sets of units of the maximal structure.
pub fn lean_is_few()
    ensures { LeanIsFew }
{}

/// This holds too of its nodes with the children that an open leaf may have, so a budget of so many
/// nodes is never spent.
pub fn spent_is_never()
    ensures { SpentIsNever }
{}
