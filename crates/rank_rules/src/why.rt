use tree_text_rules::Why;

/// Why a network or a node of a ranked tree is refused.
#[derive(Clone, Copy, Debug, PartialEq, Eq)]
pub enum RankWhy {
    /// For a cause that a claim or a node of any branch tree may have.
    Plain(Why),
    /// The network costs less than the one before it; or, in a ranking, it has the units of an
    /// earlier one.
    Order,
    /// In a list of alternatives, of the network and an earlier one, one contains the units of the
    /// other, which costs no more.
    Contains,
    /// The leaf names no network of the list; or a unit is free there; or the units that are taken
    /// in are not those of the network; or the scale is below 1, the multipliers are not one for
    /// each row, or the bound is below the cost of the network.
    Named,
    /// The leaf names no network of the list; or a unit of the network is not taken in there; or
    /// the scale is below 1, the multipliers are not one for each row, or the bound is below the
    /// cost of the network; or the list is no list of alternatives.
    Over,
}
