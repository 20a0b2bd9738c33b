ghost use Rattle.pns_rules.specs.Laws.{ValidIsProper};

/// The shape of each valid problem is proper: its items are known, no raw material is a product,
/// and no unit uses what it makes.
pub fn valid_is_proper()
    ensures { ValidIsProper }
{}
