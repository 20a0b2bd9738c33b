ghost use Rattle.pns_rules.specs.Laws.{ListingExists, ListingIsUnique, ListingResumes};

/// There is exactly one listing from the start, and exactly one after each list of units.
pub fn listing_exists()
    ensures exists { ListingExists }
    ensures unique { ListingIsUnique }
{}

/// A listing may be taken in parts, each after the last structure of the part before. Together the
/// parts are the listing taken at once.
pub fn listing_resumes()
    ensures { ListingResumes }
{}
