ghost use Rattle.tree_laws.specs.CappingLaws.{CappedShape, CappedClaim};

/// A capped plant has the P-graph of the plant.
pub fn capped_shape()
    ensures { CappedShape }
{}

/// The plant knows what a capped plant knows of a claim.
pub fn capped_claim()
    ensures { CappedClaim }
{}
