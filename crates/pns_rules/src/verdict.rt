/// The axioms of a solution structure. S1: each product is in it. S2: a material of it has no maker
/// in it exactly if it is raw. S3: its units are units of the problem. S4: each of its units has a
/// path to a product. S5: each of its materials is an input or output of one of its units.
#[derive(Clone, Copy, PartialEq, Eq, Debug)]
pub enum Axiom {
    S1,
    S2,
    S3,
    S4,
    S5,
}

/// What the axioms say of a set of units together with the materials of these units.
#[derive(Clone, Copy, PartialEq, Eq, Debug)]
pub enum Verdict {
    /// It is a solution structure.
    Meets,
    /// The first axiom that it breaks, and the least place: a material for S1 and S2, a unit for
    /// S4. S3 and S5 hold for every set of units of the problem, so they never come.
    Breaks { axiom: Axiom, at: u32 },
}
