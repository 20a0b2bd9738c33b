use dual_simplex::Place;
use node_evaluation::{Columns, Multipliers, Network, Scaled};
// The answers for the flows of a solution structure.

/// The answer for the flows of a solution structure.
#[derive(Drop)]
pub enum StructureFlows {
    /// Flows of least cost, and multipliers whose bound over their scale is that cost.
    Least { network: Network, bound: Scaled },
    /// There are none: the multipliers refute them.
    Refuted { ys: Multipliers },
    /// A number overflows at the place, at the basis that leaves these columns out.
    Past { nonbasic: Columns, place: Place },
}
