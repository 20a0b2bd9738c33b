//! The plant that the others work on.

use pns_text::{Problem, read_problem};
use std::alloc::{AllocError, Global};

/// 20 t of P a year by way of C, from A or from B. Nothing makes E, and nothing needs F.
const PLANT: &[u8] = b"file_type=PNS_problem_v1
materials:
A: raw_material, price=2
B: raw_material, price=3
C
E
F
P: product, flow_rate_lower_bound=20, flow_rate_upper_bound=20
operating_units:
U1: capacity_upper_bound=100, fix_cost=10, proportional_cost=1
U2: capacity_upper_bound=100, fix_cost=1, proportional_cost=1
U3: capacity_upper_bound=150, fix_cost=5
material_to_operating_unit_flow_rates:
U1: A => C
U2: B => C
U3: C => P
U4: E => P
U5: B => F
";

/// The plant, as a problem.
pub fn plant(alloc: Global) -> Result<Problem, AllocError> {
    match read_problem(alloc, PLANT) {
        Ok(problem) => Ok(problem),
        Err(_) => Err(AllocError),
    }
}
