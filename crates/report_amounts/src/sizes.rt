//! The sizes of a network's units.
ghost use Rattle.std.specs.Prelude.{◌≡◌, IfOk, string_bytes};
ghost use Rattle.report_rules.specs.integer_laws.Range.{InRange};
ghost use Rattle.report_rules.specs.tree_rules.Claim.{size_in};
ghost use Rattle.report_rules.specs.Table.{IsQuotient};

use flow_evaluator::{Frac, Network};
use std::alloc::{AllocError, Global};

/// The size of a unit in millionths over the network's `d`, or 0 if it is not in the network.
pub fn size_at(network: &Network, u: u32) -> i128
    ensures value { result ≡ size_in network.now u }
    ensures in_range { InRange result }
{
    network.is_sized();
    let mut left = network.units();
    'units: for size in network.sizes() {
        let Some(unit) = left.take_least() else {
            return 0;
        };
        if unit == u {
            return *size;
        }
    }
    0
}

/// The text of a number over the network's `d`, in lowest terms.
pub(crate) fn quotient(alloc: Global, number: i128, network: &Network) -> Result<String, AllocError>
    requires { InRange number }
    ensures { IfOk result (λ text. IsQuotient number network.now.d (string_bytes text)) }
{
    network.is_sized();
    Frac::of(number, network.d()).text(alloc)
}
