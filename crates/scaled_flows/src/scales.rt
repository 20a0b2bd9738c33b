//! The divisors of a problem's numbers.
ghost use Rattle.std.specs.Prelude.{◌≡◌, ◌<◌, length, IfOk};
ghost use Rattle.tree_rules.specs.pns_rules.Shape.{shape_of};
ghost use Rattle.flow_program.specs.pgraph.Tables.{shape};
ghost use Rattle.tree_rules.specs.flow_rules.Net.{net_of};
ghost use Rattle.scaled_flows.specs.Divisors.{rate_divisor, AreDivisors};

use crate::divisors::{cost_divisor, narrowed, rate_divisors, unit_divisors, with_rows};
use flow_program::{Graph, Node, Problem, UnitSet, sets_of};
use std::alloc::{AllocError, Global};
use std::marker::Model;

/// Common divisors of a problem's numbers, by which its flow programs are scaled. All are at least
/// 1.
#[derive(Drop)]
pub struct Scales {
    rates: Vec<i64>,
    sizes: i64,
    costs: i128,
}

impl Model for Scales {
    ghost use Rattle.scaled_flows.specs.Divisors as divisors;

    ghost Value = { divisors.Divisors };

    ghost view = { λ s. record { rates = s.rates.items; sizes = s.sizes; costs = s.costs } };
}

impl Scales {
    /// The divisors of a problem's numbers. Only memory that runs out is an error. At worst
    /// quadratic in the size of the problem.
    pub fn of(alloc: Global, problem: &Problem, graph: &Graph) -> Result<Scales, AllocError>
        requires { shape graph.now ≡ shape_of problem.now }
        ensures { IfOk result (λ s. AreDivisors (net_of problem.now) s) }
    {
        problem.is_valid();
        graph.is_proper();
        let inside = UnitSet::below(graph.unit_count());
        let outside = UnitSet::empty();
        let taken = Node { inside, outside };
        let free = Node {
            inside: outside,
            outside,
        };
        let sets = sets_of(graph, &taken);
        let rates = rate_divisors(alloc, problem, &taken, sets.needed)?;
        let units = unit_divisors(problem, graph, &taken, &free);
        let sizes = narrowed(with_rows(
            units.sizes,
            problem,
            &taken,
            sets.rows,
            sets.needed,
            &rates,
        ));
        let costs = cost_divisor(units.costs, sizes);
        Ok(Scales {
            rates,
            sizes,
            costs,
        })
    }

    /// The divisor of a material's rates, in millionths, and of the ends of its row.
    pub fn rate(&self, j: u32) -> i64
        requires { j < length self.now.rates }
        ensures { result ≡ rate_divisor self.now j }
    {
        self.rates[j as usize]
    }

    /// The divisor of sizes, and of the ends of rows divided by that of their rates.
    pub fn sizes(&self) -> i64
        ensures { result ≡ self.now.sizes }
    {
        self.sizes
    }

    /// The divisor of what a size of 1 costs, with and without the slope for a fixed cost.
    pub fn costs(&self) -> i128
        ensures { result ≡ self.now.costs }
    {
        self.costs
    }
}
