//! The networks of a text.
ghost use Rattle.std.specs.Prelude.{◌≡◌, ◌≤◌, ◌<◌, ◌-◌, ◌^◌, Ok, IfOk, IfErr, length};
ghost use Rattle.tree_text_laws.specs.problem_rules.Each.{Each};
ghost use Rattle.tree_reading.specs.Place.{IsCut, IsReached, lines_at};
ghost use Rattle.tree_reading.specs.Taken.{taken};
ghost use Rattle.tree_reading.specs.text_lines.Tells.{Tells};
ghost use Rattle.rank_check.specs.Known.{KnowsNetwork};
ghost use Rattle.rank_check.specs.rank_rules.Read.{networks_taken};

use std::alloc::Global;
use tree_reading::{Cut, TreeFault, read_network};
use tree_text_laws::{Network, Problem, networks_are_taken};

/// This many networks, the first of which has its first line at this place, and the place after
/// them. `At` comes with the first fault of their lines, and only then; `Memory` says that there
/// was no memory. The promised number reserves no memory.
pub fn read_networks(
    alloc: Global,
    problem: &Problem,
    count: u32,
    bytes: &[u8],
    cut: Cut,
) -> Result<(Vec<Network>, Cut), TreeFault>
    requires cut { IsCut bytes.now cut }
    requires few { length bytes.now < 2 ^ 32 - 1 }
    ensures ok { IfOk result
        (λ found. networks_taken problem.now count cut.line (lines_at bytes.now cut)
        ≡ Ok (taken found.0.items bytes.now found.1)) }
    ensures later { IfOk result (λ found. cut.line ≤ found.1.line) }
    ensures reached { IfOk result (λ found. IsReached bytes.now cut found.1) }
    ensures count { IfOk result (λ found. length found.0.items ≡ count) }
    ensures known { IfOk result (λ found. Each (KnowsNetwork problem.now) found.0.items) }
    ensures fault { IfErr result
        (Tells (networks_taken problem.now count cut.line (lines_at bytes.now cut))) }
{
    problem.is_valid();
    networks_are_taken();
    let mut networks = Vec::new(alloc);
    let mut left = count;
    let mut at = cut;
    'reading: while left > 0 {
        let (network, behind) = read_network(alloc, problem, bytes, at)?;
        networks.push(network)?;
        at = behind;
        left -= 1;
    }
    Ok((networks, at))
}
