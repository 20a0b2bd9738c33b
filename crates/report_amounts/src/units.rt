//! The table of a network's units.
ghost use Rattle.std.specs.Prelude.{◌≡◌, ◌<◌, ◌++◌, ℕ, List, Some, IfOk, OnOk, length};
ghost use Rattle.std.specs.Prelude.{string_bytes};
ghost use Rattle.csv.specs.Writing.{default_writer, row_text};
ghost use Rattle.report_rules.specs.tree_rules.Known.{AreUnits};
ghost use Rattle.report_rules.specs.Table.{IsUnitRow, IsUnitTable};
ghost use Rattle.report_amounts.specs.Written.{HasWritten};

use crate::rows::{headed, push_row, written};
use crate::sizes::{quotient, size_at};
use csv::Writer;
use flow_evaluator::{Network, Problem};
use std::alloc::{AllocError, Global};

/// Writes the row of one unit.
fn push_unit(
    alloc: Global,
    writer: &mut Writer<Vec<u8>>,
    problem: &Problem,
    network: &Network,
    u: u32,
) -> Result<(), AllocError>
    requires { u < length problem.now.units }
    ensures { (bytes : List ℕ) → HasWritten (λ v. Some v.items) writer.old bytes
        → OnOk result ((row : List (List ℕ)) × IsUnitRow problem.now network.now u row
        × HasWritten (λ v. Some v.items) writer.new (bytes ++ row_text default_writer row)) }
{
    let unit = &problem.units()[u as usize];
    let size = quotient(alloc, size_at(network, u), network)?;
    let fix = unit.fix;
    let fix = format!(in alloc; "{fix}")?;
    push_row(
        writer,
        unit.name.as_bytes(),
        size.as_bytes(),
        fix.as_bytes(),
    )
}

/// The units of the network in file order, with their sizes in millionths and their fixed costs for
/// a year in millionths.
pub fn unit_table(
    alloc: Global,
    problem: &Problem,
    network: &Network,
) -> Result<Vec<u8>, AllocError>
    requires { AreUnits problem.now network.now.units }
    ensures { IfOk result (λ bytes. IsUnitTable problem.now network.now bytes.items) }
{
    let mut writer = headed(alloc, b"unit", b"size_e6", b"fix_e6")?;
    for u in network.units() {
        push_unit(alloc, &mut writer, problem, network, u)?;
    }
    written(writer)
}
