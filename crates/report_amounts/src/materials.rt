//! The table of a network's materials.
ghost use Rattle.std.specs.Prelude.{◌≡◌, ◌<◌, ◌++◌, ℕ, List, Some, pos, true, IfOk, OnOk, length};
ghost use Rattle.csv.specs.Writing.{default_writer, row_text};
ghost use Rattle.report_rules.specs.number_sets.Sets.{has};
ghost use Rattle.flow_evaluator.specs.pns_problem.Kind.{kind_of};
ghost use Rattle.report_rules.specs.text_rules.Canonical.{kind_word};
ghost use Rattle.report_rules.specs.flow_rules.Net.{net_of, materials_of};
ghost use Rattle.report_rules.specs.flow_rules.Steps.{AreInRange};
ghost use Rattle.report_rules.specs.flow_rules.FeasibleSteps.{units_at, balance_steps};
ghost use Rattle.report_rules.specs.flow_rules.FeasibleSteps.{feasible_steps};
ghost use Rattle.report_rules.specs.tree_rules.Claim.{size_in};
ghost use Rattle.report_rules.specs.tree_rules.Known.{AreUnits};
ghost use Rattle.report_rules.specs.Table.{IsMaterialRow, IsMaterialTable};
ghost use Rattle.report_amounts.specs.Written.{HasWritten};

use crate::flows::flow_of;
use crate::rows::{headed, push_row, written};
use crate::sizes::quotient;
use csv::Writer;
use flow_evaluator::{Kind, MatSet, Network, Problem, Site};
use std::alloc::{AllocError, Global};

/// The materials of the network.
pub fn materials_in(site: &Site<'_>, network: &Network) -> MatSet
    requires known { (u : ℕ) → has network.now.units u ≡ true → u < length site.now.units }
    ensures { result ≡ materials_of (net_of site.now) (has network.now.units) }
{
    let materials = site.graph().materials(network.units());
    materials.rises();
    materials
}

/// The word of a kind, as in the problem text.
pub fn kind_word(kind: Kind) -> &'static str
    ensures { result.now ≡ kind_word (kind_of kind) }
{
    match kind {
        Kind::RawMaterial => "raw_material",
        Kind::Intermediate => "intermediate",
        Kind::Product => "product",
    }
}

/// Writes the row of one material.
fn push_material(
    alloc: Global,
    writer: &mut Writer<Vec<u8>>,
    problem: &Problem,
    network: &Network,
    j: u32,
) -> Result<(), AllocError>
    requires known { (u : ℕ) → has network.now.units u ≡ true → u < length problem.now.units }
    requires material { j < length problem.now.materials }
    requires steps { AreInRange
        (balance_steps (net_of problem.now) (size_in network.now) j
        (units_at (net_of problem.now) (has network.now.units) j) (pos 0)) }
    ensures { (bytes : List ℕ) → HasWritten (λ v. Some v.items) writer.old bytes
        → OnOk result ((row : List (List ℕ)) × IsMaterialRow problem.now network.now j row
        × HasWritten (λ v. Some v.items) writer.new (bytes ++ row_text default_writer row)) }
{
    let material = &problem.materials()[j as usize];
    let kind = kind_word(material.kind);
    let flow = quotient(alloc, flow_of(problem, network, j), network)?;
    push_row(
        writer,
        material.name.as_bytes(),
        kind.as_bytes(),
        flow.as_bytes(),
    )
}

/// The materials of the network in file order, with their kinds and what is left over of each, in
/// 10^-12. An amount below 0 is used and not made. The sums are those by which the flows of the
/// network are judged, and are in range.
pub fn material_table(
    alloc: Global,
    site: &Site<'_>,
    network: &Network,
) -> Result<Vec<u8>, AllocError>
    requires known { AreUnits site.now network.now.units }
    requires steps { AreInRange
        (feasible_steps (net_of site.now) (has network.now.units) (size_in network.now)
        network.now.d) }
    ensures { IfOk result (λ bytes. IsMaterialTable site.now network.now bytes.items) }
{
    let mut writer = headed(alloc, b"material", b"kind", b"flow_e12")?;
    for j in materials_in(site, network) {
        push_material(alloc, &mut writer, site.problem(), network, j)?;
    }
    written(writer)
}
