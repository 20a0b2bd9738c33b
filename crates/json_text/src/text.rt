//! The whole object.
ghost use Rattle.std.specs.Prelude.{◌≡◌, IfOk};
ghost use Rattle.tree_reading.specs.pns_problem.Printing.{printed};
ghost use Rattle.report_rules.specs.tree_rules.Claim.{IsFeasible};
ghost use Rattle.report_rules.specs.Facts.{fact_lines, bare_lines};

use crate::foot::push_foot;
use crate::head::push_head;
use crate::materials::push_materials;
use crate::units::push_units;
use crate::{Json, push_comma_lines, push_line};
use report_tables::Marginals;
use std::alloc::{AllocError, Global};
use tree_reading::{Network, Site};

/// The object of a network with these marginals on its problem, which begins with the members of
/// the head.
pub fn facts_of(
    alloc: Global,
    head: &[Json],
    site: &Site<'_>,
    network: &Network,
    marginals: &Marginals,
) -> Result<Vec<u8>, AllocError>
    requires feasible { IsFeasible site.now network.now }
    ensures { IfOk result
        (λ bytes. bytes.items
        ≡ printed (fact_lines head.now site.now network.now marginals.now)) }
{
    let mut text = Vec::new(alloc);
    push_head(alloc, &mut text, head, site, network)?;
    let problem = site.problem();
    push_units(alloc, &mut text, problem, network, marginals)?;
    push_materials(alloc, &mut text, site, network, marginals)?;
    push_foot(alloc, &mut text, site, network)?;
    Ok(text)
}

/// The object of a claim without a network, which has the members of the head alone.
pub fn bare_of(alloc: Global, head: &[Json]) -> Result<Vec<u8>, AllocError>
    ensures { IfOk result (λ bytes. bytes.items ≡ printed (bare_lines head.now)) }
{
    let mut text = Vec::new(alloc);
    push_line(&mut text, b"{")?;
    push_comma_lines(&mut text, head)?;
    push_line(&mut text, b"}")?;
    Ok(text)
}
