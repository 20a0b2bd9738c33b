//! The marginals of the first network of a ranking.
ghost use Rattle.std.specs.Prelude.{IfOk};
ghost use Rattle.json_text.specs.report_rules.Marginal.{AreFirstMarginals};
ghost use Rattle.json_text.specs.report_tables.First.{IsFirstFeasible};

use json_text::{Marginals, marginals_of};
use rank_text::{Network, Site};
use std::alloc::{AllocError, Global};

/// The marginals of the first network, none if there is no network.
pub(crate) fn first_marginals(
    alloc: Global,
    site: &Site<'_>,
    networks: &[Network],
) -> Result<Marginals, AllocError>
    requires { IsFirstFeasible site.now networks.now }
    ensures { IfOk result (AreFirstMarginals site.now networks.now) }
{
    match networks.split_first() {
        Some((first, _)) => marginals_of(alloc, site, first),
        None => Ok(Marginals::past()),
    }
}
