//! What may be odd about a material.
ghost use Rattle.std.specs.Prelude.{◌≡◌};
ghost use Rattle.text_lines.specs.problem_rules.Problem.{is_raw_material, is_product};
ghost use Rattle.cert_check.specs.pns_problem.Kind.{kind_of};
ghost use Rattle.command_files.specs.report_rules.Warned.{has_no_demand, is_free_raw, has_no_limit};

use cert_check::{Kind, Material};

/// The bound of what has none, in millionths.
pub(crate) const NO_BOUND: i64 = 1_000_000_000_000_000;

fn is_raw(kind: Kind) -> bool
    ensures { result ≡ is_raw_material (kind_of kind) }
{
    match kind {
        Kind::RawMaterial => true,
        Kind::Intermediate | Kind::Product => false,
    }
}

fn is_product(kind: Kind) -> bool
    ensures { result ≡ is_product (kind_of kind) }
{
    match kind {
        Kind::Product => true,
        Kind::RawMaterial | Kind::Intermediate => false,
    }
}

/// A product of which a network may make none.
pub(crate) fn has_no_demand(material: &Material) -> bool
    ensures { result ≡ has_no_demand material.now }
{
    is_product(material.kind) && material.lower == 0
}

/// A raw material that costs nothing.
pub(crate) fn is_free_raw(material: &Material) -> bool
    ensures { result ≡ is_free_raw material.now }
{
    is_raw(material.kind) && material.price == 0
}

/// A product or an intermediate that is sold without a limit.
pub(crate) fn has_no_limit(material: &Material) -> bool
    ensures { result ≡ has_no_limit material.now }
{
    !is_raw(material.kind) && 0 < material.price && material.upper == NO_BOUND
}
