//! What an open leaf ends with in a tree.
ghost use Rattle.std.specs.Prelude.{◌≡◌, IfOk};
ghost use Rattle.tree_laws.specs.tree_rules.Tree.{leaf};
ghost use Rattle.branch_tree.specs.View.{end_of};
ghost use Rattle.search_tree.specs.Shut.{shut_as};

use branch_tree::{Covers, End, Multipliers, Scaled};
use std::alloc::{AllocError, Global};

/// What an open leaf ends with in a tree: what shuts it, or a bound with which it stays open.
#[derive(Drop)]
pub enum Shut {
    /// The leaf is bounded by these multipliers.
    Bounded(Scaled),
    /// The leaf is refuted by these multipliers.
    Refuted(Multipliers),
    /// The leaf stays open, and these multipliers bound it from below.
    Low(Scaled),
}

/// A copy of the multipliers of a refutation.
pub fn copy_multipliers(alloc: Global, ys: &Multipliers) -> Result<Multipliers, AllocError>
    ensures { IfOk result (λ c. c ≡ ys.now) }
{
    ys.are_in_range();
    let numbers = ys.numbers().to_vec(alloc)?;
    Ok(Multipliers::from_vec(numbers))
}

/// A copy of the multipliers of a bound.
pub fn copy_scaled(alloc: Global, scaled: &Scaled) -> Result<Scaled, AllocError>
    ensures { IfOk result (λ c. c ≡ scaled.now) }
{
    let numbers = scaled.numbers().to_vec(alloc)?;
    Ok(Scaled::from_vec(numbers))
}

/// A copy of the covers of a charge.
pub(crate) fn copy_covers(alloc: Global, covers: &Covers) -> Result<Covers, AllocError>
    ensures { IfOk result (λ c. c ≡ covers.now) }
{
    covers.are_kept();
    let list = covers.covers().to_vec(alloc)?;
    Ok(Covers::from_vec(list))
}

/// A copy of what is known of an open leaf.
pub(crate) fn copy_low(alloc: Global, low: &Option<Scaled>) -> Result<Option<Scaled>, AllocError>
    ensures { IfOk result (λ c. c ≡ low.now) }
{
    match low {
        None => Ok(None),
        Some(scaled) => {
            let copy = copy_scaled(alloc, scaled)?;
            Ok(Some(copy))
        }
    }
}

/// The end of a leaf that ends with this.
pub(crate) fn end_by(alloc: Global, shut: &Shut) -> Result<End, AllocError>
    ensures { IfOk result (λ e. end_of e ≡ leaf (shut_as shut.now)) }
{
    match shut {
        Shut::Bounded(scaled) => {
            let copy = copy_scaled(alloc, scaled)?;
            Ok(End::Bound(copy))
        }
        Shut::Refuted(ys) => {
            let copy = copy_multipliers(alloc, ys)?;
            Ok(End::Refuted(copy))
        }
        Shut::Low(scaled) => {
            let copy = copy_scaled(alloc, scaled)?;
            Ok(End::Open(Some(copy)))
        }
    }
}
