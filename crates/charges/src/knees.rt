//! The sizes above which a unit's outputs are worth nothing.
ghost use Rattle.std.specs.Prelude.{◌≡◌, ◌<◌, ◌≤◌, ◌^◌, ◌*ℤ◌, ◌<ℤ◌, ◌&&◌, ◌||◌, ◌==◌, ℕ, true};
ghost use Rattle.std.specs.Prelude.{int_lt, pos, [], length, unsigned_abs, IfSome, IfNone};
ghost use Rattle.structure_list.specs.integer_laws.Range.{InRange};
ghost use Rattle.structure_list.specs.number_sets.Sets.{has};
ghost use Rattle.flow_program.specs.Entry.{entry};
ghost use Rattle.structure_list.specs.flow_rules.Charge.{rounded_up};
ghost use Rattle.charges.specs.Bends.{IsKnee};
ghost use Rattle.charges.specs.Firsts.{IsFirstLeast};

use crate::products::quick_product;
use crate::useful::Useful;
use structure_list::MatSet;

/// The outputs of a unit that have knees, with the size of each knee, and what the output is worth
/// for each part of the size.
#[derive(Drop)]
pub(crate) struct Knees {
    pub(crate) set: MatSet,
    pub(crate) at: [i128; 256],
    pub(crate) worth: [i128; 256],
}

/// The quotient, rounded up.
pub fn rounded_up(x: i128, y: i64) -> i128
    requires positive { pos 0 <ℤ y }
    requires small { unsigned_abs x ≤ 10 ^ 37 }
    ensures { result ≡ rounded_up x y }
{
    (x + (y as i128 - 1)) / y as i128
}

/// What so much of an output is worth, if that is in range.
fn worth_of(y: i128, rate: i64) -> i128
    ensures { InRange (y *ℤ rate) → result ≡ y *ℤ rate }
{
    quick_product(y, rate as i128).unwrap_or(0)
}

/// The first of those of the set whose knee is at the least size; none exactly for the empty set.
pub(crate) fn first_knee(at: &[i128], set: MatSet) -> Option<u32>
    requires { length at.now ≡ 256 }
    ensures none { IfNone result (set ≡ []) }
    ensures some { IfSome result (λ j. j < 256) }
    ensures first { IfSome result (λ j. IsFirstLeast (entry at.now) j set) }
{
    let mut rest = set;
    let mut best = rest.take_least()?;
    for j in rest {
        if at[j as usize] < at[best as usize] {
            best = j;
        }
    }
    Some(best)
}

/// The set, with the material if that is asked for.
fn with_where(set: MatSet, j: u32, is_in: bool) -> MatSet
    requires { j < 256 }
    ensures { (v : ℕ) → has result v ≡ (has set v || (is_in && j == v)) }
{
    if is_in { set.with(j) } else { set }
}

/// Whether a material is made and pays.
fn pays(rate: i64, y: i128) -> bool
    ensures { result ≡ (int_lt (pos 0) rate && int_lt (pos 0) y) }
{
    rate > 0 && y > 0
}

/// The materials of the set that are made and pay.
fn paying(set: MatSet, rates: &[i64], ys: &[i128]) -> MatSet
    requires all_rates { length rates.now ≡ 256 }
    requires all_ys { length ys.now ≡ 256 }
    ensures { (j : ℕ) → has result j
        ≡ (has set j && (int_lt (pos 0) (entry rates.now j) && int_lt (pos 0) (entry ys.now j))) }
{
    let mut found = MatSet::empty();
    for j in set {
        let is_in = pays(rates[j as usize], ys[j as usize]);
        found = with_where(found, j, is_in);
    }
    found
}

/// The knees of a unit that has the materials at these rates.
pub(crate) fn knees_of(useful: &Useful, materials: MatSet, rates: &[i64], ys: &[i128]) -> Knees
    requires small { (j : ℕ) → unsigned_abs (entry useful.now.most j) ≤ 10 ^ 37 }
    requires all_rates { length rates.now ≡ 256 }
    requires all_ys { length ys.now ≡ 256 }
    ensures set { (j : ℕ) → has result.set j
        ≡ ((has materials j && has useful.now.made j)
        && (int_lt (pos 0) (entry rates.now j) && int_lt (pos 0) (entry ys.now j))) }
    ensures knees { (j : ℕ) → has result.set j ≡ true
        → IsKnee result (entry useful.now.most) (entry rates.now) (entry ys.now) j }
{
    let set = paying(materials.meet(useful.made), rates, ys);
    let mut at = [0; 256];
    let mut worth = [0; 256];
    for j in set {
        at[j as usize] = rounded_up(useful.most[j as usize], rates[j as usize]);
        worth[j as usize] = worth_of(ys[j as usize], rates[j as usize]);
    }
    Knees { set, at, worth }
}
