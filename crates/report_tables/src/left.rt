//! What multipliers leave of a cost.
ghost use Rattle.std.specs.Prelude.{◌≡◌, ◌-ℤ◌, ◌*ℤ◌, pos, length};
ghost use Rattle.cert_check.specs.integer_laws.Range.{InRange};
ghost use Rattle.cert_check.specs.flow_rules.Steps.{AreInRange};
ghost use Rattle.cert_check.specs.flow_rules.BoundSteps.{reduced_steps};
ghost use Rattle.cert_check.specs.flow_program.Columns.{left_of};
ghost use Rattle.cert_check.specs.flow_program.Entry.{entry};

use cert_check::MatSet;

/// What is left after a row has paid for its rate.
fn less_row(left: i128, y: i128, rate: i64) -> i128
    requires product { InRange (y *ℤ rate) }
    requires difference { InRange (left -ℤ y *ℤ rate) }
    ensures { result ≡ left -ℤ y *ℤ rate }
{
    let paid = y * rate as i128;
    left - paid
}

/// What is left of the cost 0 of a size of 1 after the rows of the materials have paid for it.
pub(crate) fn left_after(materials: MatSet, rates: &[i64], ys: &[i128]) -> i128
    requires all_rates { length rates.now ≡ 256 }
    requires all_ys { length ys.now ≡ 256 }
    requires in_range { AreInRange
        (reduced_steps (entry ys.now) (entry rates.now) materials (pos 0)) }
    ensures { result ≡ left_of (entry ys.now) (entry rates.now) materials (pos 0) }
{
    let mut left = 0;
    for j in materials {
        left = less_row(left, ys[j as usize], rates[j as usize]);
    }
    left
}
