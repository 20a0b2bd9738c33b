//! The pivot row of an exchange.
ghost use Rattle.std.specs.Prelude.{◌≡◌, ◌≢◌, ◌<◌, ◌≤◌, ◌+◌, ◌*◌, neg_ℤ, ℕ, length, map};
ghost use Rattle.flow_program.specs.integer_laws.Range.{InRange, AllInRange};
ghost use Rattle.dual_simplex.specs.Rows.{row_at};
ghost use Rattle.dual_simplex.specs.Exchange.{pivot_row};

fn negated(entry: i128) -> i128
    requires { InRange entry }
    ensures value { result ≡ neg_ℤ entry }
    ensures in_range { InRange result }
{
    -entry
}

fn negate_all(row: &mut [i128])
    requires { AllInRange row.old }
    ensures value { row.new ≡ map neg_ℤ row.old }
    ensures in_range { AllInRange row.new }
{
    for k in 0..row.len() {
        row[k] = negated(row[k]);
    }
}

/// Makes the pivot row from the row of the column that leaves.
pub(crate) fn put_pivot(row: &[i128], pivot: &mut [i128], negate: bool)
    requires lengths { length pivot.old ≡ length row.now }
    requires row_in_range { AllInRange row.now }
    ensures value { pivot.new ≡ pivot_row negate row.now }
    ensures in_range { AllInRange pivot.new }
{
    pivot.copy_from_slice(row);
    if negate {
        negate_all(pivot);
    }
}

/// Writes a row into a block of rows.
pub(crate) fn write_row(entries: &mut [i128], width: usize, c: usize, row: &[i128])
    requires room { c * width + width ≤ length entries.old }
    requires length { length row.now ≡ width }
    requires row_in_range { AllInRange row.now }
    requires all_in_range { AllInRange entries.old }
    ensures length { length entries.new ≡ length entries.old }
    ensures row { row_at width entries.new c ≡ row.now }
    ensures others { (d : ℕ) → d ≢ c → row_at width entries.new d ≡ row_at width entries.old d }
    ensures in_range { AllInRange entries.new }
{
    let first = c * width;
    entries[first..first + width].copy_from_slice(row);
}
