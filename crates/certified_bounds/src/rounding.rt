//! Quotients of products, and the whole numbers nearest to them.

/// A number over another one, which is at least 1.
#[derive(Clone, Copy)]
pub(crate) struct Ratio {
    num: i128,
    den: i128,
}

// Numbers on the way have at most so many bits.
const ROOM: u32 = 126;

fn bits(number: i128) -> u32 {
    128u32.saturating_sub(number.unsigned_abs().leading_zeros())
}

/// How many bits the product may have too many.
fn excess(a: i128, b: i128) -> u32 {
    bits(a).saturating_add(bits(b)).saturating_sub(ROOM)
}

/// Without so many of its last bits.
fn shortened(number: i128, by: u32) -> i128 {
    number.wrapping_shr(by.min(127))
}

fn with_sign(negative: bool, size: i128) -> i128 {
    if negative { size.wrapping_neg() } else { size }
}

impl Ratio {
    /// `a * b` over `c * d`, without last bits if one of the products has no room.
    pub(crate) fn of_products(a: i128, b: i128, c: i128, d: i128) -> Ratio {
        let by = excess(a, b).max(excess(c, d));
        Ratio {
            num: shortened(a, by).wrapping_mul(b),
            den: shortened(c, by).wrapping_mul(d),
        }
    }

    /// A whole number near 2^bits times the ratio; none if it has no room.
    pub(crate) fn nearest(self, bits_kept: u32) -> Option<i128> {
        let den = self.den.max(1);
        let size = self.num.wrapping_abs().max(0);
        let whole = size.wrapping_div(den);
        let rest = size.wrapping_rem(den);
        let power = 1i128.wrapping_shl(bits_kept.min(ROOM));
        let part = fraction_bits(rest, den, bits_kept);
        let sum = whole.checked_mul(power)?.checked_add(part)?;
        Some(with_sign(self.num < 0, sum))
    }

    /// The whole number below the ratio, if that is not below 0.
    pub(crate) fn floor(self) -> i128 {
        self.num.wrapping_div(self.den.max(1))
    }
}

/// The whole number nearest to 2^bits times a ratio below 1.
fn fraction_bits(rest: i128, den: i128, bits_kept: u32) -> i128 {
    let by = bits(den).saturating_add(bits_kept).saturating_sub(ROOM);
    let over = shortened(den, by).max(1);
    let raised = shortened(rest, by).wrapping_shl(bits_kept.min(ROOM));
    raised.wrapping_add(shortened(over, 1)).wrapping_div(over)
}
