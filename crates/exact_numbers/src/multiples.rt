//! Multiples of a fraction below 1.
ghost use Rattle.std.specs.Prelude.{◌≡◌, ◌<◌, ◌≤◌, ◌+◌, ◌*◌, ◌^◌, IfSome};

/// A whole number and `rest` over a denominator that is given with it.
#[derive(Clone, Copy)]
pub(crate) struct Share {
    pub(crate) whole: u128,
    pub(crate) rest: u128,
}

/// The sum of two shares over the same denominator.
fn plus(left: Share, right: Share, den: u128) -> Option<Share>
    requires left { left.rest < den }
    requires right { right.rest < den }
    requires room { den ≤ 2 ^ 127 }
    ensures below { IfSome result (λ s. s.rest < den) }
    ensures sum { IfSome result
        (λ s. s.whole * den + s.rest ≡ (left.whole * den + left.rest)
        + (right.whole * den + right.rest)) }
{
    let whole = left.whole.checked_add(right.whole)?;
    let rest = left.rest + right.rest;
    if rest < den {
        return Some(Share { whole, rest });
    }
    let more = whole.checked_add(1)?;
    Some(Share {
        whole: more,
        rest: rest - den,
    })
}

/// The multiple, added up by the digits of the factor.
fn by_digits(factor: u128, rest: u128, den: u128) -> Option<Share>
    requires below { rest < den }
    requires room { den ≤ 2 ^ 127 }
    ensures below { IfSome result (λ s. s.rest < den) }
    ensures multiple { IfSome result (λ s. s.whole * den + s.rest ≡ factor * rest) }
{
    let mut left = factor;
    let mut sum = Share { whole: 0, rest: 0 };
    let mut power = Share { whole: 0, rest };
    while left > 0 {
        if left % 2 == 1 {
            sum = plus(sum, power, den)?;
        }
        power = plus(power, power, den)?;
        left = left / 2;
    }
    Some(sum)
}

/// So many times `rest` over `den`. `None` if the whole part is out of range.
pub(crate) fn multiple(factor: u128, rest: u128, den: u128) -> Option<Share>
    requires below { rest < den }
    requires room { den ≤ 2 ^ 127 }
    ensures below { IfSome result (λ s. s.rest < den) }
    ensures multiple { IfSome result (λ s. s.whole * den + s.rest ≡ factor * rest) }
{
    match factor.checked_mul(rest) {
        Some(product) => Some(Share {
            whole: product / den,
            rest: product % den,
        }),
        None => by_digits(factor, rest, den),
    }
}
