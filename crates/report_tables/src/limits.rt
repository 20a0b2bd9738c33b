//! Whether a number is at one of its bounds.
ghost use Rattle.std.specs.Prelude.{◌≡◌, ◌*ℤ◌, ℕ};
ghost use Rattle.std.specs.Ordering.{int_eq};
ghost use Rattle.cert_check.specs.integer_laws.Range.{InRange};
ghost use Rattle.report_amounts.specs.report_rules.Report.{idle_words, least_words, most_words};
ghost use Rattle.report_amounts.specs.report_rules.Report.{limit_words};
ghost use Rattle.report_amounts.specs.report_rules.Report.{unbounded_or};

use cert_check::checked_product;

/// Whether z over d is the bound. A product that overflows is not z, which is in range.
fn is_at(z: i128, bound: i128, d: i128) -> bool
    requires { InRange z }
    ensures { result ≡ int_eq z (bound *ℤ d) }
{
    match checked_product(bound, d) {
        Some(product) => product == z,
        None => false,
    }
}

#[tactic(auto, unfolding(crate::specs::Unfolded::idle_words))]
fn idle_words(idle: bool) -> &'static str
    ensures { result.now ≡ idle_words idle }
{
    if idle { "idle" } else { "-" }
}

#[tactic(auto, unfolding(crate::specs::Unfolded::least_words))]
fn least_words(idle: bool, lower: i128, z: i128, d: i128) -> &'static str
    requires { InRange z }
    ensures { result.now ≡ least_words idle lower z d }
{
    if lower == 0 {
        idle_words(idle)
    } else if is_at(z, lower, d) {
        "min"
    } else {
        idle_words(idle)
    }
}

#[tactic(auto, unfolding(crate::specs::Unfolded::most_words))]
fn most_words(idle: bool, lower: i128, upper: i128, z: i128, d: i128) -> &'static str
    requires { InRange z }
    ensures { result.now ≡ most_words idle lower upper z d }
{
    if is_at(z, upper, d) {
        "max"
    } else {
        least_words(idle, lower, z, d)
    }
}

/// The words; or `UNBOUNDED?`, if z over d is a bound that stands for none.
#[tactic(auto, unfolding(crate::specs::Unfolded::unbounded_or))]
pub(crate) fn unbounded_or(none: i128, z: i128, d: i128, words: &'static str) -> &'static str
    requires { InRange z }
    ensures { result.now ≡ unbounded_or none z d words.now }
{
    if is_at(z, none, d) {
        "UNBOUNDED?"
    } else {
        words
    }
}

/// The word for the bound, if any, that z over d is at.
#[tactic(auto, unfolding(crate::specs::Unfolded::limit_words))]
pub(crate) fn limit_words(idle: bool, lower: i128, upper: i128, z: i128, d: i128) -> &'static str
    requires { InRange z }
    ensures { result.now ≡ limit_words idle lower upper z d }
{
    if lower == upper {
        "fixed"
    } else {
        most_words(idle, lower, upper, z, d)
    }
}
