// A fraction as text.
ghost use Rattle.std.specs.Prelude.{◌≡◌, IfOk};
ghost use Rattle.std.specs.String.{string_bytes};
ghost use Rattle.integer_laws.specs.Fraction.{fraction_text};

use crate::Frac;
use std::alloc::{AllocError, Global};

impl Frac {
    /// `n` if the denominator is 1, else `n/d`, in decimal.
    pub fn text(&self, alloc: Global) -> Result<String, AllocError>
        ensures { IfOk result
            (λ text. string_bytes text ≡ fraction_text self.now.num self.now.den) }
    {
        let (num, den) = (self.num(), self.den());
        if den == 1 {
            return format!(in alloc; "{num}");
        }
        format!(in alloc; "{num}/{den}")
    }
}
