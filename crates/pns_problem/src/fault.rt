//! Why parts do not make a problem.
ghost use Rattle.std.specs.Prelude.{◌≡◌};
ghost use Rattle.pns_problem.specs.Fault.{is_memory};

/// The first fault of the parts of a problem, with the number of the item that has it; or out of
/// memory.
#[derive(Clone, Copy, Debug, PartialEq, Eq)]
pub enum BuildFault {
    /// More than 256 materials; `at` is 256.
    TooManyMaterials { at: u32 },
    /// More than 128 units; `at` is 128.
    TooManyUnits { at: u32 },
    /// A text that is not a name.
    BadName { at: u32 },
    /// A name that an earlier material, unit or exclusion of the same sort has.
    DoubleName { at: u32 },
    /// A price, bound, cost or rate whose absolute value is above 10^15 millionths.
    OutOfRange { at: u32 },
    /// A lower bound above its upper bound.
    LowAboveHigh { at: u32 },
    /// A bound, a fixed cost or an investment fixed cost below 0, or a rate below one millionth.
    Sign { at: u32 },
    /// The number of a term that is no material.
    NoMaterial { at: u32 },
    /// A material twice on one side of a unit.
    DoubleTerm { at: u32 },
    /// A material on both sides of a unit.
    BothSides { at: u32 },
    /// A unit without inputs or without outputs.
    EmptySide { at: u32 },
    /// No material is a product; `at` is 0.
    NoProduct { at: u32 },
    /// More than 64 exclusions; `at` is 64.
    TooManyExclusions { at: u32 },
    /// An exclusion with fewer than two units, with a number that is not a unit, or with numbers
    /// that do not rise.
    BadExclusion { at: u32 },
    /// A payout period that is not 1 to 100 years; `at` is 0.
    BadPayout { at: u32 },
    /// Out of memory, at any moment.
    Memory,
}

impl BuildFault {
    /// Whether it is out of memory.
    pub fn is_memory(&self) -> bool
        ensures { result ≡ is_memory self.now }
    {
        matches!(self, BuildFault::Memory)
    }
}
