//! A shelf holds files by name.
ghost use Rattle.std.specs.Prelude.{◌≡◌, ◌≤◌, ◌^◌, List, ℕ, length, IfOk, OnErr};
ghost use Rattle.text_rules.specs.Outside.{HasRisen, ReadsAt, IfTold};
ghost use Rattle.text_rules.specs.State.{ShelfState};

use crate::Failed;

/// Files that are read by name, piece by piece.
pub trait Shelf {
    /// What the shelf says of each named file: its bytes, that there is no such file, or nothing.
    /// And the count of faults for each name, which never falls.
    ghost state: { Self → ShelfState };

    /// Reads bytes of the named file from place `at` on into the front of the buffer, and gives how
    /// many. If the buffer is not empty, that number is 0 exactly at or after the end of the file.
    /// If the shelf says that there is no such file, the call fails. `Failed` is the answer only if
    /// the count of faults for that name rose.
    fn read(&mut self, name: &str, at: u64, into: &mut [u8]) -> Result<usize, Failed>
        requires { at ≤ 2 ^ 32 }
        ensures count { IfOk result (λ k. k ≤ length into.new) }
        ensures told { IfOk result
            (λ k. IfTold ((state self.old).held name.now) (λ file. ReadsAt file at into.new k)) }
        ensures cause { OnErr result
            (HasRisen ((state self.old).faults name.now) ((state self.new).faults name.now)) }
        ensures later { (other : List ℕ)
            → (state self.old).faults other ≤ (state self.new).faults other }
        ensures keeps { (other : List ℕ)
            → (state self.new).held other ≡ (state self.old).held other };
}
