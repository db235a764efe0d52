// Where bytes come from, by what is left of them.
ghost use Rattle.std.specs.Prelude.{◌≡◌, ◌<◌, ◌≤◌, ◌++◌, ◌∷◌, ◌↔◌, [], List, ℕ, Option, take, drop, length, OnOk, OnErr, IfOk, IfSome, IsErrOf};
ghost use Rattle.std.specs.Option.{option_map};
ghost use Rattle.hs_folders.specs.Causes.{HasCause};

use crate::faults::SourceFault;

/// Gives bytes, piece by piece, up to its end.
///
/// What is left is told or not, and each clause on it holds where it is told. `Failed` comes only
/// where the count of faults rose in this call; `NoMemory` raises no count.
pub trait Source {
    /// The bytes that it has left, where they are told.
    ghost left: { Self → Option (List ℕ) };

    /// The paths that it was opened at, the first one first, where they are told.
    ghost paths: { Self → Option (List (List ℕ)) };

    /// How often it has failed, as a number of 64 bits that never falls.
    ghost faults: { Self → ℕ };

    /// Reads from this path from now on.
    fn open(&mut self, path: &str) -> Result<(), SourceFault>
        ensures opened { OnOk result (
            paths self.new ≡ option_map (λ paths. paths ++ path.now ∷ []) (paths self.old)) }
        ensures refused { OnErr result (paths self.new ≡ paths self.old) }
        ensures left { left self.new ≡ left self.old }
        ensures cause { HasCause (faults self.old) (faults self.new)
            (IsErrOf result SourceFault.Failed) };

    /// Puts the next bytes into the front of the room, and answers how many. The answer is 0 exactly
    /// at the end.
    fn read(&mut self, room: &mut [u8]) -> Result<usize, SourceFault>
        requires { 0 < length room.old }
        ensures bound { IfOk result (λ count. count ≤ length room.new) }
        ensures bytes { IfOk result (λ count. IfSome (left self.old) (λ left.
            take count room.new ≡ take count left)) }
        ensures rest { IfOk result (λ count. left self.new ≡ option_map (λ left.
            drop count left) (left self.old)) }
        ensures end { IfOk result (λ count. IfSome (left self.old) (λ left.
            (count ≡ 0) ↔ (left ≡ []))) }
        ensures stays { OnErr result (left self.new ≡ left self.old) }
        ensures paths { paths self.new ≡ paths self.old }
        ensures cause { HasCause (faults self.old) (faults self.new)
            (IsErrOf result SourceFault.Failed) };
}
