// Where bytes go, by what was taken of them.
ghost use Rattle.std.specs.Prelude.{◌≡◌, ◌++◌, ◌∷◌, [], List, ℕ, Option, OnOk, OnErr, IsErrOf};
ghost use Rattle.std.specs.Option.{option_map};
ghost use Rattle.hs_folders.specs.Appends.{AppendsPrefix};
ghost use Rattle.hs_folders.specs.Causes.{HasCause};

use crate::faults::SinkFault;

/// Takes bytes.
///
/// What it took is told or not, and each clause on it holds where it is told. `Failed` comes only
/// where the count of faults rose in this call; `NoMemory` raises no count.
pub trait Sink {
    /// The bytes that it took so far, where they are told.
    ghost taken: { Self → Option (List ℕ) };

    /// The paths that it was opened at, the first one first, where they are told.
    ghost paths: { Self → Option (List (List ℕ)) };

    /// How often it has failed, as a number of 64 bits that never falls.
    ghost faults: { Self → ℕ };

    /// Writes to this path from now on.
    fn open(&mut self, path: &str) -> Result<(), SinkFault>
        ensures opened { OnOk result (
            paths self.new ≡ option_map (λ paths. paths ++ path.now ∷ []) (paths self.old)) }
        ensures refused { OnErr result (paths self.new ≡ paths self.old) }
        ensures taken { taken self.new ≡ taken self.old }
        ensures cause { HasCause (faults self.old) (faults self.new)
            (IsErrOf result SinkFault.Failed) };

    /// Takes all of the bytes, or after a refusal the first so many of them.
    fn write_all(&mut self, bytes: &[u8]) -> Result<(), SinkFault>
        ensures written { OnOk result (
            taken self.new ≡ option_map (λ taken. taken ++ bytes.now) (taken self.old)) }
        ensures prefix { OnErr result (AppendsPrefix (taken self.old) (taken self.new) bytes.now) }
        ensures paths { paths self.new ≡ paths self.old }
        ensures cause { HasCause (faults self.old) (faults self.new)
            (IsErrOf result SinkFault.Failed) };
}
