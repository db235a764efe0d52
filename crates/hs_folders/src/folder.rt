// A folder of files, by what it tells of them.
ghost use Rattle.std.specs.Prelude.{◌≡◌, ◌++◌, ◌∷◌, [], List, ℕ, map, Option, OnOk, OnErr, IfOk, IfSome, IsErrOf, IsSome, string_bytes};
ghost use Rattle.std.specs.Option.{option_map};
ghost use Rattle.std.specs.FinMap as finmap;
ghost use Rattle.hs_folders.specs.Causes.{HasCause};
ghost use Rattle.hs_folders.specs.FileMaps.{FileMap};
ghost use Rattle.hs_folders.specs.Moments.{Moments};
ghost use Rattle.hs_folders.specs.Opens.{IsBlamedOpen};

use crate::faults::{FolderFault, FolderOpenFault};
use std::alloc::Global;

/// A folder of files, each with a name and its bytes.
///
/// What it holds is told or not, and each clause on it holds where it is told. A folder that tells
/// nothing may answer `Missing` for any name. So a listed file whose reading answers `Missing`
/// counts as not there, and a removal that answers `Missing` counts as done.
///
/// After each refusal the files are as before. `Failed` comes only where the count of faults rose
/// in this call; `NoMemory` and `Missing` raise no count.
pub trait Folder {
    /// The bytes of each file by its name, where they are told.
    ghost contents: { Self → Option FileMap };

    /// What was told at each moment so far, the present one last, where moments are told. A
    /// replacement or a removal adds one, and no other call does: at each moment inside such a call
    /// the files are those before it or those after it.
    ghost moments: { Self → Moments };

    /// The paths that it was opened at, the first one first, where they are told.
    ghost paths: { Self → Option (List (List ℕ)) };

    /// How often it has failed, as a number of 64 bits that never falls.
    ghost faults: { Self → ℕ };

    /// Stands for the folder at this path from now on. A folder that is not there is a fault. One
    /// that somebody else has open is refused before anything of it is read; whether anybody has is
    /// told as far as the folder can know.
    fn open(&mut self, path: &str) -> Result<(), FolderOpenFault>
        ensures opened { OnOk result (
            paths self.new ≡ option_map (λ paths. paths ++ path.now ∷ []) (paths self.old)) }
        ensures refused { OnErr result (paths self.new ≡ paths self.old) }
        ensures contents { contents self.new ≡ contents self.old }
        ensures moments { moments self.new ≡ moments self.old }
        ensures cause { HasCause (faults self.old) (faults self.new) (IsBlamedOpen result) };

    /// The names of its files in rising byte order.
    fn list(&mut self, alloc: Global) -> Result<Vec<String>, FolderFault>
        ensures names { IfOk result (λ names. IfSome (contents self.old) (λ held.
            map string_bytes names.items ≡ finmap.keys held)) }
        ensures contents { contents self.new ≡ contents self.old }
        ensures moments { moments self.new ≡ moments self.old }
        ensures paths { paths self.new ≡ paths self.old }
        ensures never_missing { ¬ IsErrOf result FolderFault.Missing }
        ensures cause { HasCause (faults self.old) (faults self.new)
            (IsErrOf result FolderFault.Failed) };

    /// The bytes of a file. Where there is none of this name the answer is `Missing`, unless the
    /// folder fails or memory is refused.
    fn read(&mut self, alloc: Global, name: &str) -> Result<Vec<u8>, FolderFault>
        ensures bytes { IfOk result (λ bytes. IfSome (contents self.old) (λ held.
            finmap.get held name.now ≡ Some bytes.items)) }
        ensures missing { IsErrOf result FolderFault.Missing →
            IfSome (contents self.old) (λ held. finmap.get held name.now ≡ None) }
        ensures contents { contents self.new ≡ contents self.old }
        ensures moments { moments self.new ≡ moments self.old }
        ensures paths { paths self.new ≡ paths self.old }
        ensures cause { HasCause (faults self.old) (faults self.new)
            (IsErrOf result FolderFault.Failed) };

    /// Makes these the bytes of the file, which may be new. It is done whole or not at all.
    fn replace(&mut self, name: &str, bytes: &[u8]) -> Result<(), FolderFault>
        ensures replaced { OnOk result (contents self.new ≡ option_map (λ held.
            finmap.insert held name.now bytes.now) (contents self.old)) }
        ensures moment { OnOk result (moments self.new ≡ option_map (λ moments.
            moments ++ contents self.new ∷ []) (moments self.old)) }
        ensures contents_stay { OnErr result (contents self.new ≡ contents self.old) }
        ensures moments_stay { OnErr result (moments self.new ≡ moments self.old) }
        ensures paths { paths self.new ≡ paths self.old }
        ensures never_missing { ¬ IsErrOf result FolderFault.Missing }
        ensures cause { HasCause (faults self.old) (faults self.new)
            (IsErrOf result FolderFault.Failed) };

    /// Takes the file away. Where there is none of this name the answer is `Missing`, unless the
    /// folder fails or memory is refused.
    fn remove(&mut self, name: &str) -> Result<(), FolderFault>
        ensures removed { OnOk result (contents self.new ≡ option_map (λ held.
            finmap.remove held name.now) (contents self.old)) }
        ensures found { OnOk result (
            IfSome (contents self.old) (λ held. IsSome (finmap.get held name.now))) }
        ensures moment { OnOk result (moments self.new ≡ option_map (λ moments.
            moments ++ contents self.new ∷ []) (moments self.old)) }
        ensures missing { IsErrOf result FolderFault.Missing →
            IfSome (contents self.old) (λ held. finmap.get held name.now ≡ None) }
        ensures contents_stay { OnErr result (contents self.new ≡ contents self.old) }
        ensures moments_stay { OnErr result (moments self.new ≡ moments self.old) }
        ensures paths { paths self.new ≡ paths self.old }
        ensures cause { HasCause (faults self.old) (faults self.new)
            (IsErrOf result FolderFault.Failed) };
}
