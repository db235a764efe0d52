// A folder in memory. It tells what it holds, and its moments where it records them.
ghost use Rattle.std.specs.Prelude.{◌≡◌, ◌+◌, ◌-◌, ◌^◌, ◌++◌, ◌∷◌, [], Some, None, map, min, length, slice_get, string_bytes, OnOk, OnErr, IfOk, IfSome, IsErrOf, IsSome, option_and_then};
ghost use Rattle.std.specs.Option.{option_map};
ghost use Rattle.std.specs.FinMap as finmap;
ghost use Rattle.hs_folders.specs.Calls.{CountsCall};
ghost use Rattle.hs_folders.specs.Causes.{HasCause};
ghost use Rattle.hs_folders.specs.Changes.{moments_of};
ghost use Rattle.hs_folders.specs.FileTrees.{file_map};
ghost use Rattle.hs_folders.specs.Opens.{IsBlamedOpen};
ghost use Rattle.hs_folders.specs.MemFolders.{calls_made, changes_made, failing_calls, past_moments};

use crate::calls::Calls;
use crate::changes::{Changes, remove_file, replace_file, tree_at};
use crate::faults::{FolderFault, FolderOpenFault};
use crate::file_tree::{FileTree, copy_file, copy_files, copy_names, has_file, put_file};
use crate::folder::Folder;
use std::alloc::{AllocError, Global};

/// A folder in memory.
///
/// It tells its files and the paths that it was opened at. It tells its moments once it records
/// them.
#[derive(Drop)]
pub struct MemFolder {
    alloc: Global,
    files: FileTree,
    changes: Changes,
    opened: Vec<String>,
    calls: Calls,
}

impl MemFolder {
    /// An empty folder that was never opened, and that records no moments.
    pub fn new(alloc: Global) -> Self
        ensures contents { ⟦<Self as Folder>⟧.contents result ≡ Some finmap.empty }
        ensures moments { ⟦<Self as Folder>⟧.moments result ≡ None }
        ensures paths { ⟦<Self as Folder>⟧.paths result ≡ Some [] }
        ensures faults { ⟦<Self as Folder>⟧.faults result ≡ 0 }
        ensures calls { calls_made result ≡ 0 }
        ensures changes { changes_made result ≡ 0 }
        ensures failing { failing_calls result ≡ [] }
    {
        MemFolder {
            alloc,
            files: FileTree::new(alloc),
            changes: Changes::Counted(0),
            opened: Vec::new(alloc),
            calls: Calls::new(alloc),
        }
    }

    /// Makes these the bytes of one file, to prepare the folder. It counts as no call.
    pub fn put(&mut self, name: &str, bytes: &[u8]) -> Result<(), AllocError>
        ensures ok { OnOk result (⟦<Self as Folder>⟧.contents self.new
            ≡ option_map (λ held.
            finmap.insert held name.now bytes.now) (⟦<Self as Folder>⟧.contents self.old)) }
        ensures err { OnErr result (
            ⟦<Self as Folder>⟧.contents self.new ≡ ⟦<Self as Folder>⟧.contents self.old) }

        // What was told before each change stays. At the present moment the new contents are told.
        ensures moments { ⟦<Self as Folder>⟧.moments self.new ≡ option_map (λ told.
            told ++ ⟦<Self as Folder>⟧.contents self.new ∷ []) (past_moments self.old) }
        ensures paths { ⟦<Self as Folder>⟧.paths self.new ≡ ⟦<Self as Folder>⟧.paths self.old }
        ensures faults { ⟦<Self as Folder>⟧.faults self.new ≡ ⟦<Self as Folder>⟧.faults self.old }
        ensures past { past_moments self.new ≡ past_moments self.old }
        ensures calls { calls_made self.new ≡ calls_made self.old }
        ensures changes { changes_made self.new ≡ changes_made self.old }
        ensures failing { failing_calls self.new ≡ failing_calls self.old }
    {
        put_file(self.alloc, &mut self.files, name, bytes)
    }

    /// Makes the calls of these numbers answer `Failed`, counted from 1 since the folder was made. They
    /// take the place of those that were given before.
    pub fn fail_calls(&mut self, calls: Vec<u32>)
        ensures failing { failing_calls self.new ≡ calls.items }

        ensures contents { ⟦<Self as Folder>⟧.contents self.new
            ≡ ⟦<Self as Folder>⟧.contents self.old }
        ensures moments { ⟦<Self as Folder>⟧.moments self.new
            ≡ ⟦<Self as Folder>⟧.moments self.old }
        ensures paths { ⟦<Self as Folder>⟧.paths self.new ≡ ⟦<Self as Folder>⟧.paths self.old }
        ensures faults { ⟦<Self as Folder>⟧.faults self.new ≡ ⟦<Self as Folder>⟧.faults self.old }
        ensures calls { calls_made self.new ≡ calls_made self.old }
        ensures changes { changes_made self.new ≡ changes_made self.old }
    {
        self.calls.failing = calls;
    }

    /// Begins to record each moment. No call of the trait was made yet.
    pub fn keep_moments(&mut self)
        requires { calls_made self.old ≡ 0 }
        ensures moments { ⟦<Self as Folder>⟧.moments self.new
            ≡ Some (⟦<Self as Folder>⟧.contents self.old ∷ []) }
        ensures changes { changes_made self.new ≡ 0 }

        ensures contents { ⟦<Self as Folder>⟧.contents self.new
            ≡ ⟦<Self as Folder>⟧.contents self.old }
        ensures paths { ⟦<Self as Folder>⟧.paths self.new ≡ ⟦<Self as Folder>⟧.paths self.old }
        ensures faults { ⟦<Self as Folder>⟧.faults self.new ≡ ⟦<Self as Folder>⟧.faults self.old }
        ensures calls { calls_made self.new ≡ calls_made self.old }
        ensures failing { failing_calls self.new ≡ failing_calls self.old }
    {
        self.changes = Changes::Kept(Vec::new(self.alloc));
    }

    /// How many calls of `replace` and `remove` answered `Ok` since the folder was made, also where
    /// nothing is recorded.
    pub fn moments(&self) -> u64
        ensures changes { result ≡ changes_made self.now }
        ensures recorded { IfSome (⟦<Self as Folder>⟧.moments self.now) (λ moments.
            length moments ≡ result + 1) }
    {
        match &self.changes {
            Changes::Counted(count) => *count,
            Changes::Kept(past) => past.len() as u64,
        }
    }

    /// The folder as it was after so many changes, with no path and no faults. It records no
    /// moments. None exactly where nothing is recorded or fewer changes were made.
    pub fn copy_at(&self, alloc: Global, moment: u64) -> Result<Option<MemFolder>, AllocError>
        ensures contents { IfOk result (λ found. option_map (λ copy.
            ⟦<Self as Folder>⟧.contents copy) found
            ≡ option_and_then (λ moments.
            slice_get moments moment) (⟦<Self as Folder>⟧.moments self.now)) }
        ensures moments { IfOk result (λ found. IfSome found (λ copy.
            ⟦<Self as Folder>⟧.moments copy ≡ None)) }
        ensures paths { IfOk result (λ found. IfSome found (λ copy.
            ⟦<Self as Folder>⟧.paths copy ≡ Some [])) }
        ensures faults { IfOk result (λ found. IfSome found (λ copy.
            ⟦<Self as Folder>⟧.faults copy ≡ 0)) }
        ensures calls { IfOk result (λ found. IfSome found (λ copy. calls_made copy ≡ 0)) }
        ensures changes { IfOk result (λ found. IfSome found (λ copy. changes_made copy ≡ 0)) }
        ensures failing { IfOk result (λ found. IfSome found (λ copy. failing_calls copy ≡ [])) }
    {
        let Changes::Kept(past) = &self.changes else {
            return Ok(None);
        };
        let Some(files) = tree_at(past, &self.files, moment as usize) else {
            return Ok(None);
        };
        let mut copy = MemFolder::new(alloc);
        copy.files = copy_files(files)?;
        Ok(Some(copy))
    }
}

// Beside the trait's clauses each method says that the call is counted, that it answers `Failed`
// exactly where its number is one of those that are to fail, and how many changes were made.
impl Folder for MemFolder {
    ghost contents = { λ folder. Some (file_map folder.files) };

    ghost moments = { λ folder. moments_of folder.changes folder.files };

    ghost paths = { λ folder. Some (map string_bytes folder.opened.items) };

    ghost faults = { λ folder. folder.calls.faults };

    fn open(&mut self, path: &str) -> Result<(), FolderOpenFault>
        ensures opened { OnOk result (⟦<Self as Folder>⟧.paths self.new ≡ option_map (λ paths.
            paths ++ path.now ∷ []) (⟦<Self as Folder>⟧.paths self.old)) }
        ensures refused { OnErr result (
            ⟦<Self as Folder>⟧.paths self.new ≡ ⟦<Self as Folder>⟧.paths self.old) }
        ensures contents { ⟦<Self as Folder>⟧.contents self.new
            ≡ ⟦<Self as Folder>⟧.contents self.old }
        ensures moments { ⟦<Self as Folder>⟧.moments self.new
            ≡ ⟦<Self as Folder>⟧.moments self.old }
        ensures cause { HasCause (⟦<Self as Folder>⟧.faults self.old)
            (⟦<Self as Folder>⟧.faults self.new) (IsBlamedOpen result) }

        ensures never_in_use { ¬ IsErrOf result FolderOpenFault.InUse }
        ensures counted { CountsCall (calls_made self.old) (calls_made self.new)
            (failing_calls self.old) (failing_calls self.new)
            (IsErrOf result FolderOpenFault.Failed) }
        ensures changes { changes_made self.new ≡ changes_made self.old }
    {
        if self.calls.count() {
            return Err(FolderOpenFault::Failed);
        }
        self.opened.push(String::from_str(self.alloc, path)?)?;
        Ok(())
    }

    fn list(&mut self, alloc: Global) -> Result<Vec<String>, FolderFault>
        ensures names { IfOk result (λ names. IfSome (⟦<Self as Folder>⟧.contents self.old)
            (λ held. map string_bytes names.items ≡ finmap.keys held)) }
        ensures contents { ⟦<Self as Folder>⟧.contents self.new
            ≡ ⟦<Self as Folder>⟧.contents self.old }
        ensures moments { ⟦<Self as Folder>⟧.moments self.new
            ≡ ⟦<Self as Folder>⟧.moments self.old }
        ensures paths { ⟦<Self as Folder>⟧.paths self.new ≡ ⟦<Self as Folder>⟧.paths self.old }
        ensures never_missing { ¬ IsErrOf result FolderFault.Missing }
        ensures cause { HasCause (⟦<Self as Folder>⟧.faults self.old)
            (⟦<Self as Folder>⟧.faults self.new) (IsErrOf result FolderFault.Failed) }

        ensures counted { CountsCall (calls_made self.old) (calls_made self.new)
            (failing_calls self.old) (failing_calls self.new) (IsErrOf result FolderFault.Failed) }
        ensures changes { changes_made self.new ≡ changes_made self.old }
    {
        if self.calls.count() {
            return Err(FolderFault::Failed);
        }
        Ok(copy_names(alloc, &self.files)?)
    }

    fn read(&mut self, alloc: Global, name: &str) -> Result<Vec<u8>, FolderFault>
        ensures bytes { IfOk result (λ bytes. IfSome (⟦<Self as Folder>⟧.contents self.old)
            (λ held. finmap.get held name.now ≡ Some bytes.items)) }
        ensures missing { IsErrOf result FolderFault.Missing →
            IfSome (⟦<Self as Folder>⟧.contents self.old) (λ held.
            finmap.get held name.now ≡ None) }
        ensures contents { ⟦<Self as Folder>⟧.contents self.new
            ≡ ⟦<Self as Folder>⟧.contents self.old }
        ensures moments { ⟦<Self as Folder>⟧.moments self.new
            ≡ ⟦<Self as Folder>⟧.moments self.old }
        ensures paths { ⟦<Self as Folder>⟧.paths self.new ≡ ⟦<Self as Folder>⟧.paths self.old }
        ensures cause { HasCause (⟦<Self as Folder>⟧.faults self.old)
            (⟦<Self as Folder>⟧.faults self.new) (IsErrOf result FolderFault.Failed) }

        ensures counted { CountsCall (calls_made self.old) (calls_made self.new)
            (failing_calls self.old) (failing_calls self.new) (IsErrOf result FolderFault.Failed) }
        ensures changes { changes_made self.new ≡ changes_made self.old }
    {
        if self.calls.count() {
            return Err(FolderFault::Failed);
        }
        copy_file(alloc, &self.files, name)?.ok_or(FolderFault::Missing)
    }

    fn replace(&mut self, name: &str, bytes: &[u8]) -> Result<(), FolderFault>
        ensures replaced { OnOk result (⟦<Self as Folder>⟧.contents self.new ≡ option_map (λ held.
            finmap.insert held name.now bytes.now) (⟦<Self as Folder>⟧.contents self.old)) }
        ensures moment { OnOk result (
            ⟦<Self as Folder>⟧.moments self.new ≡ option_map (λ moments. moments
            ++ ⟦<Self as Folder>⟧.contents self.new ∷ []) (⟦<Self as Folder>⟧.moments self.old)) }
        ensures contents_stay { OnErr result (
            ⟦<Self as Folder>⟧.contents self.new ≡ ⟦<Self as Folder>⟧.contents self.old) }
        ensures moments_stay { OnErr result (
            ⟦<Self as Folder>⟧.moments self.new ≡ ⟦<Self as Folder>⟧.moments self.old) }
        ensures paths { ⟦<Self as Folder>⟧.paths self.new ≡ ⟦<Self as Folder>⟧.paths self.old }
        ensures never_missing { ¬ IsErrOf result FolderFault.Missing }
        ensures cause { HasCause (⟦<Self as Folder>⟧.faults self.old)
            (⟦<Self as Folder>⟧.faults self.new) (IsErrOf result FolderFault.Failed) }

        ensures counted { CountsCall (calls_made self.old) (calls_made self.new)
            (failing_calls self.old) (failing_calls self.new) (IsErrOf result FolderFault.Failed) }
        ensures changes { OnOk result (
            changes_made self.new ≡ min (changes_made self.old + 1) (2 ^ 64 - 1)) }
        ensures changes_stay { OnErr result (changes_made self.new ≡ changes_made self.old) }
    {
        if self.calls.count() {
            return Err(FolderFault::Failed);
        }
        replace_file(self.alloc, &mut self.changes, &mut self.files, name, bytes)?;
        Ok(())
    }

    fn remove(&mut self, name: &str) -> Result<(), FolderFault>
        ensures removed { OnOk result (⟦<Self as Folder>⟧.contents self.new ≡ option_map (λ held.
            finmap.remove held name.now) (⟦<Self as Folder>⟧.contents self.old)) }
        ensures found { OnOk result (IfSome (⟦<Self as Folder>⟧.contents self.old) (λ held.
            IsSome (finmap.get held name.now))) }
        ensures moment { OnOk result (
            ⟦<Self as Folder>⟧.moments self.new ≡ option_map (λ moments. moments
            ++ ⟦<Self as Folder>⟧.contents self.new ∷ []) (⟦<Self as Folder>⟧.moments self.old)) }
        ensures missing { IsErrOf result FolderFault.Missing →
            IfSome (⟦<Self as Folder>⟧.contents self.old) (λ held.
            finmap.get held name.now ≡ None) }
        ensures contents_stay { OnErr result (
            ⟦<Self as Folder>⟧.contents self.new ≡ ⟦<Self as Folder>⟧.contents self.old) }
        ensures moments_stay { OnErr result (
            ⟦<Self as Folder>⟧.moments self.new ≡ ⟦<Self as Folder>⟧.moments self.old) }
        ensures paths { ⟦<Self as Folder>⟧.paths self.new ≡ ⟦<Self as Folder>⟧.paths self.old }
        ensures cause { HasCause (⟦<Self as Folder>⟧.faults self.old)
            (⟦<Self as Folder>⟧.faults self.new) (IsErrOf result FolderFault.Failed) }

        ensures counted { CountsCall (calls_made self.old) (calls_made self.new)
            (failing_calls self.old) (failing_calls self.new) (IsErrOf result FolderFault.Failed) }
        ensures changes { OnOk result (
            changes_made self.new ≡ min (changes_made self.old + 1) (2 ^ 64 - 1)) }
        ensures changes_stay { OnErr result (changes_made self.new ≡ changes_made self.old) }
    {
        if self.calls.count() {
            return Err(FolderFault::Failed);
        }
        if !has_file(&self.files, name) {
            return Err(FolderFault::Missing);
        }
        remove_file(&mut self.changes, &mut self.files, name)?;
        Ok(())
    }
}
