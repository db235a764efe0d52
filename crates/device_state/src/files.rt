// A folder's files, one behind the other.
ghost use Rattle.std.specs.Prelude.{◌≡◌, ◌++◌, ℕ, List, [], None, Some, OnOk, IfOk, IfSome, IsErrOf, true};
ghost use Rattle.std.specs.Str.{is_utf8};
ghost use Rattle.hs_folders.specs.MemFolders.{calls_made, changes_made, failing_calls};
ghost use Rattle.device_state.specs.Lists.{IsFileList, NamedFile, file_text, files_of, list_text};
ghost use Rattle.device_state.specs.Readings.{IsFolderText};
ghost use Rattle.device_state.specs.declared.files.ListFault.TheVariants.{NoMemory};

use crate::strings::{next_string, push_string};
use hs_folders::{Folder, FolderFault, MemFolder};
use std::alloc::{AllocError, AllocFailed, Global};
use std::collections::BTreeSet;

/// Why bytes were not read as a list of files.
#[derive(Clone, Copy)]
pub enum ListFault {
    /// They are none.
    Form,
    /// Memory was refused.
    NoMemory,
}

impl From<AllocError> for ListFault {
    ghost from_gives = { λ _ fault. fault ≡ NoMemory };

    fn from(_: AllocError) -> Self {
        ListFault::NoMemory
    }
}

impl<T: Drop> From<AllocFailed<T>> for ListFault {
    ghost from_gives = { λ _ fault. fault ≡ NoMemory };

    fn from(_: AllocFailed<T>) -> Self {
        ListFault::NoMemory
    }
}

// A file, and the bytes behind it.
#[derive(Clone, Copy)]
struct FrontFile<'a> {
    name: &'a str,
    bytes: &'a [u8],
    rest: &'a [u8],
}

/// A folder in memory that holds the files of a list. It was never opened, no call of it was made,
/// and it records no moments.
pub fn read_files(alloc: Global, bytes: &[u8]) -> Result<MemFolder, ListFault>
    ensures ok { IfOk result (λ folder.
        IsFolderText (⟦<MemFolder as Folder>⟧.contents folder) bytes.now) }
    ensures form { IsErrOf result ListFault.Form → (files : List NamedFile) → IsFileList files →
        ¬ (bytes.now ≡ list_text files) }

    ensures moments { IfOk result (λ folder. ⟦<MemFolder as Folder>⟧.moments folder ≡ None) }
    ensures paths { IfOk result (λ folder. ⟦<MemFolder as Folder>⟧.paths folder ≡ Some []) }
    ensures faults { IfOk result (λ folder. ⟦<MemFolder as Folder>⟧.faults folder ≡ 0) }
    ensures calls { IfOk result (λ folder. calls_made folder ≡ 0) }
    ensures changes { IfOk result (λ folder. changes_made folder ≡ 0) }
    ensures failing { IfOk result (λ folder. failing_calls folder ≡ []) }
{
    let mut folder = MemFolder::new(alloc);
    let mut names = BTreeSet::new(alloc);
    let mut rest = bytes;
    while !rest.is_empty() {
        let Some(file) = next_file(rest) else {
            return Err(ListFault::Form);
        };
        if !names.insert(file.name)? {
            return Err(ListFault::Form);
        }
        folder.put(file.name, file.bytes)?;
        rest = file.rest;
    }
    Ok(folder)
}

// The file that the bytes begin with, where its name is text.
fn next_file(bytes: &[u8]) -> Option<FrontFile<'_>>
    ensures found { IfSome result (λ front. bytes.now ≡ file_text (record {
      name = front.name.now;
      bytes = front.bytes.now;
    }) ++ front.rest.now) }
    ensures utf8 { IfSome result (λ front. is_utf8 front.name.now ≡ true) }
    ensures none { result ≡ None → (file : NamedFile) (rest : List ℕ) →
        is_utf8 file.name ≡ true → ¬ (bytes.now ≡ file_text file ++ rest) }
{
    let name = next_string(bytes)?;
    let held = next_string(name.rest)?;
    let text = str::from_utf8(name.string).ok()?;
    Some(FrontFile {
        name: text,
        bytes: held.string,
        rest: held.rest,
    })
}

/// Appends the files of a folder in byte order of their names. No call of the folder is to fail.
/// After a refusal of memory some of them may stand there.
pub fn push_files(
    alloc: Global,
    out: &mut Vec<u8>,
    folder: &mut MemFolder,
) -> Result<(), AllocError>
    requires { failing_calls folder.old ≡ [] }
    ensures ok { OnOk result (IfSome (⟦<MemFolder as Folder>⟧.contents folder.old) (λ held.
        out.new.items ≡ out.old.items ++ list_text (files_of held))) }

    ensures contents { ⟦<MemFolder as Folder>⟧.contents folder.new
        ≡ ⟦<MemFolder as Folder>⟧.contents folder.old }
    ensures moments { ⟦<MemFolder as Folder>⟧.moments folder.new
        ≡ ⟦<MemFolder as Folder>⟧.moments folder.old }
    ensures paths { ⟦<MemFolder as Folder>⟧.paths folder.new
        ≡ ⟦<MemFolder as Folder>⟧.paths folder.old }
    ensures faults { ⟦<MemFolder as Folder>⟧.faults folder.new
        ≡ ⟦<MemFolder as Folder>⟧.faults folder.old }
    ensures changes { changes_made folder.new ≡ changes_made folder.old }
    ensures failing { failing_calls folder.new ≡ [] }
{
    let names = folder.list(alloc).map_err(refusal)?;
    for name in &names {
        let bytes = folder.read(alloc, name.as_str()).map_err(refusal)?;
        push_string(out, name.as_bytes())?;
        push_string(out, &bytes)?;
    }
    Ok(())
}

// What a folder refuses that never fails and has the file: memory.
fn refusal(fault: FolderFault) -> AllocError
    requires { fault ≡ FolderFault.NoMemory }
{
    match fault {
        FolderFault::NoMemory => AllocError,
        FolderFault::Failed | FolderFault::Missing => unreachable!(),
    }
}
