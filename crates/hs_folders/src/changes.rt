// The changes of a folder in memory: their count, or the files before each of them.
ghost use Rattle.std.specs.Prelude.{◌≡◌, ◌+◌, ◌-◌, ◌^◌, ◌++◌, ◌∷◌, [], min, slice_get, OnOk, OnErr};
ghost use Rattle.std.specs.FinMap as finmap;
ghost use Rattle.std.specs.Option.{option_map};
ghost use Rattle.hs_folders.specs.Changes.{count_of, moments_of, told_before};
ghost use Rattle.hs_folders.specs.FileTrees.{file_map};

use crate::file_tree::{FileTree, copy_files, put_file, take_file};
use std::alloc::{AllocError, Global};
use std::mem;

#[derive(Drop)]
pub(crate) enum Changes {
    // How many changes were made.
    Counted(u64),
    // The files before each change.
    Kept(Vec<FileTree>),
}

// The files at a moment, the present one last.
pub(crate) fn tree_at<'a>(
    past: &'a [FileTree],
    files: &'a FileTree,
    moment: usize,
) -> Option<&'a FileTree>
    ensures { option_map (λ tree. tree.now) result ≡ slice_get (past.now ++ files.now ∷ []) moment }
{
    if moment == past.len() {
        Some(files)
    } else {
        past.get(moment)
    }
}

// Makes these the bytes of one file, as a change.
pub(crate) fn replace_file(
    alloc: Global,
    changes: &mut Changes,
    files: &mut FileTree,
    name: &str,
    bytes: &[u8],
) -> Result<(), AllocError>
    ensures replaced { OnOk result (
        file_map files.new ≡ finmap.insert (file_map files.old) name.now bytes.now) }
    ensures told { OnOk result (told_before changes.new ≡ moments_of changes.old files.old) }
    ensures counted { OnOk result (
        count_of changes.new ≡ min (count_of changes.old + 1) (2 ^ 64 - 1)) }
    ensures files_stay { OnErr result (file_map files.new ≡ file_map files.old) }
    ensures told_stays { OnErr result (told_before changes.new ≡ told_before changes.old) }
    ensures count_stays { OnErr result (count_of changes.new ≡ count_of changes.old) }
{
    match changes {
        Changes::Counted(count) => {
            put_file(alloc, files, name, bytes)?;
            *count = count.saturating_add(1);
        }
        Changes::Kept(past) => {
            let mut next = copy_files(files)?;
            put_file(alloc, &mut next, name, bytes)?;
            change_to(past, files, next)?;
        }
    }
    Ok(())
}

// Takes one file away, as a change.
pub(crate) fn remove_file(
    changes: &mut Changes,
    files: &mut FileTree,
    name: &str,
) -> Result<(), AllocError>
    ensures removed { OnOk result (
        file_map files.new ≡ finmap.remove (file_map files.old) name.now) }
    ensures told { OnOk result (told_before changes.new ≡ moments_of changes.old files.old) }
    ensures counted { OnOk result (
        count_of changes.new ≡ min (count_of changes.old + 1) (2 ^ 64 - 1)) }
    ensures files_stay { OnErr result (file_map files.new ≡ file_map files.old) }
    ensures told_stays { OnErr result (told_before changes.new ≡ told_before changes.old) }
    ensures count_stays { OnErr result (count_of changes.new ≡ count_of changes.old) }
{
    match changes {
        Changes::Counted(count) => {
            take_file(files, name);
            *count = count.saturating_add(1);
        }
        Changes::Kept(past) => {
            let mut next = copy_files(files)?;
            take_file(&mut next, name);
            change_to(past, files, next)?;
        }
    }
    Ok(())
}

// Makes `next` the files, and keeps those before.
fn change_to(
    past: &mut Vec<FileTree>,
    files: &mut FileTree,
    next: FileTree,
) -> Result<(), AllocError>
    ensures files { OnOk result (files.new ≡ next) }
    ensures kept { OnOk result (past.new.items ≡ past.old.items ++ files.old ∷ []) }
    ensures files_stay { OnErr result (files.new ≡ files.old) }
    ensures past_stays { OnErr result (past.new.items ≡ past.old.items) }
{
    let before = mem::replace(files, next);
    if let Err(refused) = past.push(before) {
        *files = refused.value;
        return Err(AllocError);
    }
    Ok(())
}
