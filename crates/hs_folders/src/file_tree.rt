// Files in memory, as a tree from names to bytes.
ghost use Rattle.std.specs.Prelude.{◌≡◌, map, string_bytes, OnOk, OnErr, IfOk};
ghost use Rattle.std.specs.Option.{option_map};
ghost use Rattle.std.specs.FinMap as finmap;
ghost use Rattle.hs_folders.specs.FileTrees.{file_map};

use std::alloc::{AllocError, Global};
use std::collections::BTreeMap;

pub(crate) type FileTree = BTreeMap<String, Vec<u8>>;

// Makes these the bytes of one file.
pub(crate) fn put_file(
    alloc: Global,
    files: &mut FileTree,
    name: &str,
    bytes: &[u8],
) -> Result<(), AllocError>
    ensures ok { OnOk result (
        file_map files.new ≡ finmap.insert (file_map files.old) name.now bytes.now) }
    ensures err { OnErr result (file_map files.new ≡ file_map files.old) }
{
    let name = String::from_str(alloc, name)?;
    let bytes = bytes.to_vec(alloc)?;
    files.insert(name, bytes)?;
    Ok(())
}

// Takes one file away, and answers whether it was there.
pub(crate) fn take_file(files: &mut FileTree, name: &str) -> bool
    ensures taken { file_map files.new ≡ finmap.remove (file_map files.old) name.now }
    ensures found { result ≡ finmap.contains_key (file_map files.old) name.now }
{
    files.remove(name).is_some()
}

pub(crate) fn has_file(files: &FileTree, name: &str) -> bool
    ensures { result ≡ finmap.contains_key (file_map files.now) name.now }
{
    files.contains_key(name)
}

// The bytes of one file.
pub(crate) fn copy_file(
    alloc: Global,
    files: &FileTree,
    name: &str,
) -> Result<Option<Vec<u8>>, AllocError>
    ensures { IfOk result (λ found. option_map (λ bytes.
        bytes.items) found ≡ finmap.get (file_map files.now) name.now) }
{
    match files.get(name) {
        None => Ok(None),
        Some(bytes) => Ok(Some(bytes.to_vec(alloc)?)),
    }
}

pub(crate) fn copy_files(files: &FileTree) -> Result<FileTree, AllocError>
    ensures { IfOk result (λ copy. file_map copy ≡ file_map files.now) }
{
    Ok(files.clone()?)
}

// The names in byte order.
pub(crate) fn copy_names(alloc: Global, files: &FileTree) -> Result<Vec<String>, AllocError>
    ensures { IfOk result (λ names.
        map string_bytes names.items ≡ finmap.keys (file_map files.now)) }
{
    let mut names = Vec::new(alloc);
    for name in files.keys() {
        names.push(String::from_str(alloc, name.as_str())?)?;
    }
    Ok(names)
}
