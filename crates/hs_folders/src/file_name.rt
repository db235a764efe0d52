// Names of files right in a folder of the file system.
ghost use Rattle.std.specs.Prelude.{◌≡◌, ◌↔◌, IsTrue};
ghost use Rattle.hs_folders.specs.FileNames.{IsFileName, is_side_name as is_name_of_side};

// Whether a name leads to a file right in the folder, and not to another place.
pub(crate) fn is_file_name(name: &str) -> bool
    ensures { IsTrue result ↔ IsFileName name.now }
{
    let bytes = name.as_bytes();
    let is_elsewhere = bytes.contains(&b'/') || bytes.contains(&0);
    !is_elsewhere && !bytes.is_empty() && name != "." && name != ".."
}

// Whether a path ends in what the files of a session's sides end in, or in the name of one of them.
pub(crate) fn is_side_name(path: &str) -> bool
    ensures { result ≡ is_name_of_side path.now }
{
    let bytes = path.as_bytes();
    bytes.ends_with(b".pdb")
        || bytes.ends_with(b".prc")
        || bytes.ends_with(b".base")
        || bytes.ends_with(b".arc")
        || bytes.ends_with(b"device.inf")
        || bytes.ends_with(b"desktop.inf")
        || bytes.ends_with(b"hotsync.journal")
        || bytes.ends_with(b"hotsync.tmp")
}
