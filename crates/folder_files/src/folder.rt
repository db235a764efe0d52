// Which files of a folder a side reads.
ghost use Rattle.std.specs.Prelude.{◌≡◌, bytes_eq};
ghost use Rattle.folder_files.specs.FileNames as names;

/// The information file of a handheld.
pub const DEVICE_INFO: &str = "device.inf";

/// The information file of a desktop.
pub const DESKTOP_INFO: &str = "desktop.inf";

/// The journal of a desktop, which is there only while a change is being carried out.
pub const JOURNAL: &str = "hotsync.journal";

/// Whether a handheld reads a file of this name: a database or its information file.
pub fn is_handheld_file(name: &str) -> bool
    ensures { result ≡ names.is_handheld_file name.now }
{
    let bytes = name.as_bytes();
    bytes.ends_with(b".pdb") || bytes.ends_with(b".prc") || name == DEVICE_INFO
}

/// Whether a desktop keeps a file of this name: rows, base rows, an archive or its information file. Besides it reads its
/// journal.
pub fn is_kept_file(name: &str) -> bool
    ensures { result ≡ names.is_kept_file name.now }
{
    let bytes = name.as_bytes();
    bytes.ends_with(b".pdb")
        || bytes.ends_with(b".base")
        || bytes.ends_with(b".arc")
        || name == DESKTOP_INFO
}
