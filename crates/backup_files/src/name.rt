// Which files of a folder are those of databases.
ghost use Rattle.std.specs.Prelude.{◌≡◌};
ghost use Rattle.std.specs.Str.{str_to_ascii_lowercase};
ghost use Rattle.backup_files.specs.BackupNames as names;
ghost use Rattle.folder_files.specs.FileNames as endings;

/// Whether a file of this name is one of a database: the name ends in `.pdb` or `.prc`, in letters of either case.
pub fn is_backup(name: &str) -> bool
    ensures { result ≡ names.is_backup name.now }
{
    let bytes = name.as_bytes();
    has_ending(bytes, b".pdb") || has_ending(bytes, b".prc")
}

// Whether a name ends in these bytes, where letters of either case are alike.
fn has_ending(name: &[u8], ending: &[u8]) -> bool
    ensures { result ≡ endings.has_ending (str_to_ascii_lowercase ending.now)
        (str_to_ascii_lowercase name.now) }
{
    let start = name.len().saturating_sub(ending.len());
    ending.eq_ignore_ascii_case(&name[start..])
}
