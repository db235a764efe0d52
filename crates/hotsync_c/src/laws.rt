//! What holds of the parts of every file. The function here does nothing: its contract is the law.

ghost use Rattle.std.specs.Prelude.{◌≡◌, ◌<◌, All, List, slice_get, ℕ};
ghost use Rattle.pdb_values.specs.Databases.{DatabaseValue};
ghost use Rattle.pdb_files.specs.Files.{IsFileText, canonical, data_of};
ghost use Rattle.hotsync_c.specs.Building.{IsBuilt};
ghost use Rattle.hotsync_c.specs.Parts.{bytes_at, entries_of, entry_at, head_of, packed_of};

/// What `hs_build` makes of what `hs_head` and `hs_entries` say of a file, with the bytes that they put into their rooms one
/// behind the other, is the canonical file of the same database; and so of what `hs_entry` says of each index.
pub fn parts_build_the_same_file()
    ensures built { (bytes : List ℕ) (database : DatabaseValue) → All (λ byte. byte < 256) bytes
        → IsFileText database bytes
        → IsBuilt (head_of database) (entries_of database) (packed_of database)
        (canonical database) }
    ensures entries { (database : DatabaseValue) (index : ℕ)
        → slice_get (entries_of database) index ≡ entry_at database index }
    ensures contents { (database : DatabaseValue) (index : ℕ)
        → slice_get (data_of database) index ≡ bytes_at database index }
{}
