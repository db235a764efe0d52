// What a database is to a desktop.
ghost use Rattle.std.specs.Prelude.{◌≡◌, IfOk, string_bytes};
ghost use Rattle.desk_store.specs.DeskFiles.{role_file, role_of, slot_file};

use folder_files::{archive_file, base_file, rows_file, slot_prefix};
use pdb_values::DbName;
use std::alloc::{AllocError, Global};

/// What a database is to a desktop. The ending of its file's name says it.
#[derive(Clone, Copy)]
pub enum Role {
    /// The rows, in `STEM.pdb`.
    Rows,
    /// The base rows, in `STEM.base`.
    Base,
    /// What was archived, in `STEM.arc`.
    Archive,
}

impl Role {
    /// What the database in a file of this name is. None where the name has none of the three endings.
    pub fn of_file(name: &str) -> Option<Role>
        ensures { result ≡ role_of name.now }
    {
        let bytes = name.as_bytes();
        if bytes.ends_with(b".pdb") {
            Some(Role::Rows)
        } else if bytes.ends_with(b".base") {
            Some(Role::Base)
        } else if bytes.ends_with(b".arc") {
            Some(Role::Archive)
        } else {
            None
        }
    }

    /// The name of the file in which a database of this name has this role in a slot.
    pub fn file(self, alloc: Global, slot: usize, name: &DbName) -> Result<String, AllocError>
        ensures { IfOk result (λ file. string_bytes file ≡ slot_file slot self name.now) }
    {
        let mut file = slot_prefix(alloc, slot)?;
        let own = self.own_file(alloc, name)?;
        file.push_str(own.as_str())?;
        Ok(file)
    }

    // The same in slot 0.
    fn own_file(self, alloc: Global, name: &DbName) -> Result<String, AllocError>
        ensures { IfOk result (λ file. string_bytes file ≡ role_file self name.now) }
    {
        match self {
            Role::Rows => rows_file(alloc, name),
            Role::Base => base_file(alloc, name),
            Role::Archive => archive_file(alloc, name),
        }
    }
}
