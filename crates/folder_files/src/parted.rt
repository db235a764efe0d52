// What a desktop keeps of databases that took no part in a slot's last session.

ghost use Rattle.std.specs.Prelude.{◌≡◌};
ghost use Rattle.folder_files.specs.InfoFiles.{parting_word};

use pdb_values::DbName;

/// Why a database took no part in the last session of a slot.
#[derive(Clone, Copy)]
pub enum Parting {
    /// It was skipped, or left out by the words of the call.
    Apart,
    /// The handheld lacked it or was a stranger to the slot, then or at a session before, and none took it in since.
    Unmet,
}

impl Parting {
    // The word in front of the stem of such a database.
    pub(crate) fn word(self) -> &'static str
        ensures { result.now ≡ parting_word self }
    {
        match self {
            Parting::Apart => "apart ",
            Parting::Unmet => "unmet ",
        }
    }
}

/// A database that took no part in the last session of a slot.
#[derive(Drop)]
pub struct Parted {
    /// The name of the database.
    pub name: DbName,
    /// Why it took no part.
    pub how: Parting,
}

impl Parted {
    /// The same database once more. It takes no memory.
    pub fn copy(&self) -> Parted
        ensures { result ≡ self.now }
    {
        Parted {
            name: self.name.copy(),
            how: self.how,
        }
    }
}
