// What stands under a handle.
use pdb_values::DbName;

/// A database that is open under a handle.
#[derive(Drop)]
pub struct Opened {
    /// The name of the database.
    pub name: DbName,
    /// The mode that it was opened with. Bit 0x40 is for writing; no other bit has an effect.
    pub mode: u8,
    /// The record index: where the search for the next changed record goes on.
    pub next: u16,
}
