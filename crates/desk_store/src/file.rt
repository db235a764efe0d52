// What a file of a desktop holds.

use crate::role::Role;
use pdb_values::Database;

/// What a file of a desktop holds.
#[derive(Drop)]
pub enum DeskFile {
    /// A database of records: the number of the slot, and what it is to the desktop there.
    Database(usize, Role, Database),
    /// An information file or a journal in its form, or a file that a desktop does not look at.
    Other,
}
