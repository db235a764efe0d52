// What both sides hold of one database.

use pdb_values::Database;

/// What both sides hold of one database, where they have it.
#[derive(Drop)]
pub struct BothSides {
    /// The handheld's database.
    pub handheld: Option<Database>,
    /// The desktop's rows.
    pub rows: Option<Database>,
    /// What both sides agreed on last.
    pub base: Option<Database>,
    /// What was archived.
    pub archive: Option<Database>,
}
