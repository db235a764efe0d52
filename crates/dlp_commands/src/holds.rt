// What a function works on.
ghost use Rattle.std.specs.Prelude.{◌≡◌};
ghost use Rattle.dlp_commands.specs.Holding.{fits};

use pdb_values::Database;

/// What a function works on.
#[derive(Clone, Copy)]
pub enum Holds {
    /// Any database.
    Either,
    /// A database of records.
    Records,
    /// A database of resources.
    Resources,
}

impl Holds {
    /// Whether the database has it.
    pub fn fits(self, database: &Database) -> bool
        ensures { result ≡ fits self database.now }
    {
        match self {
            Holds::Either => true,
            Holds::Records => !database.head().holds_resources(),
            Holds::Resources => database.head().holds_resources(),
        }
    }
}
