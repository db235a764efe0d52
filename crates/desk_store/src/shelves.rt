// The databases of a desktop by what they are to it, each list in byte order of names.
ghost use Rattle.std.specs.Prelude.{◌≡◌, [], OnOk};
ghost use Rattle.desk_store.specs.Shelves.{AreOrdered, shelf_of, with_database};
ghost use Rattle.std.specs.Option.{option_copied};
ghost use Rattle.pdb_values.specs.NamedDatabases.{database_of};

use crate::role::Role;
use pdb_values::{Database, DbName, database_of as find_database, put_database};
use std::alloc::{AllocError, Global};
use std::marker::Model;

// The databases of each role.
#[derive(Drop)]
pub(crate) struct Shelves {
    pub(crate) rows: Vec<Database>,
    pub(crate) bases: Vec<Database>,
    pub(crate) archives: Vec<Database>,
}

impl Model for Shelves {
    ghost use Rattle.desk_store.specs.Shelves.{ShelvesValue};

    ghost Value = { ShelvesValue };

    ghost view = { λ shelves. record {
      rows = shelves.rows.items;
      bases = shelves.bases.items;
      archives = shelves.archives.items;
    } };
}

impl Shelves {
    // Without a database.
    pub(crate) fn new(alloc: Global) -> Shelves
        ensures { result ≡ record { rows = []; bases = []; archives = [] } }
    {
        Shelves {
            rows: Vec::new(alloc),
            bases: Vec::new(alloc),
            archives: Vec::new(alloc),
        }
    }

    // Puts a database in place of the one of its role and name, or at its own place in the order of names.
    pub(crate) fn put(&mut self, role: Role, database: Database) -> Result<(), AllocError>
        ensures put { OnOk result (self.new ≡ with_database role database self.old) }
        ensures ordered { AreOrdered self.old → OnOk result (AreOrdered self.new) }
    {
        match role {
            Role::Rows => put_database(&mut self.rows, database),
            Role::Base => put_database(&mut self.bases, database),
            Role::Archive => put_database(&mut self.archives, database),
        }
    }

    // The database of a role and a name.
    pub(crate) fn database(&self, role: Role, name: &DbName) -> Option<&Database>
        ensures { option_copied result ≡ database_of name.now (shelf_of self.now role) }
    {
        match role {
            Role::Rows => find_database(&self.rows, name.as_bytes()),
            Role::Base => find_database(&self.bases, name.as_bytes()),
            Role::Archive => find_database(&self.archives, name.as_bytes()),
        }
    }
}
