// The store over a handheld's folder.
ghost use Rattle.std.specs.Prelude.{◌≡◌, ◌<◌, ◌≤◌, IfErr, IfOk, IfSome, IsErrOf, None, Ok, OnErr, OnOk, OnSome, Some, is_err, is_ok, length, not, option_and_then, slice_get, true, false};
ghost use Rattle.std.specs.FinMap as finmap;
ghost use Rattle.std.specs.Option.{option_copied, option_map};
ghost use Rattle.hs_folders.specs.Causes.{HasCause};
ghost use Rattle.hs_folders.specs.Moments.{OneChange};
ghost use Rattle.pdb_values.specs.NamedDatabases as named;
ghost use Rattle.pdb_values.specs.NamedDatabases.{replaced, with_new, without_named};
ghost use Rattle.palm_device.specs.Blocks.{empty_database};
ghost use Rattle.palm_device.specs.Bounds.{IsBounded};
ghost use Rattle.palm_device.specs.Records.{place_of_id};
ghost use Rattle.folder_files.specs.FileNames as file_names;
ghost use Rattle.folder_files.specs.InfoFiles.{device_text};
ghost use Rattle.handheld_files.specs.Openings.{AreKept, HoldsAll, ShowsOpenFault, Stands, opened_device};
ghost use Rattle.handheld_files.specs.Settled.{are_settled};
ghost use Rattle.handheld_store.specs.Files.{FollowsName};
ghost use Rattle.handheld_store.specs.Refusals.{create_fault, delete_fault, refusal_of, stops};
ghost use Rattle.handheld_store.specs.Stores.{HasHead, IsKeptIn};

use crate::fault::StoreFault;
use crate::files::write_user;
use crate::index::{Index, forget, has_ids_of, place_in};
use crate::named::{add_database, may_create, put_database, take_database};
use handheld_files::{Handheld, OpenFault, read_folder};
use hs_folders::Folder;
use pdb_values::{Database, DbHead, DbName, UserInfo, database_of};
use std::alloc::Global;
use std::marker::Model;

/// All databases of a handheld's folder, and its user.
///
/// It is sound where its folder stands for them. Each call but `is_sound` and `into_folder` has the
/// condition that it is.
#[derive(Drop)]
pub struct Store<F: Folder> {
    pub(crate) alloc: Global,
    pub(crate) folder: F,
    pub(crate) databases: Vec<Database>,
    pub(crate) indexes: Vec<Index>,
    user: UserInfo,
    sound: bool,
}

impl<F: Folder> Model for Store<F> {
    ghost use Rattle.handheld_files.specs.Openings.{AreKept};
    ghost use Rattle.handheld_store.specs.Indexes.{AreIndexes};
    ghost use Rattle.handheld_store.specs.Stores.{StoreValue};

    ghost Value = { StoreValue F };

    ghost view = { λ store. record {
      folder = store.folder;
      databases = store.databases.items;
      user = store.user;
      sound = store.sound;
    } };

    ghost invariant = { λ store. AreKept store.databases.items
        × AreIndexes store.databases.items store.indexes.items };
}

impl<F: Folder> Store<F> {
    /// The store over a folder that was opened before. A refusal hands the folder back: the folder
    /// fails to be listed, it has files of too many databases, or a file fails to be read or is bad.
    /// Nothing in the folder changes.
    pub fn open_folder(alloc: Global, folder: F) -> Result<Store<F>, (OpenFault, F)>
        // It holds all that the folder stands for.
        ensures held { IfOk result (λ store. IfSome (F.contents folder) (λ held.
            HoldsAll held store.databases store.user)) }
        ensures kept { IfOk result (λ store. AreKept store.databases) }
        ensures bounded { IfOk result (λ store. IsBounded (opened_device store.databases
            store.user)) }
        ensures sound { IfOk result (λ store. store.sound ≡ true) }

        // Why it is refused.
        ensures shown { IfErr result (λ refused. IfSome (F.contents folder) (ShowsOpenFault refused.0)) }
        ensures cause { IfErr result (λ refused. HasCause (F.faults folder) (F.faults refused.1)
            (refused.0 ≡ OpenFault.Keeper)) }
        ensures no_fault { IfOk result (λ store. F.faults store.folder ≡ F.faults folder) }

        // The folder stays.
        ensures contents { IfOk result (λ store. F.contents store.folder ≡ F.contents folder) }
        ensures moments { IfOk result (λ store. F.moments store.folder ≡ F.moments folder) }
        ensures paths { IfOk result (λ store. F.paths store.folder ≡ F.paths folder) }
        ensures contents_back { IfErr result (λ refused. F.contents refused.1 ≡ F.contents folder) }
        ensures moments_back { IfErr result (λ refused. F.moments refused.1 ≡ F.moments folder) }
        ensures paths_back { IfErr result (λ refused. F.paths refused.1 ≡ F.paths folder) }
    {
        let mut folder = folder;
        match read_folder(alloc, &mut folder) {
            Ok(Handheld { databases, user }) => Ok(Store {
                alloc,
                folder,
                databases,
                indexes: Vec::new(alloc),
                user,
                sound: true,
            }),
            Err(fault) => Err((fault, folder)),
        }
    }

    /// How many databases there are, at most 200, in byte order of their names.
    pub fn len(&self) -> usize
        requires { self.now.sound ≡ true }
        ensures count { result ≡ length self.now.databases }
        ensures kept { AreKept self.now.databases }
    {
        self.databases.len()
    }

    /// The head of a database by its place in byte order of names.
    pub fn head(&self, index: usize) -> Option<&DbHead>
        requires { self.now.sound ≡ true }
        ensures { option_copied result
            ≡ option_map (λ database. database.head) (slice_get self.now.databases index) }
    {
        match self.databases.get(index) {
            Some(database) => Some(database.head()),
            None => None,
        }
    }

    /// The database of a name.
    pub fn database(&self, name: &DbName) -> Option<&Database>
        requires { self.now.sound ≡ true }
        ensures database { option_copied result ≡ named.database_of name.now self.now.databases }
        ensures kept { AreKept self.now.databases }
    {
        database_of(&self.databases, name.as_bytes())
    }

    /// Where the record of an id stands in the database of a name. It is found without a walk where
    /// memory serves for an index.
    pub fn place_of(&mut self, name: &DbName, id: u32) -> Option<usize>
        requires { self.old.sound ≡ true }
        ensures place { result ≡ option_and_then
            (λ database. place_of_id id database.records)
            (named.database_of name.now self.old.databases) }
        ensures within { IfSome result (λ place. place < 65535) }
        ensures few { IfSome (named.database_of name.now self.old.databases)
            (λ database. length database.records ≤ 65535) }
        ensures stays { self.new ≡ self.old }
    {
        place_in(self.alloc, &mut self.indexes, &self.databases, name, id)
    }

    /// What the handheld knows of its user.
    pub fn user(&self) -> &UserInfo
        requires { self.now.sound ≡ true }
        ensures { result.now ≡ self.now.user }
    {
        &self.user
    }

    /// Whether the folder stands for what the store holds: no call met the folder's failure or want of
    /// memory while a file was to be changed.
    pub fn is_sound(&self) -> bool
        ensures { result ≡ self.now.sound }
    {
        self.sound
    }

    /// What it takes memory from.
    pub fn alloc(&self) -> Global {
        self.alloc
    }

    /// Hands the folder back.
    pub fn into_folder(self) -> F
        ensures { result ≡ self.folder }
    {
        let Store {
            alloc: _,
            folder,
            databases: _,
            indexes: _,
            user: _,
            sound: _,
        } = self;
        folder
    }

    /// Replaces what the handheld knows of its user.
    #[tactic(auto, using(crate::proofs::KeptLaws::stands_user))]
    pub fn set_user(&mut self, user: UserInfo) -> Result<(), StoreFault>
        requires { self.old.sound ≡ true }
        ensures set { OnOk result (self.new
            ≡ record self.old { folder = self.new.folder; user = user }) }
        ensures failed { OnErr result (self.new
            ≡ record self.old { folder = self.new.folder; sound = false }) }
        ensures written { OnOk result (F.contents self.new.folder ≡ option_map (λ held.
            finmap.insert held file_names.device_info_file (device_text user))
            (F.contents self.old.folder)) }
        ensures stands { Stands (F.contents self.old.folder) self.old.databases self.old.user
            → OnOk result (Stands (F.contents self.new.folder) self.new.databases self.new.user) }
        ensures change { OneChange F.contents F.moments F.paths F.faults self.old.folder
            self.new.folder result (IsErrOf result StoreFault.KeeperFault) }
        ensures stops { stops result ≡ is_err result }
        ensures sound { self.new.sound ≡ is_ok result }
    {
        match write_user(self.alloc, &mut self.folder, &user) {
            Ok(()) => {
                self.user = user;
                Ok(())
            }
            Err(fault) => Err(self.fails(fault)),
        }
    }

    /// Makes a database with this head, no block and no entry.
    pub fn create(&mut self, head: DbHead) -> Result<(), StoreFault>
        requires { self.old.sound ≡ true }
        ensures refusal { refusal_of result ≡ create_fault head.name self.old.databases }
        ensures stays { OnSome (create_fault head.name self.old.databases) (self.new ≡ self.old) }
        ensures made { OnOk result (self.new ≡ record self.old {
          folder = self.new.folder;
          databases = with_new (empty_database head) self.old.databases;
        }) }
        ensures failed { stops result ≡ true → self.new
            ≡ record self.old { folder = self.new.folder; sound = false } }
        ensures files { OnOk result (FollowsName F.contents head.name self.old self.new) }
        ensures stands { Stands (F.contents self.old.folder) self.old.databases self.old.user
            → OnOk result (Stands (F.contents self.new.folder) self.new.databases self.new.user) }
        ensures change { OneChange F.contents F.moments F.paths F.faults self.old.folder
            self.new.folder result (IsErrOf result StoreFault.KeeperFault) }
        ensures sound { self.new.sound ≡ not (stops result) }
    {
        match may_create(&self.databases, &head.name) {
            Ok(()) => {}
            Err(fault) => return Err(fault),
        }
        forget(&mut self.indexes, head.name.as_bytes());
        match add_database(self.alloc, &mut self.folder, &mut self.databases, head) {
            Ok(()) => Ok(()),
            Err(fault) => Err(self.fails(fault)),
        }
    }

    /// Takes a database away.
    pub fn delete(&mut self, name: &DbName) -> Result<(), StoreFault>
        requires { self.old.sound ≡ true }
        ensures refusal { refusal_of result ≡ delete_fault name.now self.old.databases }
        ensures stays { OnSome (delete_fault name.now self.old.databases) (self.new ≡ self.old) }
        ensures taken { OnOk result (self.new ≡ record self.old {
          folder = self.new.folder;
          databases = without_named name.now self.old.databases;
        }) }
        ensures failed { stops result ≡ true → self.new
            ≡ record self.old { folder = self.new.folder; sound = false } }
        ensures files { OnOk result (FollowsName F.contents name.now self.old self.new) }
        ensures stands { Stands (F.contents self.old.folder) self.old.databases self.old.user
            → OnOk result (Stands (F.contents self.new.folder) self.new.databases self.new.user) }
        ensures change { OneChange F.contents F.moments F.paths F.faults self.old.folder
            self.new.folder result (IsErrOf result StoreFault.KeeperFault) }
        ensures sound { self.new.sound ≡ not (stops result) }
    {
        if database_of(&self.databases, name.as_bytes()).is_none() {
            return Err(StoreFault::NotFound);
        }
        forget(&mut self.indexes, name.as_bytes());
        match take_database(self.alloc, &mut self.folder, &mut self.databases, name) {
            Ok(()) => Ok(()),
            Err(fault) => Err(self.fails(fault)),
        }
    }

    // Notes that the folder may not stand for what is held any more.
    pub(crate) fn fails(&mut self, fault: StoreFault) -> StoreFault
        ensures fault { result ≡ fault }
        ensures unsound { self.new ≡ record self.old { sound = false } }
    {
        self.sound = false;
        fault
    }

    // Puts a database in the place of the one of its name, and writes its file where it is another one.
    pub(crate) fn put_back(&mut self, database: Database) -> Result<(), StoreFault>
        requires sound { self.old.sound ≡ true }
        requires settled { are_settled database.records ≡ true }
        ensures same { named.database_of database.head.name self.old.databases ≡ Some database
            → (result ≡ Ok tt) × (self.new ≡ self.old) }
        ensures kept { OnOk result (self.new ≡ record self.old {
          folder = self.new.folder;
          databases = replaced database self.old.databases;
        }) }
        ensures failed { OnErr result (self.new
            ≡ record self.old { folder = self.new.folder; sound = false }) }
        ensures files { OnOk result (FollowsName F.contents database.head.name self.old self.new) }
        ensures stands { HasHead database.head self.old.databases
            → IsKeptIn F.contents self.old → OnOk result (IsKeptIn F.contents self.new) }
        ensures change { OneChange F.contents F.moments F.paths F.faults self.old.folder
            self.new.folder result (IsErrOf result StoreFault.KeeperFault) }
        ensures stops { stops result ≡ is_err result }
        ensures sound { self.new.sound ≡ is_ok result }
    {
        if !has_ids_of(&self.databases, &database) {
            forget(&mut self.indexes, database.head().name.as_bytes());
        }
        match put_database(self.alloc, &mut self.folder, &mut self.databases, database) {
            Ok(()) => Ok(()),
            Err(fault) => Err(self.fails(fault)),
        }
    }
}
