// Records that are written into a store without a copy of their database.
ghost use Rattle.std.specs.Prelude.{◌≡◌, ◌≤◌, IfOk, IfSome, IsErrOf, IsSome, IsSomeAnd, OnErr, OnOk, is_err, is_ok, length, true, false};
ghost use Rattle.hs_folders.specs.Moments.{OneChange};
ghost use Rattle.pdb_values.specs.NamedDatabases as named;
ghost use Rattle.palm_device.specs.Records as records;
ghost use Rattle.palm_device.specs.Records.{IsFree};
ghost use Rattle.handheld_files.specs.Openings.{Stands};
ghost use Rattle.handheld_store.specs.Files.{FollowsName};
ghost use Rattle.handheld_store.specs.Placed.{HasRoomFor, Takes};
ghost use Rattle.handheld_store.specs.Refusals.{stops};
ghost use Rattle.handheld_store.specs.Stores.{HasWritten};

use crate::fault::StoreFault;
use crate::index::{add_id, place_in};
use crate::named::put_record;
use crate::new_id::written_id;
use crate::store::Store;
use hs_folders::Folder;
use pdb_values::{Category, Content, DbName, RecordId, database_of};
use std::alloc::{AllocError, Global};

impl<F: Folder> Store<F> {
    /// Gives the record of an id in the database of a name this content, live and dirty, or adds one
    /// behind the others, and writes the database's file; id 0 asks for a free id. The database is not
    /// copied, and nothing is written where it stays the same. `NotFound` comes where no database has
    /// the name. After a refusal the store holds what it held and its file is as before; where the file
    /// was to be changed it is not sound.
    pub fn write_record(
        &mut self,
        name: &DbName,
        id: RecordId,
        category: Category,
        secret: bool,
        bytes: &[u8],
    ) -> Result<RecordId, StoreFault>
        requires sound { self.old.sound ≡ true }
        requires possible { IfSome (named.database_of name.now self.old.databases)
            (HasRoomFor (length bytes.now) id) }
        ensures written { IfOk result (λ given. HasWritten name.now given
            (record { category = category; secret = secret; bytes = bytes.now })
            self.old self.new) }
        ensures there { OnOk result (IsSome (named.database_of name.now self.old.databases)) }
        ensures given { IfOk result (λ given. records.given_id given id ≡ given) }
        ensures free { IfOk result (λ given. id ≡ 0
            → IfSome (named.database_of name.now self.old.databases)
            (λ database. IsFree given database.records)) }
        ensures held { OnErr result (self.new
            ≡ record self.old { folder = self.new.folder; sound = self.new.sound }) }
        ensures stays { OnErr result (self.new.sound ≡ true → self.new ≡ self.old) }
        ensures sound { OnOk result (self.new.sound ≡ true) }
        ensures files { OnOk result (FollowsName F.contents name.now self.old self.new) }
        ensures stands { Stands (F.contents self.old.folder) self.old.databases self.old.user
            → OnOk result (Stands (F.contents self.new.folder) self.new.databases self.new.user) }
        ensures change { OneChange F.contents F.moments F.paths F.faults self.old.folder
            self.new.folder result (IsErrOf result StoreFault.KeeperFault) }
    {
        let Some(database) = database_of(&self.databases, name.as_bytes()) else {
            return Err(StoreFault::NotFound);
        };
        let given = written_id(database.records(), id, category, secret, bytes);
        let content = match content_of(self.alloc, category, secret, bytes) {
            Ok(content) => content,
            Err(AllocError) => return Err(StoreFault::NoMemory),
        };
        match self.put_record(name, given, content) {
            Ok(()) => Ok(given),
            Err(fault) => Err(fault),
        }
    }

    // Writes a record under an id that a record has or that is free.
    fn put_record(
        &mut self,
        name: &DbName,
        id: RecordId,
        content: Content,
    ) -> Result<(), StoreFault>
        requires sound { self.old.sound ≡ true }
        requires takes { IsSomeAnd (named.database_of name.now self.old.databases) (Takes id) }
        ensures put { OnOk result (HasWritten name.now id content self.old self.new) }
        ensures failed { OnErr result (self.new
            ≡ record self.old { folder = self.new.folder; sound = false }) }
        ensures files { OnOk result (FollowsName F.contents name.now self.old self.new) }
        ensures stands { Stands (F.contents self.old.folder) self.old.databases self.old.user
            → OnOk result (Stands (F.contents self.new.folder) self.new.databases self.new.user) }
        ensures change { OneChange F.contents F.moments F.paths F.faults self.old.folder
            self.new.folder result (IsErrOf result StoreFault.KeeperFault) }
        ensures stops { stops result ≡ is_err result }
        ensures sound { self.new.sound ≡ is_ok result }
    {
        let place = place_in(
            self.alloc,
            &mut self.indexes,
            &self.databases,
            name,
            id.number(),
        );
        match put_record(
            self.alloc,
            &mut self.folder,
            &mut self.databases,
            name,
            place,
            id,
            content,
        ) {
            Ok(()) => {
                if place.is_none() {
                    add_id(&mut self.indexes, name.as_bytes(), id.number());
                }
                Ok(())
            }
            Err(fault) => Err(self.fails(fault)),
        }
    }
}

// A content of these bytes.
fn content_of(
    alloc: Global,
    category: Category,
    secret: bool,
    bytes: &[u8],
) -> Result<Content, AllocError>
    requires { length bytes.now ≤ 65500 }
    ensures { IfOk result (λ content. content
        ≡ record { category = category; secret = secret; bytes = bytes.now }) }
{
    match Content::new(category, secret, Vec::from_slice(alloc, bytes)?) {
        Ok(content) => Ok(content),
        Err(_) => Err(AllocError),
    }
}
