// One database, lent for one command.
ghost use Rattle.std.specs.Prelude.{◌≡◌, ◌<◌, ◌≤◌, ◌↔◌, [], IfOk, IfSome, IsErrOf, IsSome, None, OnErr, OnOk, Ok, Some, false, is_err, is_ok, is_some, length, true};
ghost use Rattle.std.specs.Borrow.{sem};
ghost use Rattle.hs_folders.specs.Moments.{OneChange};
ghost use Rattle.pdb_values.specs.Blocks.{block_length, block_of};
ghost use Rattle.pdb_values.specs.Heads.{holds_resources};
ghost use Rattle.pdb_values.specs.NamedDatabases.{database_of, replaced};
ghost use Rattle.palm_device.specs.Edits.{IsFor, edit_given, edited, gives_free};
ghost use Rattle.palm_device.specs.Records as records;
ghost use Rattle.palm_device.specs.Records.{IsFree, with_records};
ghost use Rattle.palm_device.specs.Resources as resources;
ghost use Rattle.palm_device.specs.Resources.{with_resources};
ghost use Rattle.handheld_files.specs.Settled.{are_settled};
ghost use Rattle.handheld_store.specs.Files.{FollowsName};
ghost use Rattle.handheld_store.specs.Refusals.{open_fault, refusal_of, stops};
ghost use Rattle.handheld_store.specs.Stores.{HasHead, IsKeptIn};

use crate::fault::StoreFault;
use crate::lent::{LentDatabase, RecordMut};
use crate::named::lend;
use crate::new_id::{id_for, written_id};
use crate::store::Store;
use hs_folders::Folder;
use palm_device as device;
use palm_device::{Edit, Kept, place_of_id, place_of_resource};
use pdb_values::{Content, Database, DbName, FourCc, RecordId, Resource};

/// One database that is lent for one command. It is spent by `keep` or `close`.
pub type OpenBase<'s, F> = Loan<'s, F, LentDatabase>;

/// What a store lends for one command: a second one of a database, which takes its place where it is
/// kept.
pub struct Loan<'s, F: Folder, L> {
    pub(crate) store: &'s mut Store<F>,
    pub(crate) lent: L,
}

impl<F: Folder> Store<F> {
    ghost use Rattle.std.specs.Borrow.{RestsIfErr};
    ghost use Rattle.handheld_store.specs.contracts.store.Store.{the_row};
    ghost use Rattle.handheld_store.specs.Loans.{database_in};

    /// Lends one database for one command. `NotFound` comes exactly where no database has the name,
    /// then `ReadOnly` exactly where it is to be written and has attribute 0x0002.
    pub fn open(&mut self, name: &DbName, writes: bool) -> Result<OpenBase<'_, F>, StoreFault>
        requires { self.old.sound ≡ true }
        ensures* refused { sem 𝓛 (RestsIfErr (the_row F.row F.Folder) self.entry
            (λ base. base.store.ghost_name) result (λ last. last ≡ self.entry.now)) }
        ensures same_reference { IfOk result (λ base.
            base.store.ghost_name ≡ self.entry.ghost_name) }
        ensures refusal { refusal_of result
            ≡ open_fault writes (database_of name.now self.old.databases) }
        ensures no_fault { ¬ IsErrOf result StoreFault.KeeperFault }
        ensures store { IfOk result (λ base. base.store.now ≡ self.old) }
        ensures database { IfOk result (λ base.
            database_of name.now self.old.databases ≡ Some (database_in base)) }
    {
        let database = lend(self.alloc, &self.databases, name, writes)?;
        Ok(Loan {
            store: self,
            lent: LentDatabase::new(database),
        })
    }
}

impl<'s, F: Folder> Loan<'s, F, LentDatabase> {
    ghost use Rattle.std.specs.Borrow.{LendsIf};
    ghost use mir.Syntax.{named};
    ghost use Rattle.handheld_store.specs.contracts.lent.LentDatabase as lent_row;
    ghost use Rattle.handheld_store.specs.contracts.loan.Loan.{the_row};
    ghost use Rattle.handheld_store.specs.Loans.{Becomes, database_in};

    /// The database.
    pub fn database(&self) -> &Database
        ensures database { result.now ≡ database_in self.now }
        ensures settled { are_settled (database_in self.now).records ≡ true }
    {
        self.lent.database()
    }

    /// The place of the record of an id.
    pub fn place_of(&self, id: RecordId) -> Option<usize>
        ensures { result ≡ records.place_of_id id (database_in self.now).records }
    {
        place_of_id(self.lent.database().records(), id.number())
    }

    /// Lends the record of an id.
    pub fn record_mut(&mut self, id: RecordId) -> Option<RecordMut<'_>>
        ensures* lends { sem 𝓛 (LendsIf
            (the_row (record { mir = named 1; lft = [] }) F.row lent_row.the_row F.Folder)
            lent_row.the_row self.entry result
            (λ lent. record self.entry.now { lent = lent }) self.entry.now) }
        ensures found { IsSome result
            ↔ IsSome (records.place_of_id id (database_in self.old).records) }
        ensures database { IfSome result (λ item. item.now.database ≡ database_in self.old) }
        ensures place { IfSome result (λ item.
            records.place_of_id id (database_in self.old).records ≡ Some item.now.place) }
        ensures within { IfSome result (λ item.
            item.now.place < length (database_in self.old).records) }
    {
        if self.lent.select(id) {
            Some(&mut self.lent)
        } else {
            None
        }
    }

    /// Does an edit. Gives the id of the record that it writes, or 0 where it writes none. Want of
    /// memory changes nothing.
    #[tactic(auto, using(crate::proofs::SettledLaws::are_settled_edited))]
    pub fn apply(&mut self, edit: &Edit<'_>) -> Result<RecordId, StoreFault>
        requires { IsFor (database_in self.old) edit.now }
        ensures edited { IfOk result (λ given.
            Becomes self.old self.new (edited given edit.now (database_in self.old))) }
        ensures given { IfOk result (λ given. edit_given given edit.now ≡ given) }
        ensures free { IfOk result (λ given.
            gives_free edit.now ≡ true → IsFree given (database_in self.old).records) }
        ensures memory { IsErrOf result StoreFault.NoMemory ↔ (is_err result ≡ true) }
        ensures refusal { OnErr result (self.new ≡ self.old) }
    {
        let given = id_for(self.lent.database(), edit);
        let alloc = self.store.alloc();
        let _differs = device::apply(alloc, &mut self.lent.database, given, edit)?;
        Ok(given)
    }

    /// Adds a live dirty record under this id, or under a free one where it is 0. `Limit` comes exactly
    /// at 65,535 records.
    #[tactic(auto, using(crate::proofs::SettledLaws::settled_put))]
    pub fn add(&mut self, id: RecordId, content: Content) -> Result<RecordId, StoreFault>
        requires records { holds_resources (database_in self.old).head.attributes ≡ false }
        requires new { records.place_of_id id (database_in self.old).records ≡ None }
        ensures limit { IsErrOf result StoreFault.Limit
            ↔ (length (database_in self.old).records ≡ 65535) }
        ensures refusal { OnErr result (self.new ≡ self.old) }
        ensures free { IfOk result (λ given. IsFree given (database_in self.old).records) }
        ensures id { IfOk result (λ given. 0 < id → given ≡ id) }
        ensures added { IfOk result (λ given. Becomes self.old self.new (with_records
            (records.put_record given content (database_in self.old).records)
            (database_in self.old))) }
    {
        if self.lent.database().records().len() == Database::GREATEST_COUNT {
            return Err(StoreFault::Limit);
        }
        let given = new_id(self.lent.database(), id, &content);
        let _differs = device::put_record(&mut self.lent.database, given, content)?;
        Ok(given)
    }

    /// Takes out the record of an id. Answers whether there was one.
    #[tactic(auto, using(crate::proofs::SettledLaws::settled_purged))]
    pub fn purge(&mut self, id: RecordId) -> bool
        ensures found { result
            ≡ is_some (records.place_of_id id (database_in self.old).records) }
        ensures purged { Becomes self.old self.new (with_records
            (records.without_record id (database_in self.old).records) (database_in self.old)) }
    {
        device::purge_record(&mut self.lent.database, id.number())
    }

    /// Takes out every record that was deleted.
    #[tactic(auto, using(crate::proofs::SettledLaws::settled_kept))]
    pub fn clean_up(&mut self)
        ensures { Becomes self.old self.new (with_records
            (records.cleaned_up (database_in self.old).records) (database_in self.old)) }
    {
        let _differs = device::keep_records(&mut self.lent.database, &Kept::Live);
    }

    /// Clears each dirty bit.
    #[tactic(auto, using(crate::proofs::SettledLaws::are_settled_reset_flags))]
    pub fn reset_flags(&mut self)
        ensures { Becomes self.old self.new (with_records
            (records.reset_flags (database_in self.old).records) (database_in self.old)) }
    {
        let _differs = device::reset_flags(&mut self.lent.database);
    }

    /// Sets the app block, of at most 65,500 bytes, or takes it away.
    pub fn set_app(&mut self, block: Option<Vec<u8>>)
        requires { block_length (block_of block) ≤ 65500 }
        ensures { Becomes self.old self.new
            (record (database_in self.old) { app = block_of block }) }
    {
        let _differs = device::set_app(&mut self.lent.database, block);
    }

    /// Sets the sort block, of at most 65,500 bytes, or takes it away.
    pub fn set_sort(&mut self, block: Option<Vec<u8>>)
        requires { block_length (block_of block) ≤ 65500 }
        ensures { Becomes self.old self.new
            (record (database_in self.old) { sort = block_of block }) }
    {
        let _differs = device::set_sort(&mut self.lent.database, block);
    }

    /// Gives the first resource of this type and id these bytes, at most 65,500, or adds one. `Limit`
    /// comes exactly for a new one at 65,535 resources.
    pub fn put_resource(&mut self, resource: Resource) -> Result<(), StoreFault>
        requires resources { holds_resources (database_in self.old).head.attributes ≡ true }
        requires short { length resource.bytes ≤ 65500 }
        ensures limit { IsErrOf result StoreFault.Limit ↔ (
            (resources.place_of_resource resource.kind.0 resource.id
            (database_in self.old).resources ≡ None)
            × (length (database_in self.old).resources ≡ 65535)) }
        ensures refusal { OnErr result (self.new ≡ self.old) }
        ensures put { OnOk result (Becomes self.old self.new (with_resources
            (resources.put_resource resource.kind.0 resource.id resource.bytes
            (database_in self.old).resources)
            (database_in self.old))) }
    {
        if is_full(self.lent.database(), &resource) {
            return Err(StoreFault::Limit);
        }
        let Resource { kind, id, bytes } = resource;
        let _differs = device::put_resource(&mut self.lent.database, kind, id, bytes)?;
        Ok(())
    }

    /// Takes out the first resource of a type and id. Answers whether there was one.
    pub fn purge_resource(&mut self, kind: FourCc, id: u16) -> bool
        ensures found { result
            ≡ is_some (resources.place_of_resource kind.0 id (database_in self.old).resources) }
        ensures purged { Becomes self.old self.new (with_resources
            (resources.without_resource kind.0 id (database_in self.old).resources)
            (database_in self.old)) }
    {
        device::purge_resource(&mut self.lent.database, kind, id)
    }

    /// Keeps what changed: where the database is another one than the store holds, replaces its file by
    /// its canonical bytes, and else calls nothing. After a refusal the store holds what it held, its
    /// file is as before, and it is not sound.
    pub fn keep(self) -> Result<(), StoreFault>
        requires { self.store.now.sound ≡ true }
        ensures same { database_of (database_in self.entry).head.name self.entry.store.now.databases
            ≡ Some (database_in self.entry)
            → (result ≡ Ok tt) × (self.exit.0.now ≡ self.entry.store.now) }
        ensures kept { OnOk result (self.exit.0.now ≡ record self.entry.store.now {
          folder = self.exit.0.now.folder;
          databases = replaced (database_in self.entry) self.entry.store.now.databases;
        }) }
        ensures failed { OnErr result (self.exit.0.now ≡ record self.entry.store.now {
          folder = self.exit.0.now.folder;
          sound = false;
        }) }
        ensures files { OnOk result (FollowsName F.contents
            (database_in self.entry).head.name self.entry.store.now self.exit.0.now) }
        ensures stands { HasHead (database_in self.entry).head self.entry.store.now.databases
            → IsKeptIn F.contents self.entry.store.now
            → OnOk result (IsKeptIn F.contents self.exit.0.now) }
        ensures change { OneChange F.contents F.moments F.paths F.faults
            self.entry.store.now.folder self.exit.0.now.folder
            result (IsErrOf result StoreFault.KeeperFault) }
        ensures stops { stops result ≡ is_err result }
        ensures sound { self.exit.0.now.sound ≡ is_ok result }
    {
        let Loan { store, lent } = self;
        store.put_back(lent.into_database())
    }

    /// Ends the loan, and the store is as before.
    pub fn close(self)
        ensures { self.exit.0.now ≡ self.entry.store.now }
    {
        let Loan { store: _, lent: _ } = self;
    }
}

// Whether a resource is a new one and there is no room for it.
fn is_full(database: &Database, resource: &Resource) -> bool
    ensures full { result ≡ true
        → (resources.place_of_resource resource.now.kind.0 resource.now.id database.now.resources
        ≡ None)
        × (length database.now.resources ≡ 65535) }
    ensures room { result ≡ false
        → resources.place_of_resource resource.now.kind.0 resource.now.id database.now.resources
        ≡ None
        → length database.now.resources < 65535 }
{
    place_of_resource(database.resources(), resource.kind, resource.id).is_none()
        && database.resources().len() == Database::GREATEST_COUNT
}

// The id of a new record: this one, or a free one where it is 0.
fn new_id(database: &Database, id: RecordId, content: &Content) -> RecordId
    requires { records.place_of_id id database.now.records ≡ None }
    ensures free { IsFree result database.now.records }
    ensures own { 0 < id → result ≡ id }
{
    written_id(
        database.records(),
        id,
        content.category(),
        content.secret(),
        content.bytes(),
    )
}
