// A database in memory.
ghost use Rattle.std.specs.Prelude.{◌≡◌, ◌<◌, ◌≤◌, ◌++◌, ◌∷◌, [], ◌⊎◌, ◌↔◌, All, IfErr, IfNone, IfSome, IsErr, IsSome, OnErr, OnOk, false, length, remove, slice_get, true};
ghost use Rattle.std.specs.Borrow.{sem};
ghost use Rattle.std.specs.Fn.{CalledAt};
ghost use Rattle.std.specs.List.Retain.{IsFiltered};
ghost use Rattle.std.specs.Option.{option_copied};
ghost use Rattle.pdb_values.specs.Heads.{holds_resources};

use crate::block::within_limit;
use crate::bytes::Bytes;
use crate::content::{Content, TooLarge};
use crate::head::DbHead;
use crate::record::Record;
use crate::resource::Resource;
use std::alloc::Global;
use std::marker::Model;

/// Why an entry was not pushed. Each hands it back.
#[derive(Drop)]
pub enum PushFault<T> {
    /// It has more than 65,500 bytes.
    TooLarge(T),
    /// The database has 65,535 entries.
    Full(T),
    /// There was no memory for it.
    NoMemory(T),
}

/// A database: its head, an app block and a sort block where they are there, and its entries in order. It holds
/// resources where its head says so, and else records.
#[derive(Drop)]
pub struct Database {
    head: DbHead,
    app: Option<Vec<u8>>,
    sort: Option<Vec<u8>>,
    records: Vec<Record>,
    resources: Vec<Resource>,
}

impl Model for Database {
    ghost use Rattle.pdb_values.specs.Blocks.{block_of};
    ghost use Rattle.pdb_values.specs.Databases.{DatabaseValue, IsDatabase};

    ghost Value = { DatabaseValue };

    ghost view = { λ database. record {
      head = database.head;
      app = block_of database.app;
      sort = block_of database.sort;
      records = database.records.items;
      resources = database.resources.items;
    } };

    ghost invariant = { λ database. IsDatabase (record {
      head = database.head;
      app = block_of database.app;
      sort = block_of database.sort;
      records = database.records.items;
      resources = database.resources.items;
    }) };
}

impl Database {
    ghost use Rattle.pdb_values.specs.Blocks.{block_length, block_of};
    ghost use Rattle.pdb_values.specs.Databases.{IsDatabase, IsShortResource};
    ghost use Rattle.pdb_values.specs.Lending.{LendsRecord};
    ghost use Rattle.pdb_values.specs.Resources.{with_bytes_at};

    /// How many databases a handheld can have.
    pub const MOST: usize = 200;

    /// How many entries a database can have.
    pub const GREATEST_COUNT: usize = 65_535;

    /// The greatest length of a block and of a resource.
    pub const LIMIT: usize = Content::LIMIT;

    /// One with no block and no entry.
    pub fn new(alloc: Global, head: DbHead) -> Database
        ensures { result
            ≡ record { head = head; app = None; sort = None; records = []; resources = [] } }
    {
        Database {
            head,
            app: None,
            sort: None,
            records: Vec::new(alloc),
            resources: Vec::new(alloc),
        }
    }

    /// The head.
    pub fn head(&self) -> &DbHead
        ensures head { result.now ≡ self.now.head }
        ensures database { IsDatabase self.now }
    {
        &self.head
    }

    /// The app block, of at most 65,500 bytes, where it is there.
    pub fn app(&self) -> Option<&[u8]>
        ensures block { option_copied result ≡ self.now.app }
        ensures bound { block_length self.now.app ≤ 65500 }
    {
        self.app.as_deref()
    }

    /// The sort block, of at most 65,500 bytes, where it is there.
    pub fn sort(&self) -> Option<&[u8]>
        ensures block { option_copied result ≡ self.now.sort }
        ensures bound { block_length self.now.sort ≤ 65500 }
    {
        self.sort.as_deref()
    }

    /// The records, at most 65,535. A database that holds resources has none.
    pub fn records(&self) -> &[Record]
        ensures records { result.now ≡ self.now.records }
        ensures bound { length result.now ≤ 65535 }
        ensures database { IsDatabase self.now }
    {
        &self.records
    }

    /// The resources, at most 65,535. A database that holds records has none.
    pub fn resources(&self) -> &[Resource]
        ensures resources { result.now ≡ self.now.resources }
        ensures bound { length result.now ≤ 65535 }
        ensures short { All IsShortResource result.now }
        ensures database { IsDatabase self.now }
    {
        &self.resources
    }

    /// Puts a record behind the others.
    pub fn push_record(&mut self, item: Record) -> Result<(), PushFault<Record>>
        requires { holds_resources self.old.head.attributes ≡ false }
        ensures ok { OnOk result (
            self.new ≡ record self.old { records = self.old.records ++ item ∷ [] }) }
        ensures err { OnErr result (self.new ≡ self.old) }
        ensures full { (result ≡ Err (PushFault.Full item)) ↔ (length self.old.records ≡ 65535) }
        ensures handed_back { IfErr result (λ fault.
            (fault ≡ PushFault.Full item) ⊎ (fault ≡ PushFault.NoMemory item)) }
    {
        if self.records.len() == Self::GREATEST_COUNT {
            return Err(PushFault::Full(item));
        }
        match self.records.push(item) {
            Ok(()) => Ok(()),
            Err(refused) => Err(PushFault::NoMemory(refused.value)),
        }
    }

    /// Puts a resource behind the others.
    pub fn push_resource(&mut self, resource: Resource) -> Result<(), PushFault<Resource>>
        requires { holds_resources self.old.head.attributes ≡ true }
        ensures ok { OnOk result (
            self.new ≡ record self.old { resources = self.old.resources ++ resource ∷ [] }) }
        ensures err { OnErr result (self.new ≡ self.old) }
        ensures too_large { (result ≡ Err (PushFault.TooLarge resource))
            ↔ (65500 < length resource.bytes) }
        ensures full { (result ≡ Err (PushFault.Full resource))
            ↔ ((length resource.bytes ≤ 65500) × (length self.old.resources ≡ 65535)) }
        ensures handed_back { IfErr result (λ fault. (fault ≡ PushFault.TooLarge resource)
            ⊎ (fault ≡ PushFault.Full resource) ⊎ (fault ≡ PushFault.NoMemory resource)) }
    {
        if resource.bytes.as_slice().len() > Self::LIMIT {
            return Err(PushFault::TooLarge(resource));
        }
        if self.resources.len() == Self::GREATEST_COUNT {
            return Err(PushFault::Full(resource));
        }
        match self.resources.push(resource) {
            Ok(()) => Ok(()),
            Err(refused) => Err(PushFault::NoMemory(refused.value)),
        }
    }

    /// Sets or takes away the app block.
    pub fn set_app(&mut self, block: Option<Vec<u8>>) -> Result<(), TooLarge>
        ensures ok { OnOk result (self.new ≡ record self.old { app = block_of block }) }
        ensures err { OnErr result (self.new ≡ self.old) }
        ensures too_large { IsErr result ↔ (65500 < block_length (block_of block)) }
        ensures handed_back { IfErr result (λ refused. block_of block ≡ Some refused.0.items) }
    {
        self.app = within_limit(block)?;
        Ok(())
    }

    /// Sets or takes away the sort block.
    pub fn set_sort(&mut self, block: Option<Vec<u8>>) -> Result<(), TooLarge>
        ensures ok { OnOk result (self.new ≡ record self.old { sort = block_of block }) }
        ensures err { OnErr result (self.new ≡ self.old) }
        ensures too_large { IsErr result ↔ (65500 < block_length (block_of block)) }
        ensures handed_back { IfErr result (λ refused. block_of block ≡ Some refused.0.items) }
    {
        self.sort = within_limit(block)?;
        Ok(())
    }

    /// Lends one record. All else stays.
    pub fn record_mut(&mut self, place: usize) -> Option<&mut Record>
        ensures* writes_back { sem 𝓛 (LendsRecord self.entry place result) }
        ensures there { IsSome result ↔ (place < length self.old.records) }
        ensures value { IfSome result (λ item. slice_get self.old.records place ≡ Some item.now) }
    {
        self.records.get_mut(place)
    }

    /// Takes one record out. The others keep their order.
    pub fn remove_record(&mut self, place: usize) -> Option<Record>
        ensures taken { result ≡ slice_get self.old.records place }
        ensures rest { IsSome result →
            self.new ≡ record self.old { records = remove self.old.records place } }
        ensures none { IfNone result (self.new ≡ self.old) }
    {
        if place >= self.records.len() {
            return None;
        }
        Some(self.records.remove(place))
    }

    /// Keeps the records at which `keep` answers `true`, in their order, in one pass.
    pub fn retain_records<F: FnMut(&Record) -> bool>(&mut self, keep: F)
        requires { F.IsAlwaysCallable keep }
        ensures kept { IsFiltered (CalledAt F.FnMut) keep self.old.records self.new.records }
        ensures rest { self.new ≡ record self.old { records = self.new.records } }
    {
        self.records.retain(keep);
    }

    /// Takes one resource out. The others keep their order.
    pub fn remove_resource(&mut self, place: usize) -> Option<Resource>
        ensures taken { result ≡ slice_get self.old.resources place }
        ensures rest { IsSome result →
            self.new ≡ record self.old { resources = remove self.old.resources place } }
        ensures none { IfNone result (self.new ≡ self.old) }
    {
        if place >= self.resources.len() {
            return None;
        }
        Some(self.resources.remove(place))
    }

    /// Replaces the bytes of one resource. All else stays.
    pub fn set_resource(&mut self, place: usize, bytes: Bytes)
        requires there { place < length self.old.resources }
        requires short { length bytes ≤ 65500 }
        ensures { self.new
            ≡ record self.old { resources = with_bytes_at self.old.resources place bytes } }
    {
        self.resources[place].bytes = bytes;
    }
}
