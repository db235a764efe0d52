//! The entries behind the header: eight bytes for a record, ten for a resource.

ghost use Rattle.std.specs.Prelude.{◌≡◌, ◌++◌, ◌≤◌, ◌<◌, ◌==◌, ◌^◌, IfOk, IsOkUnless, OnOk, bit_and, length, not};
ghost use Rattle.pdb_files.specs.Entries.{attributes_of, begin_place, bit_where, entry_length, record_entry, resource_entry};
ghost use Rattle.pdb_files.specs.Files.{FitsRecord, FitsResource};
ghost use Rattle.pdb_files.specs.Reading.{entry_in, record_of, resource_of};

use crate::fault::FileFault;
use crate::field::{code_at, push_u16, push_u32, u16_at, u24_at};
use pdb_values::{Bytes, Category, Content, Record, RecordId, Resource};
use std::alloc::{AllocError, Global};

// Where the fields of a record's entry stand.
const ATTRIBUTES: usize = 4;

const ID: usize = 5;

// Where the fields of a resource's entry stand.
const KIND: usize = 0;

const NUMBER: usize = 4;

// The bits of the attributes. The low four are the category.
const DELETED: u8 = 0x80;

const DIRTY: u8 = 0x40;

const BUSY: u8 = 0x20;

const SECRET: u8 = 0x10;

const CATEGORY: u8 = 0x0F;

/// The length of an entry of a resource, or else of a record.
pub fn entry_length(of_resource: bool) -> usize
    ensures { result ≡ entry_length of_resource }
{
    if of_resource { 10 } else { 8 }
}

/// The place of an entry that says where its data begins.
pub fn begin_place(of_resource: bool) -> usize
    ensures { result ≡ begin_place of_resource }
{
    if of_resource { 6 } else { 0 }
}

/// What an entry says of its record.
#[derive(Drop)]
pub struct Entry {
    /// The bits of its attributes.
    pub attributes: u8,
    /// Its id.
    pub id: RecordId,
}

impl Entry {
    /// The entry at the front of the bytes.
    #[tactic(auto, unfolding(crate::specs::Reading::entry_in))]
    pub fn read(bytes: &[u8]) -> Entry
        requires { 8 ≤ length bytes.now }
        ensures { result ≡ entry_in bytes.now }
    {
        Entry {
            attributes: bytes[ATTRIBUTES],
            id: RecordId::new(u24_at(bytes, ID)).unwrap(),
        }
    }

    /// The record of these bytes.
    #[tactic(auto, unfolding(crate::specs::Reading::record_of))]
    pub fn record(&self, alloc: Global, bytes: &[u8]) -> Result<Record, FileFault>
        requires { length bytes.now ≤ 65500 }
        ensures item { IfOk result (λ item. item ≡ record_of self.now bytes.now) }
        ensures memory { IsOkUnless result FileFault.NoMemory }
    {
        let category = Category::new(self.attributes & CATEGORY).unwrap();
        let bytes = Vec::from_slice(alloc, bytes)?;
        let content = Content::new(category, self.has(SECRET), bytes).unwrap();
        Ok(Record {
            id: self.id,
            deleted: self.has(DELETED),
            dirty: self.has(DIRTY),
            busy: self.has(BUSY),
            content,
        })
    }

    // Whether a bit of the attributes is set.
    fn has(&self, bit: u8) -> bool
        ensures { result ≡ not (bit_and self.now.attributes bit == 0) }
    {
        self.attributes & bit != 0
    }
}

/// The resource of the entry at the front and its data.
#[tactic(auto, unfolding(crate::specs::Reading::resource_of))]
pub fn read_resource(alloc: Global, entry: &[u8], bytes: &[u8]) -> Result<Resource, FileFault>
    requires { 10 ≤ length entry.now }
    ensures resource { IfOk result (λ resource. resource ≡ resource_of entry.now bytes.now) }
    ensures memory { IsOkUnless result FileFault.NoMemory }
{
    let kind = code_at(entry, KIND);
    let id = u16_at(entry, NUMBER);
    let bytes = Bytes::new(Vec::from_slice(alloc, bytes)?);
    Ok(Resource { kind, id, bytes })
}

/// Writes the entry of a resource whose data begins at this place of the file.
#[tactic(auto, unfolding(crate::specs::Entries::resource_entry))]
pub fn push_resource_entry(
    out: &mut Vec<u8>,
    begin: u32,
    resource: &Resource,
) -> Result<(), AllocError>
    ensures text { OnOk result (
        out.new.items ≡ out.old.items ++ resource_entry begin resource.now) }
    ensures fits { OnOk result (FitsResource resource.now) }
{
    out.extend_from_slice(&resource.kind.0)?;
    push_u16(out, resource.id)?;
    push_u32(out, begin)?;
    Ok(())
}

/// Writes the entry of a record whose data begins at this place of the file.
#[tactic(auto, unfolding(crate::specs::Entries::record_entry))]
pub fn push_record_entry(out: &mut Vec<u8>, begin: u32, item: &Record) -> Result<(), AllocError>
    ensures text { OnOk result (out.new.items ≡ out.old.items ++ record_entry begin item.now) }
    ensures fits { FitsRecord item.now }
{
    let attributes = attributes_of(item);
    let [a, b, c, d] = begin.to_be_bytes();
    let [_, e, f, g] = item.id.number().to_be_bytes();
    out.extend_from_slice(&[a, b, c, d, attributes, e, f, g])
}

/// The attributes of a record's entry: 0x80 deleted, 0x40 dirty, 0x20 busy, 0x10 secret, and the category in the low
/// four bits.
pub fn attributes_of(item: &Record) -> u8
    ensures bits { result ≡ attributes_of item.now }
    ensures category { item.now.content.category < 16 }
{
    item.content.category().number()
        | bit_where(item.content.secret(), SECRET)
        | bit_where(item.busy, BUSY)
        | bit_where(item.dirty, DIRTY)
        | bit_where(item.deleted, DELETED)
}

// A bit where a flag is set.
fn bit_where(flag: bool, bit: u8) -> u8
    ensures { result ≡ bit_where flag bit }
{
    if flag { bit } else { 0 }
}
