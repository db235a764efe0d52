//! Whether there is a database of these parts.

ghost use Rattle.std.specs.Prelude.{◌≡◌, drop};
ghost use Rattle.std.specs.List.{list_all};
ghost use Rattle.pdb_values.specs.Heads.{holds_resources};
ghost use Rattle.hotsync_c.specs.Building.{are_parts, front_length, front_size, has_front, has_head, is_block, is_cut, is_entry, is_name, is_record_entry, is_resource_entry};

use crate::parts::{ABSENT, HsEntry, HsHead};
use pdb_values::{Content, Database, DbHead, DbName, RecordId};

// The greatest attributes of a record.
const ALL_BITS: u32 = 0xFF;

// The greatest number of two bytes.
const GREATEST: u32 = 0xFFFF;

/// Whether there is a database of these parts.
pub fn are_parts(head: &HsHead, entries: &[HsEntry], packed: &[u8]) -> bool
    ensures { result ≡ are_parts head.now entries.now packed.now }
{
    has_head(head)
        && has_front(head, packed)
        && entries.len() <= Database::GREATEST_COUNT
        && are_entries(holds_resources(head), entries)
        && is_cut(entries, behind_front(head, packed))
}

/// Whether the attributes say that the entries are resources.
pub fn holds_resources(head: &HsHead) -> bool
    ensures { result ≡ holds_resources head.now.attributes }
{
    head.attributes & u32::from(DbHead::RESOURCES) == u32::from(DbHead::RESOURCES)
}

/// How many of the packed bytes a block of this length has.
pub fn front_size(size: u32) -> usize
    ensures { result ≡ front_size size }
{
    if size == ABSENT { 0 } else { size as usize }
}

/// How many of the packed bytes the name and both blocks have.
pub fn front_length(head: &HsHead) -> usize
    ensures { result ≡ front_length head.now }
{
    head.name as usize + front_size(head.app) + front_size(head.sort)
}

// The packed bytes behind the name and the blocks, or none where there is less.
fn behind_front<'a>(head: &HsHead, packed: &'a [u8]) -> &'a [u8]
    ensures { result.now ≡ drop (front_length head.now) packed.now }
{
    packed.get(front_length(head)..).unwrap_or_default()
}

// Whether the numbers of a head have their places.
fn has_head(head: &HsHead) -> bool
    ensures { result ≡ has_head head.now }
{
    head.attributes <= GREATEST
        && head.version <= GREATEST
        && is_block(head.app)
        && is_block(head.sort)
}

// Whether the packed bytes begin with a name and both blocks.
fn has_front(head: &HsHead, packed: &[u8]) -> bool
    ensures { result ≡ has_front head.now packed.now }
{
    let length = head.name as usize;
    front_length(head) <= packed.len() && is_name(packed.split_at(length).0)
}

// Whether a database has this name.
fn is_name(bytes: &[u8]) -> bool
    ensures { result ≡ is_name bytes.now }
{
    match DbName::new(bytes) {
        Ok(_) => true,
        Err(_) => false,
    }
}

// Whether a block has this length.
fn is_block(size: u32) -> bool
    ensures { result ≡ is_block size }
{
    size == ABSENT || size as usize <= Content::LIMIT
}

// Whether each of the entries stands in front of a resource, or else of a record.
fn are_entries(of_resources: bool, entries: &[HsEntry]) -> bool
    ensures { result ≡ list_all (is_entry of_resources) entries.now }
{
    entries.iter().all(|entry| is_entry(of_resources, entry))
}

// Whether an entry stands in front of a resource, or else of a record.
fn is_entry(of_resources: bool, entry: &HsEntry) -> bool
    ensures { result ≡ is_entry of_resources entry.now }
{
    if of_resources {
        is_resource_entry(entry)
    } else {
        is_record_entry(entry)
    }
}

// Whether an entry stands in front of a resource.
fn is_resource_entry(entry: &HsEntry) -> bool
    ensures { result ≡ is_resource_entry entry.now }
{
    entry.id <= GREATEST && entry.attributes == 0 && entry.size as usize <= Database::LIMIT
}

// Whether an entry stands in front of a record.
fn is_record_entry(entry: &HsEntry) -> bool
    ensures { result ≡ is_record_entry entry.now }
{
    entry.kind == 0
        && entry.id <= RecordId::GREATEST
        && entry.attributes <= ALL_BITS
        && entry.size as usize <= Content::LIMIT
}

// Whether the packed bytes are exactly the bytes of the entries.
fn is_cut(entries: &[HsEntry], packed: &[u8]) -> bool
    ensures { result ≡ is_cut entries.now packed.now }
{
    let mut rest = packed;
    for entry in entries {
        let size = entry.size as usize;
        if size > rest.len() {
            return false;
        }
        rest = rest.split_at(size).1;
    }
    rest.is_empty()
}
