// Edits of a database.
ghost use Rattle.std.specs.Prelude.{◌≡◌, ◌≤◌, IfOk, OnErr, OnOk, length};
ghost use Rattle.palm_device.specs.Edits.{IsFor, Tells, edited};

use crate::block::{put_app, put_sort};
use crate::kept::Kept;
use crate::record::{
    clear_records, given_id, keep_records, move_category, purge_record, put_record, reset_flags,
};
use crate::resource::{clear_resources, purge_resource, put_resource};
use pdb_values::{Bytes, Category, Content, Database, FourCc, RecordId};
use std::alloc::{AllocError, Global};

/// An edit of a database, which nothing but want of memory can refuse.
#[derive(Clone, Copy)]
pub enum Edit<'a> {
    /// No bytes take the block away.
    AppBlock {
        bytes: &'a [u8],
    },
    /// No bytes take the block away.
    SortBlock {
        bytes: &'a [u8],
    },
    /// The record of this id, or a new one, gets this content; id 0 asks for a free id.
    Record {
        id: RecordId,
        category: Category,
        secret: bool,
        bytes: &'a [u8],
    },
    NoRecords,
    /// All other records go.
    Keep {
        kept: Kept,
    },
    WithoutRecord {
        id: u32,
    },
    ResetFlags,
    MoveCategory {
        from: Category,
        to: Category,
    },
    Resource {
        kind: FourCc,
        id: u16,
        bytes: &'a [u8],
    },
    NoResources,
    WithoutResource {
        kind: FourCc,
        id: u16,
    },
}

// A content of these bytes.
fn content_of(
    alloc: Global,
    category: Category,
    secret: bool,
    bytes: &[u8],
) -> Result<Content, AllocError>
    requires { length bytes.now ≤ 65500 }
    ensures { IfOk result (λ content. content
        ≡ record { category = category; secret = secret; bytes = bytes.now }) }
{
    match Content::new(category, secret, Vec::from_slice(alloc, bytes)?) {
        Ok(content) => Ok(content),
        Err(_) => Err(AllocError),
    }
}

/// Does an edit. A new record of id 0 gets the free id. Answers whether that makes another database.
pub fn apply(
    alloc: Global,
    database: &mut Database,
    free: RecordId,
    edit: &Edit<'_>,
) -> Result<bool, AllocError>
    requires { IsFor database.old edit.now }
    ensures edited { OnOk result (database.new ≡ edited free edit.now database.old) }
    ensures differs { IfOk result (Tells database.old (edited free edit.now database.old)) }
    ensures stays { OnErr result (database.new ≡ database.old) }
{
    match *edit {
        Edit::AppBlock { bytes } => put_app(alloc, database, bytes),
        Edit::SortBlock { bytes } => put_sort(alloc, database, bytes),
        Edit::Record {
            id,
            category,
            secret,
            bytes,
        } => {
            let content = content_of(alloc, category, secret, bytes)?;
            put_record(database, given_id(free, id), content)
        }
        Edit::NoRecords => Ok(clear_records(database)),
        Edit::Keep { kept } => Ok(keep_records(database, &kept)),
        Edit::WithoutRecord { id } => Ok(purge_record(database, id)),
        Edit::ResetFlags => Ok(reset_flags(database)),
        Edit::MoveCategory { from, to } => Ok(move_category(database, from, to)),
        Edit::Resource { kind, id, bytes } => {
            let bytes = Bytes::new(Vec::from_slice(alloc, bytes)?);
            put_resource(database, kind, id, bytes)
        }
        Edit::NoResources => Ok(clear_resources(database)),
        Edit::WithoutResource { kind, id } => Ok(purge_resource(database, kind, id)),
    }
}
