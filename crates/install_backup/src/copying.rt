// An open database of a handheld, read whole.
ghost use Rattle.std.specs.Prelude.{◌≡◌, ◌≤◌, ◌∷◌, ◌++◌, [], IfErr, IfOk, IfSome, None, OnOk, false, length, true};
ghost use Rattle.pdb_values.specs.Blocks.{block_of};
ghost use Rattle.pdb_values.specs.Heads.{holds_resources};
ghost use Rattle.dlp_replies.specs.ReplyReading.{reply_at};
ghost use Rattle.desktop_session.specs.declared.fault.SessionFault.TheVariants as session;
ghost use Rattle.desktop_session.specs.Lent.{lent_resource, lent_value};
ghost use Rattle.desktop_session.specs.Requests.{reading_at, reading_resource};
ghost use Rattle.desktop_session.specs.Stops.{AsksOne};
ghost use Rattle.mirrors.specs.Asks.{Asks};
ghost use Rattle.session_parts.specs.Causes.{IsLater};
ghost use Rattle.install_backup.specs.BackupActs.{each_read, entry_reads};
ghost use Rattle.install_backup.specs.Copies as copies;
ghost use Rattle.install_backup.specs.Copies.{copied, records_in, records_told, resources_in, resources_told};
ghost use Rattle.install_backup.specs.Backups.{copy_reads};

use desktop_session::{OpenDb, RecordLent, ResourceLent, SessionFault};
use dlp_commands::Link;
use pdb_values::{Bytes, Content, Database, DbHead, Kind, Record, Resource};
use std::alloc::{AllocError, Global};

// Whether a record of this kind was deleted.
fn is_gone(kind: Kind) -> bool
    ensures { result ≡ copies.is_gone kind }
{
    match kind {
        Kind::Live => false,
        Kind::Archived | Kind::Deleted => true,
    }
}

// A record that was lent, with its marks, and a copy of its bytes.
fn record_from(alloc: Global, lent: &RecordLent<'_>) -> Result<Record, AllocError>
    requires { length (lent_value lent.now).bytes ≤ 65500 }
    ensures { IfOk result (λ item. item ≡ copies.record_from (lent_value lent.now)) }
{
    let bytes = Vec::from_slice(alloc, lent.bytes())?;
    let Ok(content) = Content::new(lent.category(), lent.secret(), bytes) else {
        unreachable!();
    };
    Ok(Record {
        id: lent.id(),
        deleted: is_gone(lent.kind()),
        dirty: lent.dirty(),
        busy: false,
        content,
    })
}

// A resource that was lent, with a copy of its bytes.
fn resource_from(alloc: Global, lent: &ResourceLent<'_>) -> Result<Resource, AllocError>
    ensures { IfOk result (λ resource. resource ≡ copies.resource_from (lent_resource lent.now)) }
{
    Ok(Resource {
        kind: lent.kind(),
        id: lent.id(),
        bytes: Bytes::new(Vec::from_slice(alloc, lent.bytes())?),
    })
}

// Reads the record at an index.
fn read_record<L: Link>(
    alloc: Global,
    db: &mut OpenDb<'_, L>,
    index: u16,
) -> Result<Record, SessionFault>
    ensures same_reference { db.new.linked.ghost_name ≡ db.old.linked.ghost_name }
    ensures same_handle { db.new.handle ≡ db.old.handle }
    ensures asked { AsksOne L.talk L.since L.fault L.downs (reading_at db.old.handle index)
        db.old.linked.now db.new.linked.now }
    ensures none { OnOk result (L.fault db.new.linked.now.link ≡ None) }
    ensures told { IfOk result (λ item. records_in (reply_at 0x20 db.new.linked.now.reply)
        ≡ item ∷ []) }
    ensures cause { IfErr result (IsLater (L.talk db.new.linked.now.link)
        (L.fault db.new.linked.now.link)) }
{
    match db.at(index) {
        Ok(lent) => Ok(record_from(alloc, &lent)?),
        Err(fault) => Err(fault),
    }
}

// Reads the resource at an index.
fn read_resource<L: Link>(
    alloc: Global,
    db: &mut OpenDb<'_, L>,
    index: u16,
) -> Result<Resource, SessionFault>
    ensures same_reference { db.new.linked.ghost_name ≡ db.old.linked.ghost_name }
    ensures same_handle { db.new.handle ≡ db.old.handle }
    ensures asked { AsksOne L.talk L.since L.fault L.downs (reading_resource db.old.handle index)
        db.old.linked.now db.new.linked.now }
    ensures none { OnOk result (L.fault db.new.linked.now.link ≡ None) }
    ensures told { IfOk result (λ resource. resources_in (reply_at 0x23 db.new.linked.now.reply)
        ≡ resource ∷ []) }
    ensures cause { IfErr result (IsLater (L.talk db.new.linked.now.link)
        (L.fault db.new.linked.now.link)) }
{
    match db.resource_at(index) {
        Ok(lent) => Ok(resource_from(alloc, &lent)?),
        Err(fault) => Err(fault),
    }
}

// Puts a record behind the others. More than a database can have count as if there were no memory for them.
fn push_record(made: &mut Database, item: Record) -> Result<(), SessionFault>
    requires { holds_resources made.old.head.attributes ≡ false }
    ensures ok { OnOk result (made.new
        ≡ record made.old { records = made.old.records ++ item ∷ [] }) }
    ensures memory { IfErr result (λ fault. fault ≡ session.NoMemory) }
{
    match made.push_record(item) {
        Ok(()) => Ok(()),
        Err(_) => Err(SessionFault::NoMemory),
    }
}

// Puts a resource behind the others. More than a database can have count as if there were no memory for them.
fn push_resource(made: &mut Database, resource: Resource) -> Result<(), SessionFault>
    requires { holds_resources made.old.head.attributes ≡ true }
    ensures ok { OnOk result (made.new
        ≡ record made.old { resources = made.old.resources ++ resource ∷ [] }) }
    ensures memory { IfErr result (λ fault. fault ≡ session.NoMemory) }
{
    match made.push_resource(resource) {
        Ok(()) => Ok(()),
        Err(_) => Err(SessionFault::NoMemory),
    }
}

// Reads the records at so many indexes from 0 on into a database that has none.
fn read_records<L: Link>(
    alloc: Global,
    db: &mut OpenDb<'_, L>,
    count: u16,
    made: Database,
) -> Result<Database, SessionFault>
    requires holds { holds_resources made.head.attributes ≡ false }
    requires none { made.records ≡ [] }
    ensures same_reference { db.new.linked.ghost_name ≡ db.old.linked.ghost_name }
    ensures same_handle { db.new.handle ≡ db.old.handle }
    ensures asks { Asks L.talk L.since L.fault L.downs (each_read (reading_at db.old.handle) count)
        db.old.linked.now db.new.linked.now result }
    ensures told { IfOk result (λ whole. IfSome (L.talk db.old.linked.now.link) (λ talk.
        whole ≡ record made { records = records_told talk.device db.old.handle count })) }
    ensures cause { IfErr result (IsLater (L.talk db.new.linked.now.link)
        (L.fault db.new.linked.now.link)) }
{
    let mut made = made;
    for index in 0..count {
        let item = read_record(alloc, db, index)?;
        push_record(&mut made, item)?;
    }
    Ok(made)
}

// Reads the resources at so many indexes from 0 on into a database that has none.
fn read_resources<L: Link>(
    alloc: Global,
    db: &mut OpenDb<'_, L>,
    count: u16,
    made: Database,
) -> Result<Database, SessionFault>
    requires holds { holds_resources made.head.attributes ≡ true }
    requires none { made.resources ≡ [] }
    ensures same_reference { db.new.linked.ghost_name ≡ db.old.linked.ghost_name }
    ensures same_handle { db.new.handle ≡ db.old.handle }
    ensures asks { Asks L.talk L.since L.fault L.downs
        (each_read (reading_resource db.old.handle) count)
        db.old.linked.now db.new.linked.now result }
    ensures told { IfOk result (λ whole. IfSome (L.talk db.old.linked.now.link) (λ talk.
        whole ≡ record made { resources = resources_told talk.device db.old.handle count })) }
    ensures cause { IfErr result (IsLater (L.talk db.new.linked.now.link)
        (L.fault db.new.linked.now.link)) }
{
    let mut made = made;
    for index in 0..count {
        let resource = read_resource(alloc, db, index)?;
        push_resource(&mut made, resource)?;
    }
    Ok(made)
}

// A database of this head with both blocks and no entry. More than a database can have count as if there were no memory for them.
fn with_blocks(
    alloc: Global,
    head: &DbHead,
    app: Option<Vec<u8>>,
    sort: Option<Vec<u8>>,
) -> Result<Database, SessionFault>
    ensures made { IfOk result (λ made. made ≡ copies.blocked head.now (block_of app)
        (block_of sort)) }
    ensures memory { IfErr result (λ fault. fault ≡ session.NoMemory) }
{
    let mut made = Database::new(alloc, head.copy());
    let Ok(()) = made.set_app(app) else {
        return Err(SessionFault::NoMemory);
    };
    let Ok(()) = made.set_sort(sort) else {
        return Err(SessionFault::NoMemory);
    };
    Ok(made)
}

// Reads so many entries into a database that has none.
fn read_entries<L: Link>(
    alloc: Global,
    db: &mut OpenDb<'_, L>,
    count: u16,
    made: Database,
) -> Result<Database, SessionFault>
    requires records { made.records ≡ [] }
    requires resources { made.resources ≡ [] }
    ensures same_reference { db.new.linked.ghost_name ≡ db.old.linked.ghost_name }
    ensures same_handle { db.new.handle ≡ db.old.handle }
    ensures asks { Asks L.talk L.since L.fault L.downs
        (entry_reads (holds_resources made.head.attributes) db.old.handle count)
        db.old.linked.now db.new.linked.now result }
    ensures told { IfOk result (λ whole. IfSome (L.talk db.old.linked.now.link) (λ talk.
        whole ≡ copies.with_entries made talk.device db.old.handle count)) }
    ensures cause { IfErr result (IsLater (L.talk db.new.linked.now.link)
        (L.fault db.new.linked.now.link)) }
{
    if made.head().holds_resources() {
        read_resources(alloc, db, count, made)
    } else {
        read_records(alloc, db, count, made)
    }
}

// Reads an open database of this head whole: the number of its entries, both blocks, and the entries with their marks.
pub(crate) fn read_whole<L: Link>(
    alloc: Global,
    db: &mut OpenDb<'_, L>,
    head: &DbHead,
) -> Result<Database, SessionFault>
    ensures same_reference { db.new.linked.ghost_name ≡ db.old.linked.ghost_name }
    ensures same_handle { db.new.handle ≡ db.old.handle }
    ensures asks { Asks L.talk L.since L.fault L.downs
        (copy_reads head.now (L.talk db.old.linked.now.link) db.old.handle)
        db.old.linked.now db.new.linked.now result }
    ensures told { IfOk result (λ whole. IfSome (L.talk db.old.linked.now.link) (λ talk.
        whole ≡ copied head.now db.old.handle talk.device)) }
    ensures cause { IfErr result (IsLater (L.talk db.new.linked.now.link)
        (L.fault db.new.linked.now.link)) }
{
    let count = db.count()?;
    let app = db.read_app(alloc)?;
    let sort = db.read_sort(alloc)?;
    let made = with_blocks(alloc, head, app, sort)?;
    read_entries(alloc, db, count, made)
}
