// One database of a file, installed on a handheld.
ghost use Rattle.std.specs.Prelude.{◌≡◌, ◌≤◌, ◌∷◌, [], IfErr, OnErr, OnOk, false, length, true};
ghost use Rattle.pdb_values.specs.Heads.{is_read_only};
ghost use Rattle.desktop_session.specs.Requests.{making};
ghost use Rattle.mirrors.specs.Asks.{Asks};
ghost use Rattle.session_parts.specs.Causes.{IsLater};
ghost use Rattle.session_parts.specs.Spans.{Spans, within};
ghost use Rattle.install_backup.specs.Installed.{installed_head, installed_records};
ghost use Rattle.install_backup.specs.InstallActs as acts;
ghost use Rattle.install_backup.specs.InstallActs.{entry_acts, fill_acts, written_count};
ghost use Rattle.install_backup.specs.Installs.{making_acts};
ghost use Rattle.install_backup.specs.Rooms as rooms;
ghost use Rattle.install_backup.specs.Rooms.{HasNoneOpen, IsNoLimit, IsUnmade, IsWithin, Judges, RestsFor, fault_in, stop_at};

use crate::entries::{write_app, write_records, write_resources, write_sort};
use crate::live::to_install;
use desktop_session::{Linked, OpenDb, SessionFault};
use dlp_commands::{ErrorCode, Link};
use pdb_values::{Database, DbHead, DbName, FourCc, PalmDate, Record};
use session_parts::Stop;
use std::alloc::Global;

// Writes the entries of a file: its resources, or these records of it.
fn write_entries<L: Link>(
    db: &mut OpenDb<'_, L>,
    database: &Database,
    records: &[Record],
) -> Result<(), SessionFault>
    requires { records.now ≡ installed_records database.now.records }
    ensures same_reference { db.new.linked.ghost_name ≡ db.old.linked.ghost_name }
    ensures same_handle { db.new.handle ≡ db.old.handle }
    ensures asks { Asks L.talk L.since L.fault L.downs (entry_acts db.old.handle database.now)
        db.old.linked.now db.new.linked.now result }
    ensures cause { IfErr result (IsLater (L.talk db.new.linked.now.link)
        (L.fault db.new.linked.now.link)) }
    ensures others { IfErr result IsNoLimit }
{
    if database.head().holds_resources() {
        write_resources(db, database.resources())
    } else {
        write_records(db, records)
    }
}

// Writes each block that has bytes, and the entries.
fn fill<L: Link>(
    db: &mut OpenDb<'_, L>,
    database: &Database,
    records: &[Record],
) -> Result<(), SessionFault>
    requires { records.now ≡ installed_records database.now.records }
    ensures same_reference { db.new.linked.ghost_name ≡ db.old.linked.ghost_name }
    ensures same_handle { db.new.handle ≡ db.old.handle }
    ensures asks { Asks L.talk L.since L.fault L.downs (fill_acts database.now db.old.handle [])
        db.old.linked.now db.new.linked.now result }
    ensures cause { IfErr result (IsLater (L.talk db.new.linked.now.link)
        (L.fault db.new.linked.now.link)) }
    ensures others { IfErr result IsNoLimit }
{
    write_app(db, database.app())?;
    write_sort(db, database.sort())?;
    write_entries(db, database, records)
}

// The head that the handheld's database gets: no dates, no changes, no seed, and not that it is open.
fn made_head(head: &DbHead) -> DbHead
    ensures { result ≡ installed_head head.now }
{
    let never = PalmDate::of_seconds(0);
    DbHead {
        name: head.name.copy(),
        attributes: head.attributes & 0x7FFF,
        version: head.version,
        created: never,
        modified: never,
        backup: never,
        modnum: 0,
        seed: 0,
        kind: head.kind,
        creator: head.creator,
    }
}

// Why an install stops where its database was not made: for want of room, or for the cause itself.
fn not_made(cause: SessionFault, name: &DbName) -> Stop
    ensures { result ≡ stop_at name.now cause }
{
    match cause {
        SessionFault::Refused {
            function: 0x18,
            code: ErrorCode(17),
        } => Stop::Limit(name.copy()),
        cause => Stop::Session(cause),
    }
}

// Makes the handheld's database and fills it.
fn make<L: Link>(
    linked: &mut Linked<L>,
    database: &Database,
    records: &[Record],
) -> Result<(), Stop>
    requires open { linked.old.abandoned ≡ false }
    requires records { records.now ≡ installed_records database.now.records }
    ensures spans { Spans L.talk L.since L.fault L.downs
        (within (making (installed_head database.now.head)) (fill_acts database.now))
        (λ handle given done. Unit {0}) linked.old linked.new (fault_in result) }
    ensures room { OnOk result (Judges HasNoneOpen true
        database.now.head.name (L.talk linked.old.link)) }
    ensures full { IfErr result (IsUnmade L.talk HasNoneOpen
        (making (installed_head database.now.head) ∷ []) database.now.head.name
        linked.old.link linked.new.link) }
    ensures within { OnErr result (IsWithin L.talk L.since L.fault L.downs
        HasNoneOpen
        (making (installed_head database.now.head) ∷ []) database.now.head.name
        linked.old.link linked.new.link) }
{
    let mut opened = match linked.create(&made_head(database.head())) {
        Ok(opened) => opened,
        Err(cause) => return Err(not_made(cause, &database.head().name)),
    };
    match fill(&mut opened, database, records) {
        Ok(()) => {}
        Err(cause) => {
            opened.abandon();
            return Err(Stop::Session(cause));
        }
    }
    opened.close()?;
    Ok(())
}

// How many entries are written: the resources of a file, or these records of it.
fn count_of(database: &Database, records: &[Record]) -> u32
    requires records { records.now ≡ installed_records database.now.records }
    requires few { length records.now ≤ 65535 }
    ensures { result ≡ written_count database.now }
{
    if database.head().holds_resources() {
        database.resources().len() as u32
    } else {
        records.len() as u32
    }
}

// Takes the handheld's database of this name away, makes it anew and fills it. Answers how many entries were written.
pub(crate) fn install_one<L: Link>(
    alloc: Global,
    linked: &mut Linked<L>,
    database: &Database,
) -> Result<u32, Stop>
    requires { linked.old.abandoned ≡ false }
    ensures spans { Spans L.talk L.since L.fault L.downs (acts.install_one database.now)
        (λ handle given count. count ≡ written_count database.now)
        linked.old linked.new (fault_in result) }
    ensures room { OnOk result (Judges (RestsFor database.now) true database.now.head.name
        (L.talk linked.old.link)) }
    ensures full { IfErr result (IsUnmade L.talk (RestsFor database.now)
        (making_acts database.now) database.now.head.name linked.old.link linked.new.link) }
    ensures within { OnErr result (IsWithin L.talk L.since L.fault L.downs
        (RestsFor database.now) (making_acts database.now)
        database.now.head.name linked.old.link linked.new.link) }
{
    let live = to_install(alloc, database)?;
    linked.delete(&database.head().name)?;
    make(linked, database, live.records())?;
    Ok(count_of(database, live.records()))
}

// Why a session stops that stopped an install.
fn fault_of(stop: Stop) -> SessionFault
    ensures { result ≡ rooms.fault_of stop }
{
    match stop {
        Stop::Session(cause) => cause,
        Stop::Limit(_) => SessionFault::Refused {
            function: 0x18,
            code: ErrorCode(17),
        },
        Stop::NewHandheld(_) | Stop::DeskFault => SessionFault::NoMemory,
    }
}

/// Takes the handheld's database of this name away, makes it anew, and writes each block that has bytes and each entry of the file that
/// is to be installed; the records count as unchanged then. After a refusal it may be left open, and only `halt` may follow.
///
/// Answers how many entries were written. Error 17 is the refusal of a handheld that has no room for a further database.
pub fn install<L: Link>(
    alloc: Global,
    linked: &mut Linked<L>,
    database: &Database,
) -> Result<u32, SessionFault>
    requires open { linked.old.abandoned ≡ false }
    requires writable { is_read_only database.now.head.attributes ≡ false }
    ensures spans { Spans L.talk L.since L.fault L.downs (acts.install_one database.now)
        (λ handle given count. count ≡ written_count database.now)
        linked.old linked.new result }
    ensures room { OnOk result (Judges (RestsFor database.now) true database.now.head.name
        (L.talk linked.old.link)) }
{
    match install_one(alloc, linked, database) {
        Ok(count) => Ok(count),
        Err(stop) => Err(fault_of(stop)),
    }
}
