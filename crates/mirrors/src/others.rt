// The records of an open database that did not change.
ghost use Rattle.std.specs.Prelude.{◌≡◌, ◌<◌, ◌++◌, [], ℕ, IfErr, IfOk, IfSome, None, OnOk, map, option_to_list};
ghost use Rattle.std.specs.BTreeMap.{get};
ghost use Rattle.std.specs.List.{flat_map};
ghost use Rattle.std.specs.Ordering.{nat_cmp};
ghost use Rattle.dlp_replies.specs.ReplyReading.{reply_at};
ghost use Rattle.palm_device.specs.Records.{place_of_id};
ghost use Rattle.conduit_rules.specs.ById.{id_bound};
ghost use Rattle.conduit_rules.specs.declared.view.Seen.{Seen};
ghost use Rattle.desktop_session.specs.Answers.{mapped};
ghost use Rattle.desktop_session.specs.Following.{Follows};
ghost use Rattle.desktop_session.specs.Lasts.{IsByLastReply};
ghost use Rattle.desktop_session.specs.Lists.{HasCause};
ghost use Rattle.desktop_session.specs.Requests.{reading_of};
ghost use Rattle.desktop_session.specs.Stops.{AsksOne};
ghost use Rattle.mirrors.specs.Asks.{Asks};
ghost use Rattle.mirrors.specs.Entries.{AreBounded, seen_in};
ghost use Rattle.mirrors.specs.ReadInquiries.{fills, fills_next, fills_one, reads_of};
ghost use Rattle.mirrors.specs.Shells.{Adds, Fills, IsOf, filled_reads, filled_seen, shell};

use crate::entry::entry_of;
use crate::list::push;
use crate::rows::row_of;
use conduit_rules::{Seen, SeenState, View};
use desktop_session::{OpenDb, SessionFault};
use dlp_commands::Link;
use pdb_values::{Category, Content, Record, RecordId};
use std::alloc::{AllocError, Global};
use std::collections::BTreeMap;

// Appends an entry without a content for each id.
pub(crate) fn add_shells(
    alloc: Global,
    ids: &[RecordId],
    seen: &mut Vec<Seen>,
) -> Result<(), SessionFault>
    requires { AreBounded seen.old.items }
    ensures seen { OnOk result (seen.new.items ≡ seen.old.items ++ map shell ids.now) }
    ensures bounded { OnOk result (AreBounded seen.new.items) }
    ensures memory { IfErr result (λ fault. fault ≡ SessionFault.NoMemory) }
{
    for place in 0..ids.len() {
        push(seen, shell_of(alloc, ids[place]))?;
    }
    Ok(())
}

// An entry of this id without a content.
fn shell_of(alloc: Global, id: RecordId) -> Seen
    ensures shell { result ≡ shell id }
    ensures bounded { result.id < id_bound }
{
    prove!(id.number() <= RecordId::GREATEST);
    let Some(category) = Category::new(0) else {
        unreachable!();
    };
    let Ok(content) = Content::new(category, false, Vec::new(alloc)) else {
        unreachable!();
    };
    Seen {
        id,
        state: SeenState::Unread,
        content,
    }
}

// Reads the record of an id; none where there is none.
fn read_of<L: Link>(
    alloc: Global,
    db: &mut OpenDb<'_, L>,
    id: RecordId,
) -> Result<Option<Seen>, SessionFault>
    ensures same_reference { db.new.linked.ghost_name ≡ db.old.linked.ghost_name }
    ensures same_handle { db.new.handle ≡ db.old.handle }
    ensures follows { Follows L.Link (reads_of db.old.handle id) db.old.linked.now.link
        db.new.linked.now.link result }
    ensures asked { AsksOne L.talk L.since L.fault L.downs (reading_of db.old.handle id)
        db.old.linked.now db.new.linked.now }
    ensures none { OnOk result (L.fault db.new.linked.now.link ≡ None) }
    ensures seen { IfOk result (λ found. option_to_list found
        ≡ map (λ (entry : Seen). record entry { id = id })
        (seen_in (reply_at 0x20 db.new.linked.now.reply))) }
    ensures own { IfOk result (IsOf id) }
    ensures cause { IfErr result (HasCause (L.fault db.new.linked.now.link)
        (reply_at 0x20 db.new.linked.now.reply)) }
    ensures last { IfErr result (IsByLastReply (L.talk db.new.linked.now.link)) }
{
    match db.by_id(id) {
        Ok(Some(lent)) => {
            let Seen {
                id: _,
                state,
                content,
            } = entry_of(alloc, &lent)?;
            Ok(Some(Seen { id, state, content }))
        }
        Ok(None) => Ok(None),
        Err(fault) => Err(fault),
    }
}

// What is shown of an entry: itself where it was read, else what the base has under its id, else
// what is read by its id.
fn filled<L: Link>(
    alloc: Global,
    db: &mut OpenDb<'_, L>,
    base: &[Record],
    places: &BTreeMap<u32, usize, Global>,
    entry: Seen,
) -> Result<Option<Seen>, SessionFault>
    requires { (id : ℕ) → get nat_cmp places.now id ≡ place_of_id id base.now }
    ensures same_reference { db.new.linked.ghost_name ≡ db.old.linked.ghost_name }
    ensures same_handle { db.new.handle ≡ db.old.handle }
    ensures follows { Follows L.Link (fills_one base.now db.old.handle entry) db.old.linked.now.link
        db.new.linked.now.link result }
    ensures asks { Asks L.talk L.since L.fault L.downs
        (filled_reads base.now db.old.handle entry)
        db.old.linked.now db.new.linked.now result }
    ensures seen { IfOk result (λ found. IfSome (L.talk db.old.linked.now.link)
        (λ talk. option_to_list found ≡ filled_seen base.now db.old.handle talk.device entry)) }
    ensures own { IfOk result (IsOf entry.id) }
    ensures cause { IfErr result (HasCause (L.fault db.new.linked.now.link)
        (reply_at 0x20 db.new.linked.now.reply)) }
    ensures last { IfErr result (IsByLastReply (L.talk db.new.linked.now.link)) }
{
    if !matches!(&entry.state, SeenState::Unread) {
        return Ok(Some(entry));
    }
    match row_of(base, places, entry.id) {
        Some(content) => {
            let content = content.copy(alloc)?;
            Ok(Some(Seen {
                id: entry.id,
                state: SeenState::Unread,
                content,
            }))
        }
        None => read_of(alloc, db, entry.id),
    }
}

// Appends what is shown of an entry.
fn fill<L: Link>(
    alloc: Global,
    db: &mut OpenDb<'_, L>,
    base: &[Record],
    places: &BTreeMap<u32, usize, Global>,
    entry: Seen,
    seen: &mut Vec<Seen>,
) -> Result<(), SessionFault>
    requires { (id : ℕ) → get nat_cmp places.now id ≡ place_of_id id base.now }
    ensures same_reference { db.new.linked.ghost_name ≡ db.old.linked.ghost_name }
    ensures same_handle { db.new.handle ≡ db.old.handle }
    ensures follows { Follows L.Link (fills_next base.now db.old.handle seen.old.items entry)
        db.old.linked.now.link db.new.linked.now.link
        (mapped (λ done. seen.new.items) result) }
    ensures asks { Asks L.talk L.since L.fault L.downs
        (filled_reads base.now db.old.handle entry)
        db.old.linked.now db.new.linked.now result }
    ensures seen { OnOk result (IfSome (L.talk db.old.linked.now.link)
        (λ talk. seen.new.items ≡ seen.old.items
        ++ filled_seen base.now db.old.handle talk.device entry)) }
    ensures adds { OnOk result (Adds entry.id seen.old.items seen.new.items) }
    ensures cause { IfErr result (HasCause (L.fault db.new.linked.now.link)
        (reply_at 0x20 db.new.linked.now.reply)) }
    ensures last { IfErr result (IsByLastReply (L.talk db.new.linked.now.link)) }
{
    let found = filled(alloc, db, base, places, entry)?;
    if let Some(entry) = found {
        push(seen, entry)?;
    }
    Ok(())
}

// What is shown of all entries.
pub(crate) fn fill_all<L: Link>(
    alloc: Global,
    db: &mut OpenDb<'_, L>,
    base: &[Record],
    places: &BTreeMap<u32, usize, Global>,
    entries: Vec<Seen>,
) -> Result<View, SessionFault>
    requires { (id : ℕ) → get nat_cmp places.now id ≡ place_of_id id base.now }
    ensures same_reference { db.new.linked.ghost_name ≡ db.old.linked.ghost_name }
    ensures same_handle { db.new.handle ≡ db.old.handle }
    ensures follows { Follows L.Link (fills base.now db.old.handle entries.items [])
        db.old.linked.now.link db.new.linked.now.link
        (mapped (λ view. view.seen.items) result) }
    ensures asks { Asks L.talk L.since L.fault L.downs
        (flat_map (filled_reads base.now db.old.handle) entries.items)
        db.old.linked.now db.new.linked.now result }
    ensures seen { IfOk result (λ view. IfSome (L.talk db.old.linked.now.link)
        (λ talk. view.seen.items
        ≡ flat_map (filled_seen base.now db.old.handle talk.device) entries.items)) }
    ensures fills { IfOk result (λ view. Fills entries.items view.seen.items) }
    ensures cause { IfErr result (HasCause (L.fault db.new.linked.now.link)
        (reply_at 0x20 db.new.linked.now.reply)) }
    ensures last { IfErr result (IsByLastReply (L.talk db.new.linked.now.link)) }
{
    let mut seen = Vec::new(alloc);
    for entry in entries {
        fill(alloc, db, base, places, entry, &mut seen)?;
    }
    Ok(View { seen })
}
