// A plan, carried out on an open database.
ghost use Rattle.std.specs.Prelude.{◌≡◌, ◌∷◌, [], IfErr, drop, length, map};
ghost use Rattle.dlp_replies.specs.ReplyReading.{reply_at};
ghost use Rattle.desktop_session.specs.Answers.{mapped};
ghost use Rattle.desktop_session.specs.Following.{Follows};
ghost use Rattle.desktop_session.specs.Lasts.{IsByLastReply};
ghost use Rattle.desktop_session.specs.Lists.{HasCause, HasCauseIn};
ghost use Rattle.desktop_session.specs.Requests.{removing};
ghost use Rattle.mirrors.specs.Asks.{Asks};
ghost use Rattle.mirrors.specs.News.{PutsAll, as_new, news_of, purge_writes};
ghost use Rattle.mirrors.specs.WriteInquiries.{adds_each, purges, removes_each, replaces_each, sends_news};

use crate::slow_list::push;
use conduit_rules::Plan;
use desktop_session::{OpenDb, SessionFault};
use dlp_commands::Link;
use pdb_values::{Content, RecordId};
use std::alloc::Global;

// Puts contents under their ids.
fn replace_all<L: Link>(
    db: &mut OpenDb<'_, L>,
    entries: &[(RecordId, Content)],
) -> Result<(), SessionFault>
    ensures same_reference { db.new.linked.ghost_name ≡ db.old.linked.ghost_name }
    ensures same_handle { db.new.handle ≡ db.old.handle }
    ensures follows { Follows L.Link (replaces_each db.old.handle entries.now) db.old.linked.now.link
        db.new.linked.now.link result }
    ensures puts { PutsAll L.talk L.since L.fault L.downs db.old.handle entries.now
        (λ given done. Unit {0}) db.old.linked.now db.new.linked.now result }
    ensures last { IfErr result (IsByLastReply (L.talk db.new.linked.now.link)) }
{
    for entry in entries {
        db.put(entry.0, &entry.1)?;
    }
    Ok(())
}

// Puts contents as new records, and answers the ids that they got.
fn add_all<L: Link>(
    alloc: Global,
    db: &mut OpenDb<'_, L>,
    contents: &[Content],
) -> Result<Vec<RecordId>, SessionFault>
    ensures same_reference { db.new.linked.ghost_name ≡ db.old.linked.ghost_name }
    ensures same_handle { db.new.handle ≡ db.old.handle }
    ensures follows { Follows L.Link (adds_each db.old.handle contents.now [])
        db.old.linked.now.link db.new.linked.now.link
        (mapped (λ ids. ids.items) result) }
    ensures puts { PutsAll L.talk L.since L.fault L.downs db.old.handle (as_new contents.now)
        (λ given ids. ids.items ≡ given) db.old.linked.now db.new.linked.now result }
    ensures last { IfErr result (IsByLastReply (L.talk db.new.linked.now.link)) }
{
    let mut ids = Vec::new(alloc);
    for content in contents {
        let id = db.put(new_id(), content)?;
        push(&mut ids, id)?;
    }
    Ok(ids)
}

// The id of a record that has none yet.
fn new_id() -> RecordId
    ensures { result ≡ 0 }
{
    match RecordId::new(0) {
        Some(id) => id,
        None => unreachable!(),
    }
}

/// Sends a plan's news to an open database: the replacements under their ids, then the adds as new
/// records. Answers the ids that the handheld gave to the adds, in order.
pub fn send_news<L: Link>(
    alloc: Global,
    db: &mut OpenDb<'_, L>,
    plan: &Plan,
) -> Result<Vec<RecordId>, SessionFault>
    ensures same_reference { db.new.linked.ghost_name ≡ db.old.linked.ghost_name }
    ensures same_handle { db.new.handle ≡ db.old.handle }
    ensures follows { Follows L.Link (sends_news db.old.handle plan.now)
        db.old.linked.now.link db.new.linked.now.link
        (mapped (λ ids. ids.items) result) }
    ensures puts { PutsAll L.talk L.since L.fault L.downs db.old.handle (news_of plan.now)
        (λ given ids. ids.items ≡ drop (length plan.now.replace.items) given)
        db.old.linked.now db.new.linked.now result }
    ensures last { IfErr result (IsByLastReply (L.talk db.new.linked.now.link)) }
{
    replace_all(db, &plan.replace)?;
    add_all(alloc, db, &plan.adds)
}

// Takes the records of these ids away; an id that no record has is passed.
fn remove_all<L: Link>(db: &mut OpenDb<'_, L>, ids: &[RecordId]) -> Result<(), SessionFault>
    ensures same_reference { db.new.linked.ghost_name ≡ db.old.linked.ghost_name }
    ensures same_handle { db.new.handle ≡ db.old.handle }
    ensures follows { Follows L.Link (removes_each db.old.handle ids.now) db.old.linked.now.link
        db.new.linked.now.link result }
    ensures asks { Asks L.talk L.since L.fault L.downs (map (removing db.old.handle) ids.now)
        db.old.linked.now db.new.linked.now result }
    ensures cause { IfErr result (HasCause (L.fault db.new.linked.now.link)
        (reply_at 0x22 db.new.linked.now.reply)) }
    ensures last { IfErr result (IsByLastReply (L.talk db.new.linked.now.link)) }
{
    for id in ids {
        db.remove(*id)?;
    }
    Ok(())
}

/// Takes what a plan does not keep away from an open database: the purges one by one, then all
/// records with the delete bit; then all records become clean.
pub fn purge_side<L: Link>(db: &mut OpenDb<'_, L>, plan: &Plan) -> Result<(), SessionFault>
    ensures same_reference { db.new.linked.ghost_name ≡ db.old.linked.ghost_name }
    ensures same_handle { db.new.handle ≡ db.old.handle }
    ensures follows { Follows L.Link (purges db.old.handle plan.now.purge.items) db.old.linked.now.link
        db.new.linked.now.link result }
    ensures asks { Asks L.talk L.since L.fault L.downs
        (purge_writes db.old.handle plan.now.purge.items)
        db.old.linked.now db.new.linked.now result }
    ensures cause { IfErr result (HasCauseIn (0x22 ∷ 0x26 ∷ 0x27 ∷ [])
        (L.fault db.new.linked.now.link) db.new.linked.now.reply) }
    ensures last { IfErr result (IsByLastReply (L.talk db.new.linked.now.link)) }
{
    remove_all(db, &plan.purge)?;
    db.clean_up()?;
    db.reset_flags()
}
