// A whole reading of an open database.
ghost use Rattle.std.specs.Prelude.{◌≡◌, ◌<◌, ◌∷◌, [], IfErr, IfOk, IfSome, None, OnOk};
ghost use Rattle.dlp_replies.specs.ReplyReading.{reply_at};
ghost use Rattle.conduit_rules.specs.ById.{id_bound};
ghost use Rattle.desktop_session.specs.Answers.{mapped};
ghost use Rattle.desktop_session.specs.Following.{Follows};
ghost use Rattle.desktop_session.specs.Lasts.{IsByLastReply};
ghost use Rattle.desktop_session.specs.Lists.{HasCause, HasCauseIn};
ghost use Rattle.desktop_session.specs.Requests.{reading_at};
ghost use Rattle.desktop_session.specs.Stops.{AsksOne};
ghost use Rattle.mirrors.specs.Asks.{Asks};
ghost use Rattle.mirrors.specs.Entries.{AreBounded, ordered, seen_in};
ghost use Rattle.mirrors.specs.ReadInquiries.{reads_from, reads_one, reads_slowly};
ghost use Rattle.mirrors.specs.Reads.{entries_of, reads, seen_below, slow_reads, slow_shown};

use crate::entry::entry_of;
use crate::order::in_order;
use crate::slow_list::push;
use conduit_rules::{Seen, View};
use desktop_session::{OpenDb, SessionFault};
use dlp_commands::Link;
use std::alloc::Global;

// Reads the record at an index.
fn read_at<L: Link>(alloc: Global, db: &mut OpenDb<'_, L>, index: u16) -> Result<Seen, SessionFault>
    ensures same_reference { db.new.linked.ghost_name ≡ db.old.linked.ghost_name }
    ensures same_handle { db.new.handle ≡ db.old.handle }
    ensures follows { Follows L.Link (reads_one db.old.handle index) db.old.linked.now.link
        db.new.linked.now.link result }
    ensures asked { AsksOne L.talk L.since L.fault L.downs (reading_at db.old.handle index)
        db.old.linked.now db.new.linked.now }
    ensures none { OnOk result (L.fault db.new.linked.now.link ≡ None) }
    ensures seen { IfOk result (λ seen. seen_in (reply_at 0x20 db.new.linked.now.reply)
        ≡ seen ∷ []) }
    ensures bounded { IfOk result (λ seen. seen.id < id_bound) }
    ensures cause { IfErr result (HasCause (L.fault db.new.linked.now.link)
        (reply_at 0x20 db.new.linked.now.reply)) }
    ensures last { IfErr result (IsByLastReply (L.talk db.new.linked.now.link)) }
{
    match db.at(index) {
        Ok(lent) => Ok(entry_of(alloc, &lent)?),
        Err(fault) => Err(fault),
    }
}

// Reads the records at so many indexes from 0 on.
fn read_all<L: Link>(
    alloc: Global,
    db: &mut OpenDb<'_, L>,
    count: u16,
) -> Result<Vec<Seen>, SessionFault>
    ensures same_reference { db.new.linked.ghost_name ≡ db.old.linked.ghost_name }
    ensures same_handle { db.new.handle ≡ db.old.handle }
    ensures follows { Follows L.Link (reads_from db.old.handle 0 count [])
        db.old.linked.now.link db.new.linked.now.link
        (mapped (λ seen. seen.items) result) }
    ensures asks { Asks L.talk L.since L.fault L.downs (reads db.old.handle count)
        db.old.linked.now db.new.linked.now result }
    ensures seen { IfOk result (λ seen. IfSome (L.talk db.old.linked.now.link)
        (λ talk. seen.items ≡ seen_below talk.device db.old.handle count)) }
    ensures bounded { IfOk result (λ seen. AreBounded seen.items) }
    ensures cause { IfErr result (HasCause (L.fault db.new.linked.now.link)
        (reply_at 0x20 db.new.linked.now.reply)) }
    ensures last { IfErr result (IsByLastReply (L.talk db.new.linked.now.link)) }
{
    let mut seen = Vec::new(alloc);
    for index in 0..count {
        let entry = read_at(alloc, db, index)?;
        push(&mut seen, entry)?;
    }
    Ok(seen)
}

/// Reads every record of an open database by its index, from 0 on to the number of entries that the
/// handheld tells.
///
/// The view has the records in rising ids; where the handheld lends one id twice, the first counts.
pub fn read_slowly<L: Link>(alloc: Global, db: &mut OpenDb<'_, L>) -> Result<View, SessionFault>
    ensures same_reference { db.new.linked.ghost_name ≡ db.old.linked.ghost_name }
    ensures same_handle { db.new.handle ≡ db.old.handle }
    ensures follows { Follows L.Link (reads_slowly db.old.handle)
        db.old.linked.now.link db.new.linked.now.link
        (mapped (λ view. view.seen.items) result) }
    ensures asks { Asks L.talk L.since L.fault L.downs
        (slow_reads db.old.handle (entries_of (L.talk db.old.linked.now.link) db.old.handle))
        db.old.linked.now db.new.linked.now result }
    ensures view { IfOk result (λ view. IfSome (L.talk db.old.linked.now.link)
        (λ talk. view.seen.items ≡ slow_shown talk.device db.old.handle)) }
    ensures rising { IfOk result (λ view. ordered view.seen.items ≡ view.seen.items) }
    ensures none { OnOk result (L.fault db.new.linked.now.link ≡ None) }
    ensures cause { IfErr result (HasCauseIn (0x2B ∷ 0x20 ∷ [])
        (L.fault db.new.linked.now.link) db.new.linked.now.reply) }
    ensures last { IfErr result (IsByLastReply (L.talk db.new.linked.now.link)) }
{
    let count = db.count()?;
    let seen = read_all(alloc, db, count)?;
    Ok(in_order(seen)?)
}
