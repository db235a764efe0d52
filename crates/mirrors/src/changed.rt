// The changed records of an open database.
ghost use Rattle.std.specs.Prelude.{◌≡◌, ◌<◌, [], IfErr, IfOk, IfSome, None, OnOk, option_to_list};
ghost use Rattle.dlp_replies.specs.ReplyReading.{reply_at};
ghost use Rattle.conduit_rules.specs.ById.{id_bound};
ghost use Rattle.desktop_session.specs.Answers.{mapped};
ghost use Rattle.desktop_session.specs.Following.{Follows};
ghost use Rattle.desktop_session.specs.Lasts.{IsByLastReply};
ghost use Rattle.desktop_session.specs.Lists.{HasCause};
ghost use Rattle.desktop_session.specs.Requests.{reading_next};
ghost use Rattle.desktop_session.specs.Stops.{AsksOne};
ghost use Rattle.mirrors.specs.Asks.{Asks};
ghost use Rattle.mirrors.specs.Entries.{AreBounded, seen_in};
ghost use Rattle.mirrors.specs.FastReads.{changed_reads_of, changed_seen};
ghost use Rattle.mirrors.specs.ReadInquiries.{reads_changed, reads_next};
ghost use Rattle.mirrors.specs.Shells.{AreRead, IsRead};

use crate::entry::entry_of;
use crate::list::push;
use conduit_rules::Seen;
use desktop_session::{OpenDb, SessionFault};
use dlp_commands::Link;
use std::alloc::Global;

// Reads the next changed record; none where none is left.
fn read_next<L: Link>(alloc: Global, db: &mut OpenDb<'_, L>) -> Result<Option<Seen>, SessionFault>
    ensures same_reference { db.new.linked.ghost_name ≡ db.old.linked.ghost_name }
    ensures same_handle { db.new.handle ≡ db.old.handle }
    ensures follows { Follows L.Link (reads_next db.old.handle) db.old.linked.now.link
        db.new.linked.now.link result }
    ensures asked { AsksOne L.talk L.since L.fault L.downs (reading_next db.old.handle)
        db.old.linked.now db.new.linked.now }
    ensures none { OnOk result (L.fault db.new.linked.now.link ≡ None) }
    ensures seen { IfOk result (λ found. seen_in (reply_at 0x1F db.new.linked.now.reply)
        ≡ option_to_list found) }
    ensures bounded { IfOk result (λ found. IfSome found (λ seen. seen.id < id_bound)) }
    ensures read { IfOk result (λ found. IfSome found IsRead) }
    ensures cause { IfErr result (HasCause (L.fault db.new.linked.now.link)
        (reply_at 0x1F db.new.linked.now.reply)) }
    ensures last { IfErr result (IsByLastReply (L.talk db.new.linked.now.link)) }
{
    match db.next_changed() {
        Ok(Some(lent)) => Ok(Some(entry_of(alloc, &lent)?)),
        Ok(None) => Ok(None),
        Err(fault) => Err(fault),
    }
}

// Reads changed records until none is left, or so many requests went out.
pub(crate) fn read_changed<L: Link>(
    alloc: Global,
    db: &mut OpenDb<'_, L>,
    most: usize,
) -> Result<Vec<Seen>, SessionFault>
    ensures same_reference { db.new.linked.ghost_name ≡ db.old.linked.ghost_name }
    ensures same_handle { db.new.handle ≡ db.old.handle }
    ensures follows { Follows L.Link (reads_changed db.old.handle most [])
        db.old.linked.now.link db.new.linked.now.link
        (mapped (λ seen. seen.items) result) }
    ensures asks { Asks L.talk L.since L.fault L.downs
        (changed_reads_of db.old.handle most (L.talk db.old.linked.now.link))
        db.old.linked.now db.new.linked.now result }
    ensures seen { IfOk result (λ seen. IfSome (L.talk db.old.linked.now.link)
        (λ talk. seen.items ≡ changed_seen db.old.handle most talk.device)) }
    ensures bounded { IfOk result (λ seen. AreBounded seen.items) }
    ensures read { IfOk result (λ seen. AreRead seen.items) }
    ensures none { OnOk result (0 < most → L.fault db.new.linked.now.link ≡ None) }
    ensures cause { IfErr result (HasCause (L.fault db.new.linked.now.link)
        (reply_at 0x1F db.new.linked.now.reply)) }
    ensures last { IfErr result (IsByLastReply (L.talk db.new.linked.now.link)) }
{
    let mut seen = Vec::new(alloc);
    for _request in 0..most {
        let Some(entry) = read_next(alloc, db)? else {
            return Ok(seen);
        };
        push(&mut seen, entry)?;
    }
    Ok(seen)
}
