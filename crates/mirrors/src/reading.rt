// A fast reading of an open database.
ghost use Rattle.std.specs.Prelude.{◌≡◌, ◌∷◌, [], IfErr, IfOk, IfSome, None, OnOk, map};
ghost use Rattle.dlp_replies.specs.ReplyReading.{reply_at};
ghost use Rattle.conduit_rules.specs.ById.{each_id};
ghost use Rattle.desktop_session.specs.Acts.{text};
ghost use Rattle.desktop_session.specs.Answers.{mapped};
ghost use Rattle.desktop_session.specs.Following.{Follows};
ghost use Rattle.desktop_session.specs.Lasts.{IsByLastReply};
ghost use Rattle.desktop_session.specs.Lists.{HasCause, HasCauseIn};
ghost use Rattle.desktop_session.specs.Stops.{Does, Stops};
ghost use Rattle.mirrors.specs.Asks.{Asks};
ghost use Rattle.mirrors.specs.Entries.{AreBounded, ordered};
ghost use Rattle.mirrors.specs.FastReads.{fast_reads_of, fast_shown, ids_told, listing_acts};
ghost use Rattle.mirrors.specs.FastReads.{reads_at, shown_at};
ghost use Rattle.mirrors.specs.ReadInquiries.{reads_fast, reads_ids, reads_others};
ghost use Rattle.mirrors.specs.Shells.{AreRead};

use crate::changed::read_changed;
use crate::order::in_order;
use crate::others::{add_shells, fill_all};
use crate::rows::places_of;
use conduit_rules::{Seen, View};
use desktop_session::{OpenDb, SessionFault};
use dlp_commands::Link;
use pdb_values::{Record, RecordId};
use std::alloc::Global;

// Reads the ids of all records.
fn read_ids<L: Link>(alloc: Global, db: &mut OpenDb<'_, L>) -> Result<Vec<RecordId>, SessionFault>
    ensures same_reference { db.new.linked.ghost_name ≡ db.old.linked.ghost_name }
    ensures same_handle { db.new.handle ≡ db.old.handle }
    ensures follows { Follows L.Link (reads_ids db.old.handle)
        db.old.linked.now.link db.new.linked.now.link
        (mapped (λ ids. ids.items) result) }
    ensures stops { Stops L.talk L.since L.fault L.downs
        (map text (listing_acts db.old.handle (L.talk db.old.linked.now.link)))
        db.old.linked.now.link db.new.linked.now.link }
    ensures does { OnOk result (Does L.talk
        (listing_acts db.old.handle (L.talk db.old.linked.now.link))
        db.old.linked.now.link db.new.linked.now.link) }
    ensures ids { IfOk result (λ ids. IfSome (L.talk db.old.linked.now.link)
        (λ talk. ids.items ≡ ids_told db.old.handle talk.device)) }
    ensures rest { (db.new.linked.now.user ≡ db.old.linked.now.user)
        × (db.new.linked.now.abandoned ≡ db.old.linked.now.abandoned) }
    ensures cause { IfErr result (HasCauseIn (0x2B ∷ 0x31 ∷ [])
        (L.fault db.new.linked.now.link) db.new.linked.now.reply) }
    ensures last { IfErr result (IsByLastReply (L.talk db.new.linked.now.link)) }
{
    let count = db.count()?;
    db.ids(alloc, count)
}

// Reads by its id each listed record that was not read and has no base row; any other one that was
// not read is as the base has it.
fn read_others<L: Link>(
    alloc: Global,
    db: &mut OpenDb<'_, L>,
    base: &[Record],
    ids: &[RecordId],
    seen: Vec<Seen>,
) -> Result<View, SessionFault>
    requires bounded { AreBounded seen.items }
    requires read { AreRead seen.items }
    ensures same_reference { db.new.linked.ghost_name ≡ db.old.linked.ghost_name }
    ensures same_handle { db.new.handle ≡ db.old.handle }
    ensures follows { Follows L.Link (reads_others base.now db.old.handle ids.now seen.items)
        db.old.linked.now.link db.new.linked.now.link
        (mapped (λ view. view.seen.items) result) }
    ensures asks { Asks L.talk L.since L.fault L.downs
        (each_id (reads_at base.now db.old.handle ids.now seen.items))
        db.old.linked.now db.new.linked.now result }
    ensures view { IfOk result (λ view. IfSome (L.talk db.old.linked.now.link)
        (λ talk. view.seen.items
        ≡ each_id (shown_at base.now db.old.handle talk.device ids.now seen.items))) }
    ensures rising { IfOk result (λ view. ordered view.seen.items ≡ view.seen.items) }
    ensures cause { IfErr result (HasCause (L.fault db.new.linked.now.link)
        (reply_at 0x20 db.new.linked.now.reply)) }
    ensures last { IfErr result (IsByLastReply (L.talk db.new.linked.now.link)) }
{
    let mut seen = seen;
    add_shells(alloc, ids, &mut seen)?;
    let places = places_of(alloc, base)?;
    let view = in_order(seen)?;
    fill_all(alloc, db, base, &places, view.seen)
}

/// Reads of an open database what changed since the base: the ids of its records, each changed
/// record, and by its id each other one that the base has no row of. A gone row of the base, which
/// has the delete bit, is no row here, and of rows with one id the first counts.
///
/// The view has the records in rising ids. A record that has a base row and is not among the
/// changed ones is unread, with the content of the row. Where the handheld lends one id twice, the
/// first counts. The changed records are asked for at most once more than there are ids.
pub fn read_fast<L: Link>(
    alloc: Global,
    db: &mut OpenDb<'_, L>,
    base: &[Record],
) -> Result<View, SessionFault>
    ensures same_reference { db.new.linked.ghost_name ≡ db.old.linked.ghost_name }
    ensures same_handle { db.new.handle ≡ db.old.handle }
    ensures follows { Follows L.Link (reads_fast base.now db.old.handle)
        db.old.linked.now.link db.new.linked.now.link
        (mapped (λ view. view.seen.items) result) }
    ensures asks { Asks L.talk L.since L.fault L.downs
        (fast_reads_of base.now db.old.handle (L.talk db.old.linked.now.link))
        db.old.linked.now db.new.linked.now result }
    ensures view { IfOk result (λ view. IfSome (L.talk db.old.linked.now.link)
        (λ talk. view.seen.items ≡ fast_shown base.now db.old.handle talk.device)) }
    ensures rising { IfOk result (λ view. ordered view.seen.items ≡ view.seen.items) }
    ensures none { OnOk result (L.fault db.new.linked.now.link ≡ None) }
    ensures cause { IfErr result (HasCauseIn (0x2B ∷ 0x31 ∷ 0x1F ∷ 0x20 ∷ [])
        (L.fault db.new.linked.now.link) db.new.linked.now.reply) }
    ensures last { IfErr result (IsByLastReply (L.talk db.new.linked.now.link)) }
{
    let ids = read_ids(alloc, db)?;
    let seen = read_changed(alloc, db, ids.len() + 1)?;
    read_others(alloc, db, base, &ids, seen)
}
