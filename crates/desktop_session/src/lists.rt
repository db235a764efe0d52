// Lists that come in several replies.
ghost use Rattle.std.specs.Prelude.{◌≡◌, ◌≢◌, ◌++◌, ◌≤◌, ◌<◌, ◌%◌, ◌⊎◌, IfErr, IfOk, IsOk, IsTrue, None, OnErr, OnOk, false, length, map};
ghost use Rattle.palm_device.specs.FreshIds as fresh;
ghost use Rattle.dlp_replies.specs.ReplyReading.{reply_at};
ghost use Rattle.desktop_session.specs.Acts.{text};
ghost use Rattle.desktop_session.specs.Answers.{ids_of, mapped, said_in};
ghost use Rattle.desktop_session.specs.Asking as asking;
ghost use Rattle.desktop_session.specs.Asking.{all_ids, asks_ids};
ghost use Rattle.desktop_session.specs.Following.{Follows};
ghost use Rattle.desktop_session.specs.Greeted.{asks_page, lists_all};
ghost use Rattle.desktop_session.specs.Lasts.{IsByLastReply};
ghost use Rattle.desktop_session.specs.Lists.{AreIdsRead, HasCause, IsByReplyTo, IsNotMissing, Lists, heads_in, id_listing, id_reads};
ghost use Rattle.desktop_session.specs.Lists.{id_parts, ids_in};
ghost use Rattle.desktop_session.specs.Requests.{listing, listing_ids};
ghost use Rattle.desktop_session.specs.Starts.{AreIdsUpTo, AreNewFrom, ComesTwice, IsCounted, IsListedUpTo, next_start};
ghost use Rattle.desktop_session.specs.Stops.{AsksOne, Does, Stops};

use crate::fault::SessionFault;
use crate::linked::Linked;
use crate::open_db::OpenDb;
use crate::replies::{add_heads, add_ids};
use dlp_commands::{Link, ReplyFault, Request};
use pdb_values::{DbHead, RecordId};
use std::alloc::Global;

impl<L: Link> Linked<L> {
    // Asks for the databases from an index on, appends their heads, and answers where the list goes on.
    #[tactic(auto, using(crate::proofs::RequestFits::list_fits, crate::proofs::AnswerLaws::cause_of_link, crate::proofs::AnswerLaws::cause_of_reply, crate::proofs::AnswerLaws::fault_none))]
    fn list_from(
        &mut self,
        start: u16,
        heads: &mut Vec<DbHead>,
    ) -> Result<Option<u16>, SessionFault>
        ensures asked { AsksOne L.talk L.since L.fault L.downs (listing start) self.old self.new }
        ensures none { OnOk result (L.fault self.new.link ≡ None) }
        ensures heads { OnOk result (heads.new.items ≡ heads.old.items ++ heads_in (reply_at 0x16
            self.new.reply)) }
        ensures next { IfOk result (λ next. next ≡ next_start start
            (reply_at 0x16 self.new.reply)) }
        ensures follows { Follows L.Link (asks_page start heads.old.items) self.old.link self.new.link
            (mapped (λ next. (heads.new.items, next)) result) }
        ensures cause { IfErr result (HasCause (L.fault self.new.link) (reply_at 0x16
            self.new.reply)) }
        ensures last { IfErr result (IsByLastReply (L.talk self.new.link)) }
        ensures others { IfErr result IsNotMissing }
    {
        self.ask(&Request::ReadDbList {
            flags: 0x80,
            card: 0,
            start,
        })?;
        add_heads(self.reply(), start, heads)
    }

    // Asks for at most 8,000 ids from an index on and appends them.
    #[tactic(auto, using(crate::proofs::RequestFits::ids_fit, crate::proofs::AnswerLaws::cause_of_link, crate::proofs::AnswerLaws::cause_of_reply, crate::proofs::AnswerLaws::fault_none))]
    fn ids_from(
        &mut self,
        handle: u8,
        start: u16,
        ids: &mut Vec<RecordId>,
    ) -> Result<(), SessionFault>
        ensures asked { AsksOne L.talk L.since L.fault L.downs (listing_ids handle start) self.old
            self.new }
        ensures none { OnOk result (L.fault self.new.link ≡ None) }
        ensures ids { OnOk result (ids.new.items ≡ ids.old.items ++ ids_in (reply_at 0x31
            self.new.reply)) }
        ensures read { OnOk result (IsOk (said_in 0x31 ids_of (reply_at 0x31 self.new.reply))) }
        ensures follows { Follows L.Link (asks_ids handle start ids.old.items) self.old.link self.new.link
            (mapped (λ done. ids.new.items) result) }
        ensures cause { IfErr result (HasCause (L.fault self.new.link) (reply_at 0x31
            self.new.reply)) }
        ensures last { IfErr result (IsByLastReply (L.talk self.new.link)) }
    {
        self.ask(&Request::ReadRecordIdList {
            handle,
            flags: 0,
            start,
            maximum: 8_000,
        })?;
        add_ids(self.reply(), ids)
    }
}

impl<L: Link> Linked<L> {
    /// The heads of the handheld's databases, without their seeds, in the order of the replies. The first request is for those
    /// from index 0 on, and each other one for those behind the last index of the reply before it, whatever gaps the indices
    /// have. The list ends where a reply says that no more follow, names a last index below the one that was asked for, or
    /// names 65,535. Over a device that is told there are no gaps, and so one request goes out for each index from 0 on.
    pub fn list(&mut self, alloc: Global) -> Result<Vec<DbHead>, SessionFault>
        requires { self.old.abandoned ≡ false }
        ensures lists { Lists L.talk L.since L.fault L.downs self.old.link self.new.link
            (mapped (λ heads. heads.items) result) }
        ensures follows { Follows L.Link lists_all self.old.link self.new.link
            (mapped (λ heads. heads.items) result) }
        ensures listed { IfOk result (λ heads. IsListedUpTo (reply_at 0x16 self.new.reply)
            heads.items) }
        ensures cause { IfErr result (HasCause (L.fault self.new.link) (reply_at 0x16
            self.new.reply)) }
        ensures last { IfErr result (IsByLastReply (L.talk self.new.link)) }
        ensures others { IfErr result IsNotMissing }
        ensures replied { OnErr result
            (IsByReplyTo L.talk L.fault 65536 listing self.old self.new) }
        ensures rest { (self.new.user ≡ self.old.user) × (self.new.abandoned ≡ self.old.abandoned) }
    {
        let mut heads = Vec::new(alloc);
        let mut start = 0;
        'start: loop {
            let Some(next) = self.list_from(start, &mut heads)? else {
                return Ok(heads);
            };
            start = next;
        }
    }

    // The ids of an open database that has so many records: each request begins behind those that came. A reply without
    // ids where some are due is taken for none, and so is one that repeats some behind a reply of fewer than 8,000.
    fn ids_of(
        &mut self,
        alloc: Global,
        handle: u8,
        count: u16,
    ) -> Result<Vec<RecordId>, SessionFault>
        ensures stops { IsCounted (L.talk self.old.link) handle count
            → Stops L.talk L.since L.fault L.downs (map text (id_reads handle count))
            self.old.link self.new.link }
        ensures does { OnOk result (IsCounted (L.talk self.old.link) handle count
            → Does L.talk (id_reads handle count) self.old.link self.new.link) }
        ensures ids { IfOk result (λ ids. IsCounted (L.talk self.old.link) handle count
            → AreIdsRead (L.talk self.old.link) handle count ids.items) }
        ensures follows { Follows L.Link (all_ids handle count) self.old.link self.new.link
            (mapped (λ ids. ids.items) result) }
        ensures whole { IfOk result (λ ids. count ≤ length ids.items) }
        ensures once { IfOk result (λ ids. 0 < count
            → AreIdsUpTo (reply_at 0x31 self.new.reply) ids.items) }
        ensures cause { IfErr result (HasCause (L.fault self.new.link) (reply_at 0x31
            self.new.reply)) }
        ensures last { IfErr result (λ cause. IsCounted (L.talk self.old.link) handle count
            → IsByLastReply (L.talk self.new.link) cause) }
        ensures replied { OnErr result (IsCounted (L.talk self.old.link) handle count
            → IsByReplyTo L.talk L.fault (id_parts count)
            (id_listing handle) self.old self.new) }
        ensures rest { (self.new.user ≡ self.old.user) × (self.new.abandoned ≡ self.old.abandoned) }
    {
        let mut ids = Vec::new(alloc);
        'part: while ids.len() < usize::from(count) {
            let before = ids.len();
            self.ids_from(handle, before as u16, &mut ids)?;
            if ids.len() == before {
                self.forget_reply();
                return Err(SessionFault::BadReply {
                    function: 0x31,
                    fault: ReplyFault::Wrapper(0),
                });
            }
            if repeats(&ids, before) {
                self.forget_reply();
                return Err(SessionFault::BadReply {
                    function: 0x31,
                    fault: ReplyFault::Wrapper(0),
                });
            }
        }
        Ok(ids)
    }
}

// Whether one of the ids behind so many is one of those before it. Behind replies of 8,000, the most that is asked for, it
// isn't asked.
fn repeats(ids: &[RecordId], before: usize) -> bool
    ensures parted { IsTrue result → before % 8000 ≢ 0 }
    ensures twice { IsTrue result → ComesTwice before ids.now }
    ensures none { result ≡ false → (before % 8000 ≡ 0) ⊎ AreNewFrom before ids.now }
    ensures value { result ≡ asking.repeats before ids.now }
{
    if before % 8_000 == 0 {
        return false;
    }
    for place in before..ids.len() {
        if is_among(ids[place], &ids[..place]) {
            return true;
        }
    }
    false
}

// Whether an id is one of these.
fn is_among(id: RecordId, ids: &[RecordId]) -> bool
    ensures { result ≡ fresh.is_among id ids.now }
{
    ids.iter().any(|other| other.number() == id.number())
}

impl<'s, L: Link> OpenDb<'s, L> {
    /// The ids of the records, in their order, where there are so many, as `count` says. Each request is for those behind the
    /// ones that came, however many a reply has, and none goes out for no record. There are never fewer: a reply without
    /// ids where some are due is taken for none, and so is one that repeats an id behind a reply of fewer than 8,000. Over a
    /// device that is told 8,000 come in each reply but the last.
    pub fn ids(&mut self, alloc: Global, count: u16) -> Result<Vec<RecordId>, SessionFault>
        ensures same_reference { self.new.linked.ghost_name ≡ self.old.linked.ghost_name }
        ensures same_handle { self.new.handle ≡ self.old.handle }
        ensures stops { IsCounted (L.talk self.old.linked.now.link) self.old.handle count
            → Stops L.talk L.since L.fault L.downs
            (map text (id_reads self.old.handle count))
            self.old.linked.now.link self.new.linked.now.link }
        ensures does { OnOk result (IsCounted (L.talk self.old.linked.now.link) self.old.handle
            count → Does L.talk (id_reads self.old.handle count)
            self.old.linked.now.link self.new.linked.now.link) }
        ensures ids { IfOk result (λ ids. IsCounted (L.talk self.old.linked.now.link)
            self.old.handle count
            → AreIdsRead (L.talk self.old.linked.now.link) self.old.handle count ids.items) }
        ensures follows { Follows L.Link (all_ids self.old.handle count) self.old.linked.now.link
            self.new.linked.now.link (mapped (λ ids. ids.items) result) }
        ensures whole { IfOk result (λ ids. count ≤ length ids.items) }
        ensures once { IfOk result (λ ids. 0 < count
            → AreIdsUpTo (reply_at 0x31 self.new.linked.now.reply) ids.items) }
        ensures cause { IfErr result (HasCause (L.fault self.new.linked.now.link)
            (reply_at 0x31 self.new.linked.now.reply)) }
        ensures last { IfErr result (λ cause. IsCounted (L.talk self.old.linked.now.link)
            self.old.handle count → IsByLastReply (L.talk self.new.linked.now.link) cause) }
        ensures replied { OnErr result (IsCounted (L.talk self.old.linked.now.link) self.old.handle
            count → IsByReplyTo L.talk L.fault (id_parts count)
            (id_listing self.old.handle)
            self.old.linked.now self.new.linked.now) }
        ensures rest { (self.new.linked.now.user ≡ self.old.linked.now.user)
            × (self.new.linked.now.abandoned ≡ self.old.linked.now.abandoned) }
    {
        let handle = self.handle();
        self.linked.ids_of(alloc, handle, count)
    }
}
