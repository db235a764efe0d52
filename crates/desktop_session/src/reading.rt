// What is read of an open database.
ghost use Rattle.std.specs.Prelude.{◌≡◌, Ok};
ghost use Rattle.std.specs.Borrow.{sem};
ghost use Rattle.std.specs.Option.{option_map};
ghost use Rattle.dlp_args.specs.Views.{Gives};
ghost use Rattle.dlp_replies.specs.ReplyReading.{reply_at};
ghost use Rattle.desktop_session.specs.Answers.{answer_by, count_of, mapped, record_of, resource_of, said_in};
ghost use Rattle.desktop_session.specs.Asking.{lends_resource};
ghost use Rattle.desktop_session.specs.Following.{Follows};
ghost use Rattle.desktop_session.specs.Inquiries.{asks_bytes};
ghost use Rattle.desktop_session.specs.Lendings.{asks_whole, counts, lends_at, lends_next, lends_of};
ghost use Rattle.desktop_session.specs.Lent.{lent_resource, lent_value};
ghost use Rattle.desktop_session.specs.Loans.{Lends, LendsWhole, answered_with, found_with};
ghost use Rattle.desktop_session.specs.Requests.{counting, reading_at, reading_next, reading_of, reading_resource};
ghost use Rattle.desktop_session.specs.Stops.{AsksOne};
ghost use Rattle.desktop_session.specs.Wholes.{HasWhole, whole_reply};

use crate::fault::SessionFault;
use crate::lent::{RecordLent, ResourceLent};
use crate::linked::Linked;
use crate::open_db::OpenDb;
use crate::replies::{count_in, found_in, is_whole, next_in, record_in, resource_in};
use dlp_commands::{Link, Request};
use pdb_values::RecordId;

#[tactic(auto, using(crate::proofs::RequestFits::count_fits, crate::proofs::AnswerLaws::answer_said, crate::proofs::AnswerLaws::answer_failed))]
impl<'s, L: Link> OpenDb<'s, L> {
    /// How many entries it has, records or resources, deleted records included.
    pub fn count(&mut self) -> Result<u16, SessionFault>
        ensures same_reference { self.new.linked.ghost_name ≡ self.old.linked.ghost_name }
        ensures same_handle { self.new.handle ≡ self.old.handle }
        ensures asked { AsksOne L.talk L.since L.fault L.downs (counting self.old.handle)
            self.old.linked.now self.new.linked.now }
        ensures answer { result ≡ answer_by (L.fault self.new.linked.now.link)
            (said_in 0x2B count_of (reply_at 0x2B self.new.linked.now.reply)) }
        ensures follows { Follows L.Link (counts self.old.handle) self.old.linked.now.link
            self.new.linked.now.link result }
    {
        let handle = self.handle();
        self.linked.ask(&Request::ReadOpenDbInfo { handle })?;
        count_in(self.linked.reply())
    }
}

// What is asked before something is lent.
impl<L: Link> Linked<L> {
    // A reply to a function whose record has fewer bytes than it says is taken for none.
    fn keep_whole(&mut self, function: u8)
        ensures { self.new ≡ record self.old { reply = whole_reply function self.old.reply } }
    {
        if !is_whole(function, self.reply()) {
            self.forget_reply();
        }
    }

    #[tactic(auto, using(crate::proofs::RequestFits::at_fits))]
    fn ask_at(&mut self, handle: u8, index: u16) -> Result<(), SessionFault>
        ensures asked { AsksOne L.talk L.since L.fault L.downs (reading_at handle index) self.old
            self.new }
        ensures fault { result ≡ answer_by (L.fault self.new.link) (Ok tt) }
        ensures whole { HasWhole L.fault (reading_at handle index) self.new }
        ensures follows { Follows L.Link (asks_whole (reading_at handle index).asks) self.old.link self.new.link
            (mapped (λ done. self.new.reply) result) }
    {
        self.ask(&Request::ReadRecordByIndex {
            handle,
            index,
            offset: 0,
            length: 65_535,
        })?;
        self.keep_whole(0x20);
        Ok(())
    }

    #[tactic(auto, using(crate::proofs::RequestFits::of_fits))]
    fn ask_of(&mut self, handle: u8, id: RecordId) -> Result<(), SessionFault>
        ensures asked { AsksOne L.talk L.since L.fault L.downs (reading_of handle id) self.old
            self.new }
        ensures fault { result ≡ answer_by (L.fault self.new.link) (Ok tt) }
        ensures whole { HasWhole L.fault (reading_of handle id) self.new }
        ensures follows { Follows L.Link (asks_whole (reading_of handle id).asks) self.old.link self.new.link
            (mapped (λ done. self.new.reply) result) }
    {
        self.ask(&Request::ReadRecordById {
            handle,
            id: id.number(),
            offset: 0,
            length: 65_535,
        })?;
        self.keep_whole(0x20);
        Ok(())
    }

    #[tactic(auto, using(crate::proofs::RequestFits::next_fits))]
    fn ask_next(&mut self, handle: u8) -> Result<(), SessionFault>
        ensures asked { AsksOne L.talk L.since L.fault L.downs (reading_next handle) self.old
            self.new }
        ensures fault { result ≡ answer_by (L.fault self.new.link) (Ok tt) }
        ensures whole { HasWhole L.fault (reading_next handle) self.new }
        ensures follows { Follows L.Link (asks_whole (reading_next handle).asks) self.old.link self.new.link
            (mapped (λ done. self.new.reply) result) }
    {
        self.ask(&Request::ReadNextModifiedRec { handle })?;
        self.keep_whole(0x1F);
        Ok(())
    }

    #[tactic(auto, using(crate::proofs::RequestFits::resource_fits))]
    fn ask_resource(&mut self, handle: u8, index: u16) -> Result<(), SessionFault>
        ensures asked { AsksOne L.talk L.since L.fault L.downs (reading_resource handle index)
            self.old self.new }
        ensures fault { result ≡ answer_by (L.fault self.new.link) (Ok tt) }
        ensures follows { Follows L.Link (asks_bytes (reading_resource handle index).asks) self.old.link
            self.new.link (mapped (λ done. self.new.reply) result) }
    {
        self.ask(&Request::ReadResourceByIndex {
            handle,
            index,
            offset: 0,
            length: 65_535,
        })
    }
}

#[tactic(auto, using(crate::proofs::AnswerLaws::answer_said, crate::proofs::AnswerLaws::answer_failed, crate::proofs::AnswerLaws::gives_said, crate::proofs::AnswerLaws::gives_failed))]
impl<'s, L: Link> OpenDb<'s, L> {
    /// Lends the record at an index. One whose reply has fewer bytes than the size that it tells is a reply that can't be read.
    pub fn at(&mut self, index: u16) -> Result<RecordLent<'_>, SessionFault>
        ensures* rests { sem 𝓛 (LendsWhole L.row L.Link self.entry (reading_at self.old.handle index)
            (lends_at self.old.handle index) (answered_with L.fault 0x20 record_of)
            (λ last. Gives lent_value result (answered_with L.fault 0x20 record_of last))) }
    {
        let handle = self.handle();
        let linked = &mut *self.linked;
        match linked.ask_at(handle, index) {
            Ok(()) => {}
            Err(fault) => return Err(fault),
        }
        record_in(linked.reply.bytes())
    }

    /// Lends the record of an id, or nothing where there is none. One with fewer bytes than its size can't be read.
    pub fn by_id(&mut self, id: RecordId) -> Result<Option<RecordLent<'_>>, SessionFault>
        ensures* rests { sem 𝓛 (LendsWhole L.row L.Link self.entry (reading_of self.old.handle id)
            (lends_of self.old.handle id) (found_with L.fault 0x20 record_of)
            (λ last. Gives (option_map lent_value) result
            (found_with L.fault 0x20 record_of last))) }
    {
        let handle = self.handle();
        let linked = &mut *self.linked;
        match linked.ask_of(handle, id) {
            Ok(()) => {}
            Err(fault) => return Err(fault),
        }
        found_in(linked.reply.bytes())
    }

    /// Lends the next record that is dirty or deleted, or nothing where none is left. One with fewer bytes than its size
    /// can't be read.
    pub fn next_changed(&mut self) -> Result<Option<RecordLent<'_>>, SessionFault>
        ensures* rests { sem 𝓛 (LendsWhole L.row L.Link self.entry (reading_next self.old.handle)
            (lends_next self.old.handle) (found_with L.fault 0x1F record_of)
            (λ last. Gives (option_map lent_value) result
            (found_with L.fault 0x1F record_of last))) }
    {
        let handle = self.handle();
        let linked = &mut *self.linked;
        match linked.ask_next(handle) {
            Ok(()) => {}
            Err(fault) => return Err(fault),
        }
        next_in(linked.reply.bytes())
    }

    /// Lends the resource at an index.
    pub fn resource_at(&mut self, index: u16) -> Result<ResourceLent<'_>, SessionFault>
        ensures* rests { sem 𝓛 (Lends L.row L.Link self.entry (reading_resource self.old.handle index)
            (lends_resource self.old.handle index) (answered_with L.fault 0x23 resource_of)
            (λ last. Gives lent_resource result
            (answered_with L.fault 0x23 resource_of last))) }
    {
        let handle = self.handle();
        let linked = &mut *self.linked;
        match linked.ask_resource(handle, index) {
            Ok(()) => {}
            Err(fault) => return Err(fault),
        }
        resource_in(linked.reply.bytes())
    }
}
