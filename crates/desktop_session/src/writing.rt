// What is written into an open database.
ghost use Rattle.std.specs.Prelude.{◌≡◌, ◌≤◌, Ok, length};
ghost use Rattle.dlp_replies.specs.ReplyReading.{reply_at};
ghost use Rattle.desktop_session.specs.Answers.{answer_by, id_of, mapped, no_more, or_false, said_in};
ghost use Rattle.desktop_session.specs.Asking.{cleans, puts_one, puts_resource, removes, resets, writes_app, writes_sort};
ghost use Rattle.desktop_session.specs.Following.{Follows};
ghost use Rattle.desktop_session.specs.Inquiries.{asks_bytes};
ghost use Rattle.desktop_session.specs.Puts.{Puts};
ghost use Rattle.desktop_session.specs.Requests.{cleaning, putting_resource, removing, resetting, secret_bit, writing_app, writing_sort};
ghost use Rattle.desktop_session.specs.Stops.{AsksOne};

use crate::fault::SessionFault;
use crate::linked::Linked;
use crate::open_db::OpenDb;
use crate::replies::{self, done_in, id_in};
use dlp_commands::{Link, Request};
use pdb_values::{Content, FourCc, RecordId, Resource};

// The attributes that are written of a record.
fn bits_of(secret: bool) -> u8
    ensures { result ≡ secret_bit secret }
{
    if secret { 0x10 } else { 0 }
}

impl<L: Link> Linked<L> {
    // Asks for a record to be put.
    #[tactic(auto, using(crate::proofs::RequestFits::put_fits, crate::proofs::AnswerLaws::answer_said, crate::proofs::AnswerLaws::answer_failed))]
    fn ask_to_put(
        &mut self,
        handle: u8,
        id: RecordId,
        content: &Content,
    ) -> Result<RecordId, SessionFault>
        ensures puts { Puts L.talk L.since L.fault L.downs handle id content.now self.old
            self.new result }
        ensures answer { result ≡ answer_by (L.fault self.new.link)
            (said_in 0x21 id_of (reply_at 0x21 self.new.reply)) }
        ensures follows { Follows L.Link (puts_one handle id content.now) self.old.link self.new.link result }
    {
        let request = Request::WriteRecord {
            handle,
            flags: 0x80,
            id: id.number(),
            attributes: bits_of(content.secret()),
            category: content.category().number(),
            bytes: content.bytes(),
        };
        self.ask(&request)?;
        id_in(self.reply())
    }
}

impl<L: Link> Linked<L> {
    // Asks for a resource to be put.
    #[tactic(auto, using(crate::proofs::RequestFits::put_resource_fits))]
    fn ask_to_put_resource(
        &mut self,
        handle: u8,
        kind: FourCc,
        id: u16,
        bytes: &[u8],
    ) -> Result<(), SessionFault>
        requires { length bytes.now ≤ 65500 }
        ensures asked { AsksOne L.talk L.since L.fault L.downs
            (putting_resource handle kind.0 id bytes.now)
            self.old self.new }
        ensures fault { result ≡ answer_by (L.fault self.new.link) (Ok tt) }
        ensures follows { Follows L.Link (asks_bytes (putting_resource handle kind.0 id bytes.now).asks)
            self.old.link self.new.link (mapped (λ done. self.new.reply) result) }
    {
        self.ask(&Request::WriteResource {
            handle,
            kind,
            id,
            bytes,
        })
    }
}

impl<'s, L: Link> OpenDb<'s, L> {
    /// Puts a record: in place of the one of its id, as a new one under that id, or, where the id
    /// is 0, as a new one that
    /// gets a free id. It becomes live and dirty. Answers the id that the handheld gave.
    pub fn put(&mut self, id: RecordId, content: &Content) -> Result<RecordId, SessionFault>
        ensures same_reference { self.new.linked.ghost_name ≡ self.old.linked.ghost_name }
        ensures same_handle { self.new.handle ≡ self.old.handle }
        ensures puts { Puts L.talk L.since L.fault L.downs self.old.handle id content.now
            self.old.linked.now self.new.linked.now result }
        ensures answer { result ≡ answer_by (L.fault self.new.linked.now.link)
            (said_in 0x21 id_of (reply_at 0x21 self.new.linked.now.reply)) }
        ensures follows { Follows L.Link (puts_one self.old.handle id content.now) self.old.linked.now.link
            self.new.linked.now.link result }
    {
        let handle = self.handle();
        self.linked.ask_to_put(handle, id, content)
    }

    /// Takes the record of an id away, and answers whether there was one.
    #[tactic(auto, using(crate::proofs::RequestFits::remove_fits, crate::proofs::AnswerLaws::answer_said, crate::proofs::AnswerLaws::answer_failed))]
    pub fn remove(&mut self, id: RecordId) -> Result<bool, SessionFault>
        ensures same_reference { self.new.linked.ghost_name ≡ self.old.linked.ghost_name }
        ensures same_handle { self.new.handle ≡ self.old.handle }
        ensures asked { AsksOne L.talk L.since L.fault L.downs (removing self.old.handle id)
            self.old.linked.now self.new.linked.now }
        ensures answer { result ≡ answer_by (L.fault self.new.linked.now.link)
            (or_false (said_in 0x22 no_more (reply_at 0x22 self.new.linked.now.reply))) }
        ensures follows { Follows L.Link (removes self.old.handle id) self.old.linked.now.link
            self.new.linked.now.link result }
    {
        let handle = self.handle();
        self.linked.ask(&Request::DeleteRecord {
            handle,
            flags: 0,
            id: id.number(),
        })?;
        replies::or_false(done_in(0x22, self.linked.reply()))
    }

    /// Takes all records with the delete bit away.
    #[tactic(auto, using(crate::proofs::RequestFits::clean_fits, crate::proofs::AnswerLaws::answer_said, crate::proofs::AnswerLaws::answer_failed))]
    pub fn clean_up(&mut self) -> Result<(), SessionFault>
        ensures same_reference { self.new.linked.ghost_name ≡ self.old.linked.ghost_name }
        ensures same_handle { self.new.handle ≡ self.old.handle }
        ensures asked { AsksOne L.talk L.since L.fault L.downs (cleaning self.old.handle)
            self.old.linked.now self.new.linked.now }
        ensures answer { result ≡ answer_by (L.fault self.new.linked.now.link)
            (said_in 0x26 no_more (reply_at 0x26 self.new.linked.now.reply)) }
        ensures follows { Follows L.Link (cleans self.old.handle) self.old.linked.now.link
            self.new.linked.now.link result }
    {
        let handle = self.handle();
        self.linked.ask(&Request::CleanUpDatabase { handle })?;
        done_in(0x26, self.linked.reply())
    }

    /// Makes all records clean.
    #[tactic(auto, using(crate::proofs::RequestFits::reset_fits, crate::proofs::AnswerLaws::answer_said, crate::proofs::AnswerLaws::answer_failed))]
    pub fn reset_flags(&mut self) -> Result<(), SessionFault>
        ensures same_reference { self.new.linked.ghost_name ≡ self.old.linked.ghost_name }
        ensures same_handle { self.new.handle ≡ self.old.handle }
        ensures asked { AsksOne L.talk L.since L.fault L.downs (resetting self.old.handle)
            self.old.linked.now self.new.linked.now }
        ensures answer { result ≡ answer_by (L.fault self.new.linked.now.link)
            (said_in 0x27 no_more (reply_at 0x27 self.new.linked.now.reply)) }
        ensures follows { Follows L.Link (resets self.old.handle) self.old.linked.now.link
            self.new.linked.now.link result }
    {
        let handle = self.handle();
        self.linked.ask(&Request::ResetSyncFlags { handle })?;
        done_in(0x27, self.linked.reply())
    }

    /// Replaces the app block by at most 65,500 bytes. No byte takes it away.
    #[tactic(auto, using(crate::proofs::RequestFits::write_app_fits, crate::proofs::AnswerLaws::answer_said, crate::proofs::AnswerLaws::answer_failed))]
    pub fn write_app(&mut self, bytes: &[u8]) -> Result<(), SessionFault>
        requires { length bytes.now ≤ 65500 }
        ensures same_reference { self.new.linked.ghost_name ≡ self.old.linked.ghost_name }
        ensures same_handle { self.new.handle ≡ self.old.handle }
        ensures asked { AsksOne L.talk L.since L.fault L.downs (writing_app self.old.handle bytes.now)
            self.old.linked.now self.new.linked.now }
        ensures answer { result ≡ answer_by (L.fault self.new.linked.now.link)
            (said_in 0x1C no_more (reply_at 0x1C self.new.linked.now.reply)) }
        ensures follows { Follows L.Link (writes_app self.old.handle bytes.now) self.old.linked.now.link
            self.new.linked.now.link result }
    {
        let handle = self.handle();
        self.linked.ask(&Request::WriteAppBlock { handle, bytes })?;
        done_in(0x1C, self.linked.reply())
    }

    /// Replaces the sort block by at most 65,500 bytes. No byte takes it away.
    #[tactic(auto, using(crate::proofs::RequestFits::write_sort_fits, crate::proofs::AnswerLaws::answer_said, crate::proofs::AnswerLaws::answer_failed))]
    pub fn write_sort(&mut self, bytes: &[u8]) -> Result<(), SessionFault>
        requires { length bytes.now ≤ 65500 }
        ensures same_reference { self.new.linked.ghost_name ≡ self.old.linked.ghost_name }
        ensures same_handle { self.new.handle ≡ self.old.handle }
        ensures asked { AsksOne L.talk L.since L.fault L.downs (writing_sort
            self.old.handle bytes.now)
            self.old.linked.now self.new.linked.now }
        ensures answer { result ≡ answer_by (L.fault self.new.linked.now.link)
            (said_in 0x1E no_more (reply_at 0x1E self.new.linked.now.reply)) }
        ensures follows { Follows L.Link (writes_sort self.old.handle bytes.now) self.old.linked.now.link
            self.new.linked.now.link result }
    {
        let handle = self.handle();
        self.linked.ask(&Request::WriteSortBlock { handle, bytes })?;
        done_in(0x1E, self.linked.reply())
    }

    /// Puts a resource of at most 65,500 bytes: in place of the first of its type and id, or as a
    /// new one.
    #[tactic(auto, using(crate::proofs::AnswerLaws::answer_said, crate::proofs::AnswerLaws::answer_failed))]
    pub fn put_resource(&mut self, resource: &Resource) -> Result<(), SessionFault>
        requires { length resource.now.bytes ≤ 65500 }
        ensures same_reference { self.new.linked.ghost_name ≡ self.old.linked.ghost_name }
        ensures same_handle { self.new.handle ≡ self.old.handle }
        ensures asked { AsksOne L.talk L.since L.fault L.downs (putting_resource
            self.old.handle resource.now.kind.0 resource.now.id resource.now.bytes)
            self.old.linked.now self.new.linked.now }
        ensures answer { result ≡ answer_by (L.fault self.new.linked.now.link)
            (said_in 0x24 no_more (reply_at 0x24 self.new.linked.now.reply)) }
        ensures follows { Follows L.Link (puts_resource self.old.handle resource.now.kind.0
            resource.now.id resource.now.bytes) self.old.linked.now.link
            self.new.linked.now.link result }
    {
        let handle = self.handle();
        self.linked.ask_to_put_resource(
            handle,
            resource.kind,
            resource.id,
            resource.bytes.as_slice(),
        )?;
        done_in(0x24, self.linked.reply())
    }
}
