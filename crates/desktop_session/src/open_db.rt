// A database that is open.
ghost use Rattle.std.specs.Prelude.{◌≡◌, ◌<◌, ◌^◌, IfOk, Ok, false, true};
ghost use Rattle.std.specs.Borrow.{sem};
ghost use Rattle.dlp_replies.specs.ReplyReading.{reply_at};
ghost use Rattle.desktop_session.specs.Answers.{answer_by, handle_of, no_more, said_in};
ghost use Rattle.desktop_session.specs.Asking.{closes, makes, makes_by, opens};
ghost use Rattle.desktop_session.specs.Following.{Follows};
ghost use Rattle.desktop_session.specs.Requests.{closing, making, making_of, opening, opening_in, opening_to_read};
ghost use Rattle.desktop_session.specs.Stops.{AsksOne};

use crate::fault::SessionFault;
use crate::linked::Linked;
use crate::replies::{created_in, done_in, opened_in};
use dlp_commands::{Link, Request};
use pdb_values::{DbHead, DbName, FourCc};

/// A database that is open. It must be closed or abandoned.
pub struct OpenDb<'s, L: Link> {
    pub(crate) linked: &'s mut Linked<L>,
    pub(crate) handle: u8,
}

impl<L: Link> Linked<L> {
    // Asks for a database to be opened in a mode, and answers its handle.
    #[tactic(auto, using(crate::proofs::RequestFits::open_fits, crate::proofs::AnswerLaws::answer_said, crate::proofs::AnswerLaws::answer_failed))]
    fn ask_to_open(&mut self, mode: u8, name: &DbName) -> Result<u8, SessionFault>
        ensures asked { AsksOne L.talk L.since L.fault L.downs (opening_in mode name.now) self.old
            self.new }
        ensures answer { result ≡ answer_by (L.fault self.new.link)
            (said_in 0x17 handle_of (reply_at 0x17 self.new.reply)) }
        ensures follows { Follows L.Link (opens mode name.now) self.old.link self.new.link result }
    {
        let name = name.as_bytes();
        self.ask(&Request::OpenDb {
            card: 0,
            mode,
            name,
        })?;
        opened_in(self.reply())
    }

    // Asks for a database to be made and opened, and answers its handle.
    #[tactic(auto, using(crate::proofs::RequestFits::make_fits, crate::proofs::AnswerLaws::answer_said, crate::proofs::AnswerLaws::answer_failed))]
    fn ask_to_make(
        &mut self,
        creator: FourCc,
        kind: FourCc,
        attributes: u16,
        version: u16,
        name: &DbName,
    ) -> Result<u8, SessionFault>
        ensures asked { AsksOne L.talk L.since L.fault L.downs
            (making_of creator.0 kind.0 attributes version name.now) self.old self.new }
        ensures answer { result ≡ answer_by (L.fault self.new.link)
            (said_in 0x18 handle_of (reply_at 0x18 self.new.reply)) }
        ensures follows { Follows L.Link (makes_by creator.0 kind.0 attributes version name.now)
            self.old.link self.new.link result }
    {
        let name = name.as_bytes();
        self.ask(&Request::CreateDb {
            creator,
            kind,
            card: 0,
            flags: attributes,
            version,
            name,
        })?;
        created_in(self.reply())
    }
}

impl<L: Link> Linked<L> {
    ghost use Rattle.desktop_session.specs.Loans.{OpensNone};

    /// Opens a database for reading and writing.
    pub fn open(&mut self, name: &DbName) -> Result<OpenDb<'_, L>, SessionFault>
        requires { self.old.abandoned ≡ false }
        ensures* stopped { sem 𝓛 (OpensNone L.row L.Link self.entry result (opening name.now) 0x17
            (opens 0xD0 name.now)) }
        ensures same_reference { IfOk result (λ opened. opened.linked.ghost_name ≡
            self.entry.ghost_name) }
        ensures asked { IfOk result (λ opened. AsksOne L.talk L.since L.fault L.downs
            (opening name.now)
            self.old opened.linked.now) }
        ensures handle { IfOk result (λ opened. Ok opened.handle ≡ answer_by
            (L.fault opened.linked.now.link)
            (said_in 0x17 handle_of (reply_at 0x17 opened.linked.now.reply))) }
        ensures follows { IfOk result (λ opened. Follows L.Link (opens 0xD0 name.now) self.old.link
            opened.linked.now.link (Ok opened.handle)) }
    {
        match self.ask_to_open(0xD0, name) {
            Ok(handle) => Ok(OpenDb {
                linked: self,
                handle,
            }),
            Err(fault) => Err(fault),
        }
    }

    /// Opens a database to read it.
    pub fn open_read(&mut self, name: &DbName) -> Result<OpenDb<'_, L>, SessionFault>
        requires { self.old.abandoned ≡ false }
        ensures* stopped { sem 𝓛 (OpensNone L.row L.Link self.entry result (opening_to_read name.now) 0x17
            (opens 0x90 name.now)) }
        ensures same_reference { IfOk result (λ opened. opened.linked.ghost_name ≡
            self.entry.ghost_name) }
        ensures asked { IfOk result (λ opened. AsksOne L.talk L.since L.fault L.downs
            (opening_to_read name.now)
            self.old opened.linked.now) }
        ensures handle { IfOk result (λ opened. Ok opened.handle ≡ answer_by
            (L.fault opened.linked.now.link)
            (said_in 0x17 handle_of (reply_at 0x17 opened.linked.now.reply))) }
        ensures follows { IfOk result (λ opened. Follows L.Link (opens 0x90 name.now) self.old.link
            opened.linked.now.link (Ok opened.handle)) }
    {
        match self.ask_to_open(0x90, name) {
            Ok(handle) => Ok(OpenDb {
                linked: self,
                handle,
            }),
            Err(fault) => Err(fault),
        }
    }

    /// Makes an empty database by a head's name, type, creator, version and attributes, and opens
    /// it for reading and writing.
    pub fn create(&mut self, head: &DbHead) -> Result<OpenDb<'_, L>, SessionFault>
        requires { self.old.abandoned ≡ false }
        ensures* stopped { sem 𝓛 (OpensNone L.row L.Link self.entry result (making head.now) 0x18
            (makes head.now)) }
        ensures same_reference { IfOk result (λ opened. opened.linked.ghost_name ≡
            self.entry.ghost_name) }
        ensures asked { IfOk result (λ opened. AsksOne L.talk L.since L.fault L.downs
            (making head.now)
            self.old opened.linked.now) }
        ensures handle { IfOk result (λ opened. Ok opened.handle ≡ answer_by
            (L.fault opened.linked.now.link)
            (said_in 0x18 handle_of (reply_at 0x18 opened.linked.now.reply))) }
        ensures follows { IfOk result (λ opened. Follows L.Link (makes head.now) self.old.link
            opened.linked.now.link (Ok opened.handle)) }
    {
        match self.ask_to_make(
            head.creator,
            head.kind,
            head.attributes,
            head.version,
            &head.name,
        ) {
            Ok(handle) => Ok(OpenDb {
                linked: self,
                handle,
            }),
            Err(fault) => Err(fault),
        }
    }
}

#[tactic(auto, using(crate::proofs::RequestFits::close_fits, crate::proofs::AnswerLaws::answer_said, crate::proofs::AnswerLaws::answer_failed))]
impl<'s, L: Link> OpenDb<'s, L> {
    // The handle.
    pub(crate) fn handle(&self) -> u8
        ensures same { result ≡ self.now.handle }
        ensures byte { result < 2 ^ 8 }
    {
        self.handle
    }

    /// Closes it.
    pub fn close(self) -> Result<(), SessionFault>
        ensures asked { AsksOne L.talk L.since L.fault L.downs (closing self.entry.handle)
            self.entry.linked.now self.exit.0.now }
        ensures answer { result ≡ answer_by (L.fault self.exit.0.now.link)
            (said_in 0x19 no_more (reply_at 0x19 self.exit.0.now.reply)) }
        ensures follows { Follows L.Link (closes self.entry.handle) self.entry.linked.now.link
            self.exit.0.now.link result }
    {
        let OpenDb { linked, handle } = self;
        linked.ask(&Request::CloseDb { handle })?;
        done_in(0x19, linked.reply())
    }

    /// Ends the loan and sends nothing.
    pub fn abandon(self)
        ensures { self.exit.0.now ≡ record self.entry.linked.now { abandoned = true } }
    {
        let OpenDb { linked, handle: _ } = self;
        linked.abandon();
    }
}
