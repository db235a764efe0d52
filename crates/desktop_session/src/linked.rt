// A session that has begun.
ghost use Rattle.std.specs.Prelude.{◌≡◌, ◌∷◌, [], OnOk, Ok, false, true};
ghost use Rattle.dlp_requests.specs.RequestTexts.{IsRequest};
ghost use Rattle.dlp_requests.specs.Views.{request_value};
ghost use Rattle.dlp_commands.specs.Talks.{HasAnswer};
ghost use Rattle.desktop_session.specs.Acts.{AsksNoId, act, text};
ghost use Rattle.desktop_session.specs.Answers.{answer_by, mapped};
ghost use Rattle.desktop_session.specs.Following.{Follows};
ghost use Rattle.desktop_session.specs.Inquiries.{asks_bytes};
ghost use Rattle.desktop_session.specs.Stops.{AsksOne, Stops};

use crate::fault::{SessionFault, of_link};
use dlp_commands::{Link, Message, Request, write_request};
use pdb_values::{PalmDate, Password, UserInfo, UserName};
use std::marker::Model;

/// A session that has begun, with no database open.
#[derive(Drop)]
pub struct Linked<L: Link> {
    link: L,
    request: Message,
    pub(crate) reply: Message,
    user: UserInfo,
    abandoned: bool,
}

impl<L: Link> Model for Linked<L> {
    ghost use Rattle.std.specs.Prelude.{◌≡◌, true};
    ghost use Rattle.desktop_session.specs.Sessions.{SessionValue};

    ghost Value = { SessionValue L };

    ghost view = { λ linked. record {
      link = linked.link;
      user = linked.user;
      reply = linked.reply;
      abandoned = linked.abandoned;
    } };

    ghost invariant = { λ linked. L.begun linked.link ≡ true };
}

impl<L: Link> Linked<L> {
    /// What the handheld knew of its user when the session began.
    pub fn user(&self) -> &UserInfo
        ensures { result.now ≡ self.now.user }
    {
        &self.user
    }

    // Sends a request and takes the reply to it.
    pub(crate) fn ask(&mut self, request: &Request<'_>) -> Result<(), SessionFault>
        requires { IsRequest (request_value request.now) }
        ensures asked { AsksNoId (request_value request.now) → AsksOne L.talk L.since L.fault L.downs
            (act (request_value request.now)) self.old self.new }
        ensures stops { Stops L.talk L.since L.fault L.downs (text (act (request_value request.now))
            ∷ [])
            self.old.link self.new.link }
        ensures answered { OnOk result (HasAnswer (L.talk self.old.link)
            (text (act (request_value request.now))) self.new.reply (L.talk self.new.link)) }
        ensures fault { result ≡ answer_by (L.fault self.new.link) (Ok tt) }
        ensures follows { Follows L.Link (asks_bytes (request_value request.now)) self.old.link
            self.new.link (mapped (λ done. self.new.reply) result) }
        ensures rest { (self.new.user ≡ self.old.user) × (self.new.abandoned ≡ self.old.abandoned) }
    {
        write_request(request, &mut self.request);
        if let Err(fault) = self.link.exchange(&self.request, &mut self.reply) {
            return Err(of_link(fault));
        }
        Ok(())
    }

    // The last reply.
    pub(crate) fn reply(&self) -> &[u8]
        ensures { result.now ≡ self.now.reply }
    {
        self.reply.bytes()
    }

    // The last reply is taken for none.
    pub(crate) fn forget_reply(&mut self)
        ensures { self.new ≡ record self.old { reply = [] } }
    {
        self.reply.clear();
    }

    // An open database is left without being closed.
    pub(crate) fn abandon(&mut self)
        ensures { self.new ≡ record self.old { abandoned = true } }
    {
        self.abandoned = true;
    }

    // A session over a link that has begun, with no user yet.
    pub(crate) fn begin(link: L, request: Message, reply: Message) -> Linked<L>
        requires { L.begun link ≡ true }
        ensures link { result.link ≡ link }
        ensures abandoned { result.abandoned ≡ false }
    {
        Linked {
            link,
            request,
            reply,
            user: no_user(),
            abandoned: false,
        }
    }

    // The handheld's user is known.
    pub(crate) fn set_user(&mut self, user: UserInfo)
        ensures { self.new ≡ record self.old { user = user } }
    {
        self.user = user;
    }

    // The link, once no more is said.
    pub(crate) fn into_link(self) -> L
        ensures { result ≡ self.link }
    {
        let Linked {
            link,
            request: _,
            reply: _,
            user: _,
            abandoned: _,
        } = self;
        link
    }
}

// No user.
fn no_user() -> UserInfo {
    let Some(name) = UserName::new(b"") else {
        unreachable!();
    };
    let Some(password) = Password::new(b"") else {
        unreachable!();
    };
    UserInfo {
        user: 0,
        viewer: 0,
        pc: 0,
        good: PalmDate::of_seconds(0),
        last: PalmDate::of_seconds(0),
        name,
        password,
    }
}
