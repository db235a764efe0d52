// A session that is over.
ghost use Rattle.std.specs.Prelude.{◌≡◌, ◌∷◌, [], IfErr, IfOk, false};
ghost use Rattle.dlp_replies.specs.ReplyReading.{reply_at};
ghost use Rattle.desktop_session.specs.Acts.{text};
ghost use Rattle.desktop_session.specs.Answers.{answer_by, no_more, said_in};
ghost use Rattle.desktop_session.specs.Asking.{ends};
ghost use Rattle.desktop_session.specs.Ends.{AnswersEnding, end_of, link_ended};
ghost use Rattle.desktop_session.specs.Following.{Follows};
ghost use Rattle.desktop_session.specs.Lasts.{IsByLastReply};
ghost use Rattle.desktop_session.specs.Requests.{ending};
ghost use Rattle.desktop_session.specs.Stops.{AsksOne, Does, Stops};

use crate::fault::SessionFault;
use crate::linked::Linked;
use crate::replies::done_in;
use dlp_commands::{Link, Request};

/// A session that both sides ended. No further command can be sent.
#[derive(Drop)]
pub struct Ended<L> {
    pub link: L,
}

/// A session that stopped, and why. No further command can be sent.
#[derive(Drop)]
pub struct Halted<L> {
    pub link: L,
    pub cause: SessionFault,
}

#[tactic(auto, using(crate::proofs::RequestFits::end_fits, crate::proofs::AnswerLaws::answer_said, crate::proofs::AnswerLaws::answer_failed))]
impl<L: Link> Linked<L> {
    // Tells the handheld that all is done.
    fn end(&mut self) -> Result<(), SessionFault>
        ensures asked { AsksOne L.talk L.since L.fault L.downs ending self.old self.new }
        ensures answer { result ≡ answer_by (L.fault self.new.link)
            (said_in 0x2F no_more (reply_at 0x2F self.new.reply)) }
        ensures follows { Follows L.Link ends self.old.link self.new.link result }
        ensures last { IfErr result (IsByLastReply (L.talk self.new.link)) }
    {
        self.ask(&Request::EndOfSync { status: 0 })?;
        done_in(0x2F, self.reply())
    }

    /// Ends the session on both sides.
    pub fn finish(self) -> Result<Ended<L>, Halted<L>>
        requires { self.abandoned ≡ false }
        ensures stops { Stops L.talk L.since L.fault L.downs (text ending ∷ []) self.link
            (link_ended result) }
        ensures does { IfOk result (λ ended. Does L.talk (ending ∷ []) self.link ended.link) }
        ensures follows { Follows L.Link ends self.link (link_ended result) (end_of result) }
        ensures answer { AnswersEnding (L.talk self.link) (L.fault (link_ended result)) (end_of result) }
        ensures last { IfErr result (λ halted. IsByLastReply (L.talk halted.link) halted.cause) }
    {
        let mut linked = self;
        match linked.end() {
            Ok(()) => Ok(Ended {
                link: linked.into_link(),
            }),
            Err(cause) => Err(linked.halt(cause)),
        }
    }

    /// Stops the session, for a cause of the caller's. It sends nothing.
    pub fn halt(self, cause: SessionFault) -> Halted<L>
        ensures link { result.link ≡ self.link }
        ensures cause { result.cause ≡ cause }
    {
        Halted {
            link: self.into_link(),
            cause,
        }
    }
}
