// How a session begins.
ghost use Rattle.std.specs.Prelude.{◌≡◌, ◌≤◌, ◌∷◌, ◌⊎◌, [], IfErr, OnOk, length};
ghost use Rattle.dlp_replies.specs.ReplyReading.{reply_at};
ghost use Rattle.desktop_session.specs.Acts.{text};
ghost use Rattle.desktop_session.specs.Answers.{answer_by, no_more, said_in, user_of};
ghost use Rattle.desktop_session.specs.Following.{Follows};
ghost use Rattle.desktop_session.specs.Greeted.{asks_conduits, asks_user, greets};
ghost use Rattle.desktop_session.specs.Greetings.{AsksUser, AnswersGreeting, HasSlot, user_by, user_with};
ghost use Rattle.desktop_session.specs.Lasts.{IsByLastReply};
ghost use Rattle.desktop_session.specs.Requests.{beginning, reading_user};
ghost use Rattle.desktop_session.specs.Seats.{seat_for as seat_of};
ghost use Rattle.desktop_session.specs.Stops.{AsksOne, Does, Stops};

use crate::fault::SessionFault;
use crate::linked::Linked;
use crate::replies::{done_in, user_in};
use crate::seat::{UserWish, seat_for};
use dlp_commands::{Link, Request};
use pdb_values::{Marks, Slot, UserInfo};

impl<L: Link> Linked<L> {
    // Asks for the user, who is to have a slot.
    #[tactic(auto, using(crate::proofs::RequestFits::user_fits, crate::proofs::AnswerLaws::answer_said, crate::proofs::AnswerLaws::answer_failed))]
    fn ask_user(&mut self, marks: &[Marks], wish: &UserWish) -> Result<UserInfo, SessionFault>
        requires some { 1 ≤ length marks.now }
        requires room { length marks.now ≤ 16 }
        ensures asked { AsksOne L.talk L.since L.fault L.downs reading_user self.old self.new }
        ensures answer { result ≡ answer_by (L.fault self.new.link)
            (user_by marks.now wish.now (said_in 0x10 user_of (reply_at 0x10 self.new.reply))) }
        ensures follows { Follows L.Link (asks_user marks.now wish.now) self.old.link self.new.link result }
        ensures last { IfErr result (IsByLastReply (L.talk self.new.link)) }
    {
        self.ask(&Request::ReadUserInfo)?;
        let user = user_in(self.reply())?;
        with_slot(user, marks, wish)
    }

    // Says that the conduits begin.
    #[tactic(auto, using(crate::proofs::RequestFits::begin_fits, crate::proofs::AnswerLaws::answer_said, crate::proofs::AnswerLaws::answer_failed))]
    fn ask_conduits(&mut self) -> Result<(), SessionFault>
        ensures asked { AsksOne L.talk L.since L.fault L.downs beginning self.old self.new }
        ensures answer { result ≡ answer_by (L.fault self.new.link)
            (said_in 0x2E no_more (reply_at 0x2E self.new.reply)) }
        ensures follows { Follows L.Link asks_conduits self.old.link self.new.link result }
        ensures last { IfErr result (IsByLastReply (L.talk self.new.link)) }
    {
        self.ask(&Request::OpenConduit)?;
        done_in(0x2E, self.reply())
    }
}

// The user, who is to have a slot.
fn with_slot(user: UserInfo, marks: &[Marks], wish: &UserWish) -> Result<UserInfo, SessionFault>
    requires some { 1 ≤ length marks.now }
    requires room { length marks.now ≤ 16 }
    ensures { result ≡ user_with marks.now user (seat_of marks.now wish.now user) }
{
    match seat_for(marks, wish, &user) {
        Slot::Old(_) | Slot::New => Ok(user),
        Slot::Refused => Err(SessionFault::OtherUser {
            handheld: user.user,
            desktop: marks[0].user,
        }),
        Slot::Full => Err(SessionFault::TooManyUsers),
    }
}

impl<L: Link> Linked<L> {
    // Reads the user, finds its slot, and says that the conduits begin.
    pub(crate) fn greet(
        &mut self,
        marks: &[Marks],
        wish: &UserWish,
    ) -> Result<UserInfo, SessionFault>
        requires some { 1 ≤ length marks.now }
        requires room { length marks.now ≤ 16 }
        ensures stops { Stops L.talk L.since L.fault L.downs (text reading_user ∷ text beginning
            ∷ [])
            self.old.link self.new.link }
        ensures does { OnOk result (Does L.talk (reading_user ∷ beginning ∷ []) self.old.link
            self.new.link) }
        ensures greeted { AnswersGreeting marks.now wish.now (L.talk self.old.link) (L.fault
            self.new.link) result }
        ensures follows { Follows L.Link (greets marks.now wish.now) self.old.link self.new.link result }
        ensures unseated { AsksUser L.talk L.since L.fault L.downs self.old.link self.new.link
            ⊎ HasSlot marks.now wish.now (L.talk self.old.link) }
        ensures last { IfErr result (IsByLastReply (L.talk self.new.link)) }
        ensures abandoned { self.new.abandoned ≡ self.old.abandoned }
    {
        let user = self.ask_user(marks, wish)?;
        self.ask_conduits()?;
        Ok(user)
    }
}
