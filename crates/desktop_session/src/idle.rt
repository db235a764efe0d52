// A session that has not begun.
ghost use Rattle.std.specs.Prelude.{◌≡◌, ◌≤◌, ◌∷◌, ◌⊎◌, [], IfErr, IfOk, false, length};
ghost use Rattle.desktop_session.specs.Acts.{text};
ghost use Rattle.desktop_session.specs.Ends.{link_begun, user_begun};
ghost use Rattle.desktop_session.specs.Following.{Follows};
ghost use Rattle.desktop_session.specs.Greeted.{greets};
ghost use Rattle.desktop_session.specs.Greetings.{AsksUser, AnswersGreeting, HasSlot};
ghost use Rattle.desktop_session.specs.Lasts.{IsByLastReply};
ghost use Rattle.desktop_session.specs.Requests.{beginning, reading_user};
ghost use Rattle.desktop_session.specs.Stops.{Does, Stops};

use crate::ending::Halted;
use crate::fault::{SessionFault, of_link};
use crate::linked::Linked;
use crate::seat::UserWish;
use dlp_commands::{Link, Message};
use pdb_values::Marks;
use std::alloc::{AllocError, Global};

/// A link over which nothing was said, with room for a request and a reply.
#[derive(Drop)]
pub struct Idle<L: Link> {
    pub(crate) link: L,
    request: Message,
    reply: Message,
}

impl<L: Link> Idle<L> {
    /// Takes two messages. Want of memory is the only refusal, and hands the link back.
    pub fn new(alloc: Global, link: L) -> Result<Idle<L>, Halted<L>>
        requires { L.begun link ≡ false }
        ensures ok { IfOk result (λ idle. idle.link ≡ link) }
        ensures err { IfErr result (λ halted. halted.link ≡ link) }
        ensures cause { IfErr result (λ halted. halted.cause ≡ SessionFault.NoMemory) }
    {
        match two_messages(alloc) {
            Ok((request, reply)) => Ok(Idle {
                link,
                request,
                reply,
            }),
            Err(AllocError) => Err(Halted {
                link,
                cause: SessionFault::NoMemory,
            }),
        }
    }

    /// Waits for the handheld's wake, reads its user, finds the slot for it by the marks of the
    /// desktop's slots, and says that the conduits begin. `wish` is what is asked of the user.
    pub fn hello(self, marks: &[Marks], wish: &UserWish) -> Result<Linked<L>, Halted<L>>
        requires begun { L.begun self.link ≡ false }
        requires some { 1 ≤ length marks.now }
        requires room { length marks.now ≤ 16 }
        // What went out, and where it stopped.
        ensures stops { Stops L.talk L.since L.fault L.downs (text reading_user ∷ text beginning
            ∷ [])
            self.link (link_begun result) }
        ensures does { IfOk result (λ linked. Does L.talk (reading_user ∷ beginning ∷ [])
            self.link linked.link) }

        // Over any link, also one that tells nothing: what is asked by the replies so far, and what the answer is by them.
        ensures follows { Follows L.Link (greets marks.now wish.now) self.link (link_begun result)
            (user_begun result) }

        // The user, or the cause of the refusal.
        ensures greeted { AnswersGreeting marks.now wish.now (L.talk self.link) (L.fault (link_begun result))
            (user_begun result) }
        ensures last { IfErr result (λ halted. IsByLastReply (L.talk halted.link) halted.cause) }
        // Nothing but the user is asked for unless the handheld's has a slot.
        ensures unseated { AsksUser L.talk L.since L.fault L.downs self.link (link_begun result)
            ⊎ HasSlot marks.now wish.now (L.talk self.link) }
        ensures open { IfOk result (λ linked. linked.abandoned ≡ false) }
    {
        let Idle {
            link,
            request,
            reply,
        } = self;
        let mut link = link;
        if let Err(fault) = link.hello() {
            return Err(Halted {
                link,
                cause: of_link(fault),
            });
        }
        let mut linked = Linked::begin(link, request, reply);
        match linked.greet(marks, wish) {
            Ok(user) => {
                linked.set_user(user);
                Ok(linked)
            }
            Err(cause) => Err(linked.halt(cause)),
        }
    }
}

// Two messages.
fn two_messages(alloc: Global) -> Result<(Message, Message), AllocError> {
    let request = Message::new(alloc)?;
    let reply = Message::new(alloc)?;
    Ok((request, reply))
}
