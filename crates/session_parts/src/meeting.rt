// How both sides of a session meet.
ghost use Rattle.std.specs.Prelude.{◌≡◌, ◌≤◌, IfErr, false, length};
ghost use Rattle.desktop_session.specs.Following.{Follows};
ghost use Rattle.desktop_session.specs.Lasts.{IsByLastReply};
ghost use Rattle.session_parts.specs.Inquiries.{meets, met_of};
ghost use Rattle.session_parts.specs.Meets.{Meets, MeetsOrNot, link_met};

use desktop_session::{Halted, Idle, Linked, UserWish};
use dlp_commands::Link;
use pdb_values::{DbHead, Marks};
use std::alloc::Global;

/// A session that has begun, and what the handheld has.
#[derive(Drop)]
pub struct Met<L: Link> {
    /// The session, with no database open.
    pub linked: Linked<L>,
    /// The heads of the handheld's databases, without their seeds.
    pub heads: Vec<DbHead>,
}

/// Waits for the handheld's wake, reads its user, finds the slot for it by the marks of the desktop's slots, says that the conduits begin, and
/// lists the handheld's databases. `wish` is what is asked of the user.
pub fn meet<L: Link>(
    alloc: Global,
    idle: Idle<L>,
    marks: &[Marks],
    wish: &UserWish,
) -> Result<Met<L>, Halted<L>>
    requires begun { L.begun idle.link ≡ false }
    requires some { 1 ≤ length marks.now }
    requires room { length marks.now ≤ 16 }
    ensures follows { Follows L.Link (meets marks.now wish.now) idle.link (link_met result) (met_of result) }
    ensures meets { Meets L.talk L.since L.fault L.downs marks.now wish.now idle.link result }
    ensures last { IfErr result (λ halted. IsByLastReply (L.talk halted.link) halted.cause) }
{
    let mut linked = match idle.hello(marks, wish) {
        Ok(linked) => linked,
        Err(halted) => return Err(halted),
    };
    match linked.list(alloc) {
        Ok(heads) => Ok(Met { linked, heads }),
        Err(cause) => Err(linked.halt(cause)),
    }
}

/// Both sides meet over a link, where there is room for two messages.
pub fn meet_over<L: Link>(
    alloc: Global,
    link: L,
    marks: &[Marks],
    wish: &UserWish,
) -> Result<Met<L>, Halted<L>>
    requires begun { L.begun link ≡ false }
    requires some { 1 ≤ length marks.now }
    requires room { length marks.now ≤ 16 }
    ensures follows { Follows L.Link (meets marks.now wish.now) link (link_met result) (met_of result) }
    ensures meets { MeetsOrNot L.talk L.since L.fault L.downs marks.now wish.now link result }
    ensures last { IfErr result (λ halted. IsByLastReply (L.talk halted.link) halted.cause) }
{
    match Idle::new(alloc, link) {
        Ok(idle) => meet(alloc, idle, marks, wish),
        Err(halted) => Err(halted),
    }
}
