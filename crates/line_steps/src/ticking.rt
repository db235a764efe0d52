//! What happens where nothing can be delivered.
ghost use Rattle.std.specs.Prelude.{◌≡◌, ◌⊎◌, ◌<◌, OnOk, IfErr, IsTrue, false, length};
ghost use Rattle.padp_link.specs.Senders.{Waits};
ghost use Rattle.line_laws.specs.Progress.{IsBlocked};
ghost use Rattle.line_steps.specs.Adding.{AddsOne, AddsTwo, IsFirst};
ghost use Rattle.line_steps.specs.Halting.{HaltsBetween, NotAgain};
ghost use Rattle.line_steps.specs.Rooms.{WantsRoom};
ghost use Rattle.line_steps.specs.Running.{AllGo, AtHead, Holds, IsHalf, Stays, past_now};
ghost use Rattle.line_steps.specs.Taking.{Delivers};
ghost use Rattle.line_steps.specs.Ticking.{SendsAgain};
ghost use Rattle.line_steps.specs.Underway.{StillUnderway};
ghost use Rattle.line_steps.specs.Working.{work_left};
ghost use Rattle.line_steps.specs.declared.hearing.Heard.TheVariants.{Nothing};
ghost use Rattle.trace_text.specs.Fates.{fate_value};

use crate::half::{Half, Wire};
use crate::pieces::send_piece;
use crate::sending::Halt;
use trace_text::{Fate, FateKind};

/// Whether the next frame of an end can be delivered. It can't where there is none, or where it is held.
pub fn delivers(wire: &Wire, half: &Half) -> bool
    requires go { AllGo 1 wire.now.frames.items }
    requires head { AtHead half.now.end wire.now.frames.items half.now.taken }
    ensures there { IsTrue result → Delivers half.now.end wire.now half.now.taken }
    ensures blocked { result ≡ false →
        IsBlocked half.now.end (past_now wire.now.frames.items) half.now.taken wire.now.released }
{
    if half.taken == wire.frames.len() {
        return false;
    }
    match wire.frames.get(half.taken).fate.kind {
        FateKind::Late => half.taken < wire.released,
        _ => true,
    }
}

/// Lets the time pass that a waiting end waits, where nothing can be delivered: what is held is held no more, and each
/// waiting end sends its piece again, `x` first. The first frame that is sent has this fate, the second one the other.
pub fn tick(
    wire: &mut Wire,
    x: &mut Half,
    y: &mut Half,
    fate: &Fate,
    other: &Fate,
) -> Result<(), Halt>
    requires holds { Holds wire.old x.old y.old }
    requires x_blocked { IsBlocked x.old.end
        (past_now wire.old.frames.items) x.old.taken wire.old.released }
    requires y_blocked { IsBlocked y.old.end
        (past_now wire.old.frames.items) y.old.taken wire.old.released }
    requires waits { Waits x.old.sender ⊎ Waits y.old.sender }
    ensures holds { OnOk result (Holds wire.new x.new y.new) }
    ensures less { OnOk result (work_left wire.new x.new y.new < work_left wire.old x.old y.old) }
    ensures adds { AddsTwo (fate_value fate.now) (fate_value other.now)
        wire.old.frames.items wire.new.frames.items }
    ensures first { Waits x.old.sender →
        IsFirst x.old.end wire.old.frames.items wire.new.frames.items }
    ensures halted { IfErr result
        (λ halt. HaltsBetween halt wire.old x.old y.old wire.new x.new y.new) }
    ensures x_stays { Stays x.old x.new }
    ensures y_stays { Stays y.old y.new }
    ensures x_reader { x.new.reader ≡ x.old.reader }
    ensures y_reader { y.new.reader ≡ y.old.reader }
    ensures underway { OnOk result
        (StillUnderway Nothing wire.old x.old y.old wire.new x.new y.new) }
    ensures room { WantsRoom result wire.old.frames wire.new.frames }
{
    wire.released = wire.frames.len();
    if x.sender.current().is_none() {
        return send_again(wire, y, fate);
    }
    send_again(wire, x, fate)?;
    if y.sender.current().is_none() {
        return Ok(());
    }
    send_again(wire, y, other)
}

/// Sends the waiting piece of an end again, unless it was sent ten times.
fn send_again(wire: &mut Wire, half: &mut Half, fate: &Fate) -> Result<(), Halt>
    requires waits { Waits half.old.sender }
    requires half { IsHalf half.old }
    ensures adds { AddsOne (fate_value fate.now) wire.old.frames.items wire.new.frames.items }
    ensures first { IsFirst half.old.end wire.old.frames.items wire.new.frames.items }
    ensures halts { IfErr result
        (λ halt. NotAgain halt (fate_value fate.now) half.old wire.old wire.new) }
    ensures stays { Stays half.old half.new }
    ensures reader { half.new.reader ≡ half.old.reader }
    ensures again { OnOk result
        (SendsAgain wire.old half.old (fate_value fate.now) wire.new half.new) }
    ensures room { WantsRoom result wire.old.frames wire.new.frames }
{
    if half.sender.on_timer().is_err() {
        return Err(Halt::Down(half.end));
    }
    send_piece(wire, half, fate)
}
