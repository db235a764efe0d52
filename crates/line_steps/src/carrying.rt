//! A message goes over to the other end.
ghost use Rattle.std.specs.Prelude.{◌≡◌, ◌≤◌, OnOk, IfOk, IfErr, false, length};
ghost use Rattle.padp_link.specs.Pieces.{piece_count};
ghost use Rattle.padp_link.specs.Senders.{Waits};
ghost use Rattle.line_laws.specs.Progress.{IsBlocked};
ghost use Rattle.trace_text.specs.Fates.{fate_value};
ghost use Rattle.trace_text.specs.Talks.{Talk};
ghost use Rattle.trace_text.specs.declared.frame.End.TheVariants.{Desktop};
ghost use Rattle.line_steps.specs.Adding.{AddsTwo, IsFirst};
ghost use Rattle.line_steps.specs.Advancing.{Advances, FallsShort, StandsStill};
ghost use Rattle.line_steps.specs.Carrying.{HasMessage, SameMessage, StepTo, IsNext, makes_whole};
ghost use Rattle.line_steps.specs.Counting.{CountsTaken};
ghost use Rattle.line_steps.specs.Halting.{HaltsBetween};
ghost use Rattle.line_steps.specs.Rooms.{WantsRoom};
ghost use Rattle.line_steps.specs.Running.{Holds, AtHead, AllGo, SamePlace, past_now};
ghost use Rattle.line_steps.specs.Telling.{KeepsTalk, RecordsFrames, Talks};
ghost use Rattle.line_steps.specs.Turning.{Turn};
ghost use Rattle.line_steps.specs.Underway.{Underway};

use crate::half::{Half, Wire};
use crate::hearing::Heard;
use crate::sending::Halt;
use crate::skipping::skip_to_head;
use crate::taking::take_next;
use crate::ticking::{delivers, tick};
use line_script::Script;
use padp_link::Taken;
use trace_text::{End, Fate};

/// Carries the message of the end `x`, which was begun, over to the other end. A frame has the fate that the script gives
/// its number.
pub fn carry(wire: &mut Wire, x: &mut Half, y: &mut Half, script: &Script) -> Result<(), Halt>
    requires holds { Holds wire.old x.old y.old }
    requires underway { Underway wire.old x.old y.old }
    ensures recorded { RecordsFrames script.now wire.old x.old y.old →
        RecordsFrames script.now wire.new x.new y.new }
    ensures counted { CountsTaken wire.old x.old y.old → CountsTaken wire.new x.new y.new }
    ensures carried { OnOk result (HasMessage wire.new x.new y.new) }
    ensures x_same { OnOk result (SameMessage x.old x.new) }
    ensures y_same { OnOk result (SameMessage y.old y.new) }
    ensures talks { OnOk result (KeepsTalk wire.old x.old y.old wire.new x.new y.new) }
    ensures halted { IfErr result
        (λ halt. HaltsBetween halt wire.old x.old y.old wire.new x.new y.new) }
    ensures advances { Advances wire.old x.old y.old wire.new x.new y.new }
    ensures short { IfErr result (λ halt. (talk : Talk) → Talks talk wire.old x.old y.old →
        FallsShort halt talk wire.new x.new) }
    ensures room { WantsRoom result wire.old.frames wire.new.frames }
{
    loop {
        if step(wire, x, y, script)? {
            return Ok(());
        }
    }
}

/// Lets the line run on until the end `x`, whose message the other end took whole, waits for nothing.
pub fn settle(wire: &mut Wire, x: &mut Half, y: &mut Half, script: &Script) -> Result<(), Halt>
    requires turn { Turn wire.old y.old x.old }
    requires waits { Waits x.old.sender }
    ensures recorded { RecordsFrames script.now wire.old x.old y.old →
        RecordsFrames script.now wire.new x.new y.new }
    ensures counted { CountsTaken wire.old x.old y.old → CountsTaken wire.new x.new y.new }
    ensures turn { OnOk result (Turn wire.new x.new y.new) }
    ensures idle { OnOk result (piece_count (length y.new.message)
        ≤ y.new.sender.acknowledged) }
    ensures x_same { OnOk result (SameMessage x.old x.new) }
    ensures y_same { OnOk result (SameMessage y.old y.new) }
    ensures talks { OnOk result (KeepsTalk wire.old x.old y.old wire.new x.new y.new) }
    ensures halted { IfErr result
        (λ halt. HaltsBetween halt wire.old x.old y.old wire.new x.new y.new) }
    ensures room { WantsRoom result wire.old.frames wire.new.frames }
{
    loop {
        if x.sender.current().is_none() {
            return Ok(());
        }
        step(wire, x, y, script)?;
    }
}

/// Delivers the next frame, or lets time pass, while `x` waits. Whether its message is over.
fn step(wire: &mut Wire, x: &mut Half, y: &mut Half, script: &Script) -> Result<bool, Halt>
    requires holds { Holds wire.old x.old y.old }
    requires waits { Waits x.old.sender }
    ensures recorded { RecordsFrames script.now wire.old x.old y.old →
        RecordsFrames script.now wire.new x.new y.new }
    ensures counted { CountsTaken wire.old x.old y.old → CountsTaken wire.new x.new y.new }
    ensures halted { IfErr result
        (λ halt. HaltsBetween halt wire.old x.old y.old wire.new x.new y.new) }
    ensures step { IfOk result (λ whole. StepTo whole wire.old x.old y.old wire.new x.new y.new) }
    ensures advances { Advances wire.old x.old y.old wire.new x.new y.new }
    ensures still { IfErr result (λ halt. StandsStill halt wire.old x.old wire.new x.new) }
    ensures room { WantsRoom result wire.old.frames wire.new.frames }
{
    skip_to_head(wire, x, y);
    skip_to_head(wire, y, x);
    deliver(wire, x, y, script)
}

/// The same where both ends are at their next frames that come.
fn deliver(wire: &mut Wire, x: &mut Half, y: &mut Half, script: &Script) -> Result<bool, Halt>
    requires holds { Holds wire.old x.old y.old }
    requires waits { Waits x.old.sender }
    requires x_head { AtHead x.old.end wire.old.frames.items x.old.taken }
    requires y_head { AtHead y.old.end wire.old.frames.items y.old.taken }
    ensures recorded { RecordsFrames script.now wire.old x.old y.old →
        RecordsFrames script.now wire.new x.new y.new }
    ensures counted { CountsTaken wire.old x.old y.old → CountsTaken wire.new x.new y.new }
    ensures halted { IfErr result
        (λ halt. HaltsBetween halt wire.old x.old y.old wire.new x.new y.new) }
    ensures step { IfOk result (λ whole. StepTo whole wire.old x.old y.old wire.new x.new y.new) }
    ensures advances { Advances wire.old x.old y.old wire.new x.new y.new }
    ensures still { IfErr result (λ halt. StandsStill halt wire.old x.old wire.new x.new) }
    ensures room { WantsRoom result wire.old.frames wire.new.frames }
{
    let number = wire.frames.len() as u64 + 1;
    let fate = script.fate(number);
    match next_of(wire, x, y) {
        Next::Own => {
            let heard = take_next(wire, x, y, fate)?;
            Ok(is_whole(heard))
        }
        Next::Other => {
            take_next(wire, y, x, fate)?;
            Ok(false)
        }
        Next::Nothing => {
            let other = script.fate(number + 1);
            wait(wire, x, y, fate, other)?;
            Ok(false)
        }
    }
}

/// Whose frame is delivered next: the lower one of those that aren't held.
enum Next {
    Own,
    Other,
    Nothing,
}

fn next_of(wire: &Wire, x: &Half, y: &Half) -> Next
    requires go { AllGo 1 wire.now.frames.items }
    requires x_head { AtHead x.now.end wire.now.frames.items x.now.taken }
    requires y_head { AtHead y.now.end wire.now.frames.items y.now.taken }
    ensures { IsNext wire.now x.now y.now result }
{
    match (delivers(wire, x), delivers(wire, y)) {
        (true, true) => {
            if x.taken < y.taken {
                Next::Own
            } else {
                Next::Other
            }
        }
        (true, false) => Next::Own,
        (false, true) => Next::Other,
        (false, false) => Next::Nothing,
    }
}

/// Whether what was heard made the message whole.
fn is_whole(heard: Heard) -> bool
    ensures { result ≡ makes_whole heard }
{
    match heard {
        Heard::Data(_, Taken::Whole) => true,
        _ => false,
    }
}

/// Lets time pass while `x` waits. The desktop's timer runs first.
fn wait(wire: &mut Wire, x: &mut Half, y: &mut Half, fate: &Fate, other: &Fate) -> Result<(), Halt>
    requires holds { Holds wire.old x.old y.old }
    requires waits { Waits x.old.sender }
    requires x_blocked { IsBlocked x.old.end
        (past_now wire.old.frames.items) x.old.taken wire.old.released }
    requires y_blocked { IsBlocked y.old.end
        (past_now wire.old.frames.items) y.old.taken wire.old.released }
    ensures adds { AddsTwo (fate_value fate.now) (fate_value other.now)
        wire.old.frames.items wire.new.frames.items }
    // The first frame more is the desktop's where it waits.
    ensures own_first { x.old.end ≡ Desktop →
        IsFirst Desktop wire.old.frames.items wire.new.frames.items }
    ensures other_first { y.old.end ≡ Desktop → Waits y.old.sender →
        IsFirst Desktop wire.old.frames.items wire.new.frames.items }
    ensures x_place { SamePlace x.old x.new }
    ensures y_place { SamePlace y.old y.new }
    ensures x_reader { x.new.reader ≡ x.old.reader }
    ensures y_reader { y.new.reader ≡ y.old.reader }
    ensures halted { IfErr result
        (λ halt. HaltsBetween halt wire.old x.old y.old wire.new x.new y.new) }
    ensures step { OnOk result (StepTo false wire.old x.old y.old wire.new x.new y.new) }
    ensures room { WantsRoom result wire.old.frames wire.new.frames }
{
    match x.end {
        End::Desktop => tick(wire, x, y, fate, other),
        End::Handheld => tick(wire, y, x, fate, other),
    }
}
