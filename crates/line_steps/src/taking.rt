//! An end takes the next frame of the other one.
ghost use Rattle.std.specs.Prelude.{◌≡◌, ◌+◌, ◌≤◌, ◌<◌, [], OnOk, IfOk, IfErr, false, true, length};
ghost use Rattle.padp_link.specs.Pieces.{piece_count};
ghost use Rattle.padp_link.specs.Senders.{Waits, WaitsOnLast};
ghost use Rattle.slp_frames.specs.PacketScan.{packet_at};
ghost use Rattle.trace_text.specs.Fates.{fate_value, arrives, ends_run};
ghost use Rattle.trace_text.specs.Frames.{BearsFragment, fragment_in};
ghost use Rattle.trace_text.specs.Lent.{lent_frame};
ghost use Rattle.line_steps.specs.Adding.{AddsOne};
ghost use Rattle.line_steps.specs.Advancing.{IsUp};
ghost use Rattle.line_steps.specs.Counting.{Lands, landed};
ghost use Rattle.line_steps.specs.Halting.{HaltsBetween};
ghost use Rattle.line_steps.specs.Hearing.{Hears};
ghost use Rattle.trace_text.specs.FrameLogs.{marked};
ghost use Rattle.line_steps.specs.Marking.{Marks};
ghost use Rattle.line_steps.specs.Rooms.{WantsRoom};
ghost use Rattle.line_steps.specs.Running.{Holds, MovesReceiver, Stays};
ghost use Rattle.line_steps.specs.Taking.{Delivers, AckNext, DataHeard};
ghost use Rattle.line_steps.specs.Turning.{TurnAfter, TurnBehind};
ghost use Rattle.line_steps.specs.Underway.{StillUnderway};
ghost use Rattle.line_steps.specs.Working.{work_left};
ghost use Rattle.line_steps.specs.declared.hearing.Heard.TheVariants as heard_as;

use crate::half::{Half, Wire};
use crate::hearing::{Heard, hear, hear_harm};
use crate::pieces::{send_ack, send_piece};
use crate::sending::Halt;
use padp_link::{Key, Sender, Taken};
use trace_text::{Fate, FrameLent};

/// The end `y` takes the next frame of the end `x`. What it sends then, an acknowledgement or its next piece, has this fate.
pub fn take_next(wire: &mut Wire, x: &mut Half, y: &mut Half, fate: &Fate) -> Result<Heard, Halt>
    requires holds { Holds wire.old x.old y.old }
    requires next { Delivers x.old.end wire.old x.old.taken }
    ensures holds { OnOk result (Holds wire.new x.new y.new) }
    ensures turn { IfOk result (λ heard. TurnBehind heard wire.new y.new x.new) }
    ensures moved { x.new ≡ record x.old { taken = x.old.taken + 1 } }
    ensures stays { Stays y.old y.new }
    ensures lands { Lands x.old.taken wire.old y.old y.new }
    ensures underway { IfOk result
        (λ heard. StillUnderway heard wire.old x.old y.old wire.new x.new y.new) }
    ensures adds { AddsOne (fate_value fate.now)
        (marked x.old.taken wire.old.frames.items) wire.new.frames.items }
    ensures halted { IfErr result
        (λ halt. HaltsBetween halt wire.old x.old y.old wire.new x.new y.new) }
    ensures up { IfErr result (λ halt. IsUp halt) }
    ensures less { OnOk result (work_left wire.new x.new y.new < work_left wire.old x.old y.old) }
    ensures room { WantsRoom result wire.old.frames wire.new.frames }
{
    mark(wire, x.taken);
    take_marked(wire, x, y, fate)
}

/// The same where the frame bears the mark already.
fn take_marked(wire: &mut Wire, x: &mut Half, y: &mut Half, fate: &Fate) -> Result<Heard, Halt>
    requires holds { Holds wire.old x.old y.old }
    requires next { Delivers x.old.end wire.old x.old.taken }
    ensures holds { OnOk result (Holds wire.new x.new y.new) }
    ensures turn { IfOk result (λ heard. TurnBehind heard wire.new y.new x.new) }
    ensures moved { x.new ≡ record x.old { taken = x.old.taken + 1 } }
    ensures stays { Stays y.old y.new }
    ensures lands { Lands x.old.taken wire.old y.old y.new }
    ensures underway { IfOk result
        (λ heard. StillUnderway heard wire.old x.old y.old wire.new x.new y.new) }
    ensures adds { AddsOne (fate_value fate.now) wire.old.frames.items wire.new.frames.items }
    ensures halted { IfErr result
        (λ halt. HaltsBetween halt wire.old x.old y.old wire.new x.new y.new) }
    ensures up { IfErr result (λ halt. IsUp halt) }
    ensures less { OnOk result (work_left wire.new x.new y.new < work_left wire.old x.old y.old) }
    ensures room { WantsRoom result wire.old.frames wire.new.frames }
{
    let heard = hear_frame(wire.frames.get(x.taken), y);
    match heard {
        Heard::Ack(key) => take_ack(wire, x, y, key, fate)?,
        Heard::Data(key, taken) => take_data(wire, x, y, key, taken, fate)?,
        Heard::Nothing => {}
    }
    Ok(heard)
}

/// Marks the frame behind so many: it came.
fn mark(wire: &mut Wire, place: usize)
    requires { place < length wire.old.frames.items }
    ensures { Marks place wire.old wire.new }
{
    wire.frames.mark(place);
}

/// Gives a frame that comes to an end, behind its noise.
fn hear_frame(frame: FrameLent<'_>, half: &mut Half) -> Heard
    requires gap { half.old.reader.held ≡ [] }
    requires goes { ends_run (lent_frame frame).fate (lent_frame frame).bytes ≡ false }
    requires bears { BearsFragment (lent_frame frame) }
    ensures hears { Hears half.old.receiver
        (packet_at (lent_frame frame.entry).bytes).id (fragment_in
        (lent_frame frame.entry)) result half.new.receiver }
    ensures heeded { MovesReceiver half.old half.new }
    ensures gap { half.new.reader.held ≡ [] }
    ensures tally { arrives (lent_frame frame.entry).fate ≡ true →
        half.new.reader.tally ≡ landed (lent_frame frame.entry) half.old.reader.tally }
{
    hear_harm(frame, half);
    hear(&mut half.reader, &mut half.receiver, frame.bytes)
}

/// Takes an acknowledgement. The next piece goes where it is that of the waiting one, if there is one.
fn take_ack(wire: &mut Wire, x: &mut Half, y: &mut Half, key: Key, fate: &Fate) -> Result<(), Halt>
    requires holds { Holds wire.old x.old y.old }
    requires next { AckNext x.old.end wire.old x.old.taken key }
    ensures holds { OnOk result (Holds wire.new x.new y.new) }
    ensures underway { OnOk result
        (StillUnderway (heard_as.Ack key) wire.old x.old y.old wire.new x.new y.new) }
    ensures adds { AddsOne (fate_value fate.now) wire.old.frames.items wire.new.frames.items }
    ensures halted { IfErr result
        (λ halt. HaltsBetween halt wire.old x.old y.old wire.new x.new y.new) }
    ensures up { IfErr result (λ halt. IsUp halt) }
    ensures less { OnOk result (work_left wire.new x.new y.new < work_left wire.old x.old y.old) }
    ensures moved { x.new ≡ record x.old { taken = x.old.taken + 1 } }
    ensures stays { Stays y.old y.new }
    ensures reader { y.new.reader ≡ y.old.reader }
    ensures room { WantsRoom result wire.old.frames wire.new.frames }
{
    // The cursor stays within the frames, of which there are fewer than 2^63.
    let _sent = wire.frames.len();
    x.taken += 1;
    if !y.sender.on_ack(key) {
        return Ok(());
    }
    if y.sender.current().is_none() {
        return Ok(());
    }
    send_piece(wire, y, fate)
}

/// Acknowledges data that its receiver took. A piece of its own that waits was answered where the data is new.
fn take_data(
    wire: &mut Wire,
    x: &mut Half,
    y: &mut Half,
    key: Key,
    taken: Taken,
    fate: &Fate,
) -> Result<(), Halt>
    requires { DataHeard wire.old x.old y.old key taken }
    ensures holds { OnOk result (Holds wire.new x.new y.new) }
    ensures turn { OnOk result (TurnAfter taken wire.new y.new x.new) }
    ensures underway { OnOk result
        (StillUnderway (heard_as.Data key taken) wire.old x.old y.old wire.new x.new y.new) }
    ensures adds { AddsOne (fate_value fate.now) wire.old.frames.items wire.new.frames.items }
    ensures halted { IfErr result
        (λ halt. HaltsBetween halt wire.old x.old y.old wire.new x.new y.new) }
    ensures up { IfErr result (λ halt. IsUp halt) }
    ensures less { OnOk result (work_left wire.new x.new y.new < work_left wire.old x.old y.old) }
    ensures moved { x.new ≡ record x.old { taken = x.old.taken + 1 } }
    ensures stays { Stays y.old y.new }
    ensures reader { y.new.reader ≡ y.old.reader }
    ensures room { WantsRoom result wire.old.frames wire.new.frames }
{
    // The cursor stays within the frames, of which there are fewer than 2^63.
    let _sent = wire.frames.len();
    x.taken += 1;
    match taken {
        Taken::Dropped => return Ok(()),
        Taken::Repeated => {}
        Taken::Accepted | Taken::Whole => stop_waiting(&mut y.sender),
    }
    send_ack(wire, y.end, key, fate)
}

/// What waits was answered.
fn stop_waiting(sender: &mut Sender)
    requires { Waits sender.old → WaitsOnLast sender.old }
    ensures idle { piece_count sender.new.length ≤ sender.new.acknowledged }
    ensures rest { sender.new ≡ record sender.old { acknowledged = sender.new.acknowledged } }
{
    if sender.current().is_some() {
        sender.on_answer();
    }
}
