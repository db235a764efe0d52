//! A desktop's end says messages, and listens for what comes back.
ghost use Rattle.std.specs.Prelude.{◌≡◌, ◌≤◌, ◌∷◌, [], None, IsErrOf, Some, length};
ghost use Rattle.std.specs.Option.{unwrap_or};
ghost use Rattle.std.specs.Result.{result_err};
ghost use Rattle.hs_folders.specs.Causes.{HasCause};
ghost use Rattle.padp_link.specs.Receivers.{whole_of};
ghost use Rattle.port_link.specs.CableScenes.{scene_of};
ghost use Rattle.port_link.specs.Calls.{Converses, GoesOnFrom, Greets, Lingers, Says, is_quiet};
ghost use Rattle.port_link.specs.Desks.{Awaits, Begins};

use crate::awaited::Awaited;
use crate::cable::Cable;
use crate::greeting::{GREETING_ID, init, read_wake};
use crate::listening::listen;
use crate::port_cause::{PortCause, outcome, waking_outcome};
use crate::turn::Turn;
use dlp_args::Message;
use padp_end::End;
use port_line::{Port, PortFault};
use slp_frames::SlpReader;

/// How many ticks it lingers at most.
const TICKS: u32 = 10;

/// Awaits a wake and says the init until it is acknowledged. Answers the wake's rate.
pub(crate) fn greet<P: Port>(cable: &mut Cable<P>, reader: &mut SlpReader) -> Result<u32, PortCause>
    ensures greets { Greets
        (scene_of P.Port cable.old reader.old.held) (scene_of P.Port cable.new reader.new.held) result }
    ensures paths { P.paths cable.new.port ≡ P.paths cable.old.port }
    ensures cause { HasCause (P.faults cable.old.port) (P.faults cable.new.port)
        (result_err result ≡ Some PortCause.PortFailed) }
{
    cable.desk.expect(GREETING_ID);
    match waking_outcome(listen(cable, reader, Awaited::Wake)) {
        Ok(()) => answer_wake(cable, reader),
        Err(cause) => Err(cause),
    }
}

// A first message is whole: where it is a wake the init is said until it is acknowledged.
fn answer_wake<P: Port>(cable: &mut Cable<P>, reader: &mut SlpReader) -> Result<u32, PortCause>
    ensures goes_on { GoesOnFrom None
        (scene_of P.Port cable.old reader.old.held) (scene_of P.Port cable.new reader.new.held) result }
    ensures paths { P.paths cable.new.port ≡ P.paths cable.old.port }
    ensures cause { HasCause (P.faults cable.old.port) (P.faults cable.new.port)
        (result_err result ≡ Some PortCause.PortFailed) }
{
    let rate = match read_wake(whole(&cable.desk.end)) {
        Ok(rate) => rate,
        Err(cause) => return Err(cause),
    };
    let answer = say(cable, reader, GREETING_ID, &init(), Awaited::Delivery);
    match outcome(answer) {
        Ok(()) => Ok(rate),
        Err(cause) => Err(cause),
    }
}

/// Says a request under this transaction, and takes the reply to it.
pub(crate) fn converse<P: Port>(
    cable: &mut Cable<P>,
    reader: &mut SlpReader,
    id: u8,
    request: &Message,
    reply: &mut Message,
) -> Result<(), PortCause>
    ensures short { length request.now ≤ 65535 }
    ensures converses { Converses id request.now reply.new
        (scene_of P.Port cable.old reader.old.held) (scene_of P.Port cable.new reader.new.held)
        (result_err result) }
    ensures paths { P.paths cable.new.port ≡ P.paths cable.old.port }
    ensures cause { HasCause (P.faults cable.old.port) (P.faults cable.new.port)
        (result_err result ≡ Some PortCause.PortFailed) }
{
    cable.desk.expect(id);
    let answer = say(cable, reader, id, request.bytes(), Awaited::Message);
    match outcome(answer) {
        Ok(()) => {
            take_whole(&cable.desk.end, reply);
            Ok(())
        }
        Err(cause) => Err(cause),
    }
}

/// Acknowledges what the other end repeats, until three ticks in a row brought nothing, or ten in
/// all.
pub(crate) fn linger<P: Port>(cable: &mut Cable<P>, reader: &mut SlpReader)
    ensures lingers { Lingers
        (scene_of P.Port cable.old reader.old.held) (scene_of P.Port cable.new reader.new.held) }
    ensures paths { P.paths cable.new.port ≡ P.paths cable.old.port }
    ensures later { P.faults cable.old.port ≤ P.faults cable.new.port }
{
    cable.desk.linger();
    for tick in 0..TICKS {
        if !bears(listen(cable, reader, Awaited::Tick)) {
            return;
        }
    }
}

// Whether a tick of silence came, and more are borne.
fn bears(answer: Result<Turn, PortFault>) -> bool
    ensures { result ≡ is_quiet answer }
{
    matches!(answer, Ok(Turn::Quiet))
}

// Says a message, and listens.
fn say<P: Port>(
    cable: &mut Cable<P>,
    reader: &mut SlpReader,
    id: u8,
    message: &[u8],
    awaited: Awaited,
) -> Result<Turn, PortFault>
    requires { length message.now ≤ 65535 }
    ensures says { Says awaited (Begins id message.now ∷ [])
        (scene_of P.Port cable.old reader.old.held) (scene_of P.Port cable.new reader.new.held) result }
    ensures paths { P.paths cable.new.port ≡ P.paths cable.old.port }
    ensures cause { HasCause (P.faults cable.old.port) (P.faults cable.new.port)
        (IsErrOf result PortFault.Failed) }
{
    match cable.begin(id, message) {
        Ok(()) => listen(cable, reader, awaited),
        Err(fault) => Err(fault),
    }
}

// The message that an end took whole.
fn whole(end: &End) -> &[u8]
    ensures bytes { result.now ≡ unwrap_or (whole_of end.now.receiver.pieces) [] }
    ensures short { length result.now ≤ 65535 }
{
    match end.message() {
        Some(message) => message,
        None => &[],
    }
}

// Replaces a message by the one that an end took whole.
fn take_whole(end: &End, message: &mut Message)
    ensures { message.new ≡ unwrap_or (whole_of end.now.receiver.pieces) [] }
{
    message.clear();
    let _fits = message.push(whole(end));
}
