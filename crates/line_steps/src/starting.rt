//! A message begins.
ghost use Rattle.std.specs.Prelude.{◌≡◌, ◌≤◌, ◌<◌, ◌+◌, List, [], OnOk, IfErr, Some, length};
ghost use Rattle.padp_link.specs.Receivers.{ReceiverValue};
ghost use Rattle.line_steps.specs.declared.half.Half.{Half as HalfValue};
ghost use Rattle.line_steps.specs.declared.half.Wire.{Wire as WireValue};
ghost use Rattle.trace_text.specs.Fates.{fate_value};
ghost use Rattle.trace_text.specs.Talks.{Talk};
ghost use Rattle.line_laws.specs.Talking.{say};
ghost use Rattle.line_script.specs.Rules.{RuleValue};
ghost use Rattle.line_script.specs.Scripts.{fate_by};
ghost use Rattle.line_steps.specs.Advancing.{Advances, IsUp};
ghost use Rattle.line_steps.specs.Counting.{CountsTaken};
ghost use Rattle.line_steps.specs.Halting.{HaltsBy, Spoke};
ghost use Rattle.line_steps.specs.Rooms.{WantsRoom};
ghost use Rattle.line_steps.specs.Running.{Holds};
ghost use Rattle.line_steps.specs.Telling.{IsNextTo, RecordsFrames, Talks, cursor_of};
ghost use Rattle.line_steps.specs.Turning.{Turn};
ghost use Rattle.line_steps.specs.Underway.{Underway};

use crate::half::{Half, Wire};
use crate::pieces::send_piece;
use crate::sending::Halt;
use dlp_args::Message;
use trace_text::Fate;

/// Begins the next message of the end `x`, of this transaction, which the other end waits for. Its first piece has this fate.
pub fn start(
    wire: &mut Wire,
    x: &mut Half,
    y: &Half,
    id: u8,
    message: &[u8],
    fate: &Fate,
) -> Result<(), Halt>
    requires turn { Turn wire.old x.old y.now }
    requires other { ¬ (id ≡ x.old.sender.id) }
    requires awaited { y.now.receiver.awaited ≡ Some id }
    requires none { y.now.receiver.pieces ≡ [] }
    requires short { length message.now < 65536 }
    ensures says { x.new ≡ record x.old { sender = x.new.sender; message = message.now } }
    ensures id { x.new.sender.id ≡ id }
    ensures holds { OnOk result (Holds wire.new x.new y.now) }
    ensures underway { OnOk result (Underway wire.new x.new y.now) }
    ensures talks { OnOk result ((talk : Talk) → IsNextTo talk x.old y.now id →
        Talks talk wire.old x.old y.now →
        Talks (say x.old.end message.now talk) wire.new x.new y.now) }
    ensures halted { IfErr result
        (λ halt. HaltsBy halt (cursor_of x.new y.now) wire.new.frames.items) }
    ensures spoke { IfErr result (λ _. (talk : Talk) → IsNextTo talk x.old y.now id →
        Talks talk wire.old x.old y.now →
        Spoke (say x.old.end message.now talk) wire.new x.new y.now) }
    ensures recorded { (script : List RuleValue) →
        fate_value fate.now ≡ fate_by script (length wire.old.frames.items + 1) →
        RecordsFrames script wire.old x.old y.now → RecordsFrames script wire.new x.new y.now }
    ensures counted { CountsTaken wire.old x.old y.now → CountsTaken wire.new x.new y.now }
    ensures advances { Advances wire.old x.old y.now wire.new x.new y.now }
    ensures up { IfErr result (λ halt. IsUp halt) }
    ensures room { WantsRoom result wire.old.frames wire.new.frames }
{
    x.sender.start(id, message.len() as u16);
    hold(&mut x.message, message);
    send_piece(wire, x, fate)
}

/// Replaces a message by one that is short enough.
fn hold(message: &mut Message, bytes: &[u8])
    requires { length bytes.now < 65536 }
    ensures { message.new ≡ bytes.now }
{
    message.clear();
    let _fits = message.push(bytes);
}

/// Lets an end wait for the next message of the other one, of this transaction.
pub fn expect(half: &mut Half, id: u8)
    ensures receiver { half.new ≡ record half.old {
      receiver = record { awaited = Some id; pieces = []; last = half.old.receiver.last };
    } }
    ensures other { (wire : WireValue) (x : HalfValue) →
        Turn wire x half.old → Turn wire x half.new }
    ensures own { (wire : WireValue) (y : HalfValue) →
        Turn wire half.old y → Turn wire half.new y }
{
    half.receiver.expect(id);
}
