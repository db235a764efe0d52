//! A message of one end goes over to the other one.
ghost use Rattle.std.specs.Prelude.{◌≡◌, ◌<◌, OnOk, IfErr, Some, length, map};
ghost use Rattle.padp_link.specs.Receivers.{whole_of};
ghost use Rattle.padp_link.specs.Senders.{Waits};
ghost use Rattle.trace_text.specs.Talks.{Talk};
ghost use Rattle.trace_text.specs.TraceLines.{frame_value};
ghost use Rattle.line_laws.specs.Talking.{say};
ghost use Rattle.line_steps.specs.Acknowledging.{EndsAcknowledging, last_key};
ghost use Rattle.line_steps.specs.Carrying.{SameMessage};
ghost use Rattle.line_steps.specs.Counting.{CountsTaken};
ghost use Rattle.line_steps.specs.Rooms.{WantsRoom};
ghost use Rattle.line_steps.specs.Telling.{IsNextTo, RecordsFrames, Talks};
ghost use Rattle.line_steps.specs.Turning.{Turn};
ghost use Rattle.line_steps.specs.TalkHalting.{HaltedOver, speaking};

use crate::carrying::carry;
use crate::half::{Half, Wire};
use crate::sending::Halt;
use crate::starting::{expect, start};
use line_script::Script;

/// The end `x` sends this message under this transaction, and the end `y` takes it whole.
pub(crate) fn send_over(
    wire: &mut Wire,
    x: &mut Half,
    y: &mut Half,
    script: &Script,
    id: u8,
    message: &[u8],
) -> Result<(), Halt>
    requires turn { Turn wire.old x.old y.old }
    requires other { ¬ (id ≡ x.old.sender.id) }
    requires short { length message.now < 65536 }
    ensures turn { OnOk result (Turn wire.new y.new x.new) }
    ensures waits { OnOk result (Waits x.new.sender) }
    ensures whole { OnOk result (whole_of y.new.receiver.pieces ≡ Some message.now) }
    ensures acked { OnOk result (EndsAcknowledging y.old.end (last_key id message.now)
        (map frame_value wire.new.frames.items)) }
    ensures own_id { OnOk result (x.new.sender.id ≡ id) }
    ensures other_same { OnOk result (SameMessage y.old y.new) }
    ensures own_end { x.new.end ≡ x.old.end }
    ensures other_end { y.new.end ≡ y.old.end }

    ensures recorded { RecordsFrames script.now wire.old x.old y.old →
        RecordsFrames script.now wire.new x.new y.new }
    ensures counted { CountsTaken wire.old x.old y.old → CountsTaken wire.new x.new y.new }
    ensures talks { OnOk result ((talk : Talk) → IsNextTo talk x.old y.old id →
        Talks talk wire.old x.old y.old →
        Talks (say x.old.end message.now talk) wire.new x.new y.new) }
    ensures halted { IfErr result (λ halt. HaltedOver halt id message.now
        (speaking wire.old x.old y.old) (speaking wire.new x.new y.new)) }
    ensures room { WantsRoom result wire.old.frames wire.new.frames }
{
    let fate = script.fate(wire.frames.len() as u64 + 1);
    expect(y, id);
    start(wire, x, y, id, message, fate)?;
    carry(wire, x, y, script)
}
