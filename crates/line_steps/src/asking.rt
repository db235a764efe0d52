//! A request, and its reply.
ghost use Rattle.std.specs.Prelude.{◌≡◌, ◌+◌, ◌<◌, OnOk, IfErr, Some, length, map};
ghost use Rattle.padp_link.specs.Neighbours.{session_id};
ghost use Rattle.padp_link.specs.Receivers.{whole_of};
ghost use Rattle.trace_text.specs.declared.frame.End.TheVariants.{Handheld, Desktop};
ghost use Rattle.trace_text.specs.Talks.{Talk};
ghost use Rattle.trace_text.specs.TraceLines.{frame_value};
ghost use Rattle.line_laws.specs.Talking.{say};
ghost use Rattle.line_steps.specs.Acknowledging.{EndsAcknowledging, last_key};
ghost use Rattle.line_steps.specs.Rooms.{WantsRoom};
ghost use Rattle.line_steps.specs.TalkHalting.{HaltsWithin, LineEnds};
ghost use Rattle.line_steps.specs.Rests.{MayAnswer, MayAsk};
ghost use Rattle.line_steps.specs.TalkTelling.{HasSaid, LineCounts, LineRecords, LineTells};

use crate::line::Line;
use crate::over::send_over;
use crate::sending::Halt;
use line_script::Script;

/// The desktop sends the request behind so many, and the handheld takes it whole.
pub fn ask(line: &mut Line, script: &Script, requests: usize, request: &[u8]) -> Result<(), Halt>
    requires asks { MayAsk line.old requests }
    requires short { length request.now < 65536 }
    ensures answers { OnOk result (MayAnswer line.new requests) }
    ensures whole { OnOk result (whole_of line.new.handheld.receiver.pieces ≡ Some request.now) }

    ensures recorded { LineRecords script.now line.old → LineRecords script.now line.new }
    ensures counted { LineCounts line.old → LineCounts line.new }
    ensures tells { OnOk result ((talk : Talk) → HasSaid talk requests requests →
        LineTells talk line.old → LineTells (say Desktop request.now talk) line.new) }
    ensures ends { IfErr result (λ halt. (talk : Talk) → HasSaid talk requests requests →
        LineTells talk line.old → LineEnds halt (say Desktop request.now talk) line.new) }
    ensures within { IfErr result (λ halt. (talk : Talk) → HasSaid talk requests requests →
        LineTells talk line.old → HaltsWithin Desktop halt (say Desktop request.now talk)
        line.new) }
    ensures room { WantsRoom result line.old.wire.frames line.new.wire.frames }
{
    send_over(
        &mut line.wire,
        &mut line.desktop,
        &mut line.handheld,
        script,
        transaction(requests),
        request,
    )
}

/// The handheld sends the reply to it, and the desktop takes it whole.
pub fn answer(line: &mut Line, script: &Script, requests: usize, reply: &[u8]) -> Result<(), Halt>
    requires answers { MayAnswer line.old requests }
    requires short { length reply.now < 65536 }
    ensures asks { OnOk result (MayAsk line.new (requests + 1)) }
    ensures whole { OnOk result (whole_of line.new.desktop.receiver.pieces ≡ Some reply.now) }
    ensures acked { OnOk result (EndsAcknowledging Desktop (last_key (session_id (requests + 1))
        reply.now) (map frame_value line.new.wire.frames.items)) }

    ensures recorded { LineRecords script.now line.old → LineRecords script.now line.new }
    ensures counted { LineCounts line.old → LineCounts line.new }
    ensures tells { OnOk result ((talk : Talk) → HasSaid talk requests (requests + 1) →
        LineTells talk line.old → LineTells (say Handheld reply.now talk) line.new) }
    ensures ends { IfErr result (λ halt. (talk : Talk) → HasSaid talk requests (requests + 1) →
        LineTells talk line.old → LineEnds halt (say Handheld reply.now talk) line.new) }
    ensures within { IfErr result (λ halt. (talk : Talk) → HasSaid talk requests (requests + 1) →
        LineTells talk line.old → HaltsWithin Handheld halt (say Handheld reply.now talk)
        line.new) }
    ensures room { WantsRoom result line.old.wire.frames line.new.wire.frames }
{
    send_over(
        &mut line.wire,
        &mut line.handheld,
        &mut line.desktop,
        script,
        transaction(requests),
        reply,
    )
}

/// The transaction of the request behind so many, and of its reply.
fn transaction(requests: usize) -> u8
    ensures { result ≡ session_id (requests + 1) }
{
    (requests % 253) as u8 + 1
}
