//! The cursor of an end goes past the frames that don't come and those of the other end.
ghost use Rattle.std.specs.Prelude.{◌≡◌, ◌≤◌};
ghost use Rattle.trace_text.specs.Fates as fates;
ghost use Rattle.trace_text.specs.Lent.{lent_fate, lent_frame};
ghost use Rattle.trace_text.specs.Past.{is_end};
ghost use Rattle.line_steps.specs.Running.{Holds, AtHead, MovesCursor, MovesReader};
ghost use Rattle.line_steps.specs.Telling.{KeepsAll};
ghost use Rattle.line_steps.specs.Working.{work_left};

use crate::half::{Half, Wire};
use crate::hearing::hear_harm;
use trace_text::{End, FateKind, FateLent, FrameLent};

/// Moves the cursor of the end `x` to its next frame that comes, or past all frames. What the line left of those that don't
/// come goes to the other end, `y`.
pub fn skip_to_head(wire: &Wire, x: &mut Half, y: &mut Half)
    requires { Holds wire.now x.old y.old }
    ensures holds { Holds wire.now x.new y.new }
    ensures head { AtHead x.old.end wire.now.frames.items x.new.taken }
    ensures moved { MovesCursor x.old x.new }
    ensures read { MovesReader y.old y.new }
    ensures keeps { KeepsAll wire.now x.old y.old x.new y.new }
    ensures left { work_left wire.now x.new y.new ≤ work_left wire.now x.old y.old }
{
    while x.taken < wire.frames.len() {
        let frame = wire.frames.get(x.taken);
        if is_from(frame, x.end) {
            if arrives(frame.fate) {
                return;
            }
            hear_harm(frame, y);
        }
        x.taken += 1;
    }
}

/// Whether the frame is of this end.
fn is_from(frame: FrameLent<'_>, from: End) -> bool
    ensures { result ≡ is_end from (lent_frame frame.entry).from }
{
    match (from, frame.from) {
        (End::Handheld, End::Handheld) | (End::Desktop, End::Desktop) => true,
        (End::Handheld, End::Desktop) | (End::Desktop, End::Handheld) => false,
    }
}

/// Whether a frame with this fate arrives.
fn arrives(fate: FateLent<'_>) -> bool
    ensures { result ≡ fates.arrives (lent_fate fate.entry) }
{
    match fate.kind {
        FateKind::Ok | FateKind::Late | FateKind::Noise => true,
        FateKind::Lost | FateKind::Cut(_) | FateKind::Hit(_) | FateKind::Unplug | FateKind::Abort =>
            false,
    }
}
