// Whether both ends kept their turns.
ghost use Rattle.std.specs.Prelude.{◌≡◌, ◌≤◌, ◌↔◌, true, IfOk, IsTrue, length, map};
ghost use Rattle.trace_text.specs.TraceLines.{frame_value};
ghost use Rattle.trace_check.specs.Judging.{Keeps};
ghost use Rattle.trace_check.specs.declared.rule.Rule.TheVariants.{A, B, D, E, F};

use crate::both::Both;
use crate::notice::notice_of;
use std::alloc::{AllocError, Global};
use trace_text::Frame;

// Whether both ends kept their turns.
#[derive(Clone, Copy)]
pub(crate) struct Turns {
    // Each went on once it knew that its fragment was taken.
    pub(crate) knows: bool,
    // Each began a message once what that answers was taken.
    pub(crate) answers: bool,
}

// Whether both ends of a trace kept their turns. Each frame is looked at once.
pub(crate) fn judge_turns(alloc: Global, frames: &[Frame]) -> Result<Turns, AllocError>
    requires few { length frames.now ≤ 4294967295 }
    requires numbered { Keeps A (map frame_value frames.now) }
    requires bear { Keeps B (map frame_value frames.now) }
    requires says { Keeps D (map frame_value frames.now) }
    ensures knows { IfOk result (λ turns.
        IsTrue turns.knows ↔ Keeps E (map frame_value frames.now)) }
    ensures answers { IfOk result (λ turns.
        IsTrue turns.answers ↔ Keeps F (map frame_value frames.now)) }
{
    let mut both = Both::new(alloc)?;
    let mut number = 0;
    let mut knows = true;
    let mut answers = true;
    for frame in frames {
        number += 1;
        let Some(notice) = notice_of(number, frame) else {
            return Ok(Turns { knows, answers });
        };
        knows = knows && both.knows(&notice);
        answers = answers && both.answers(&notice);
        both.take(&notice)?;
    }
    Ok(Turns { knows, answers })
}
