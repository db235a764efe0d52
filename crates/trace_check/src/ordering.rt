// Whether the frames of a direction come in order.
ghost use Rattle.std.specs.Prelude.{◌≡◌, ◌↔◌, IsTrue, map, true, false};
ghost use Rattle.trace_text.specs.Fates as fates;
ghost use Rattle.trace_text.specs.Fates.{fate_value};
ghost use Rattle.trace_text.specs.TraceLines.{frame_value};
ghost use Rattle.trace_check.specs.Closing.{PassesFrame, is_closed, closed_by};
ghost use Rattle.trace_check.specs.Judging.{Keeps};
ghost use Rattle.trace_check.specs.declared.rule.Rule.TheVariants.{C};

use trace_text::{End, Fate, Frame};

// The directions in which nothing comes any more, by the end that sends.
#[derive(Clone, Copy)]
struct Closed {
    handheld: bool,
    desktop: bool,
}

// Whether the frames of a direction come in order.
pub(crate) fn come_in_order(frames: &[Frame]) -> bool
    ensures { IsTrue result ↔ Keeps C (map frame_value frames.now) }
{
    let mut closed = Closed {
        handheld: false,
        desktop: false,
    };
    for frame in frames {
        if !closed.pass(frame) {
            return false;
        }
    }
    true
}

impl Closed {
    // Passes a frame, if it may come or not as it did.
    fn pass(&mut self, frame: &Frame) -> bool
        ensures { PassesFrame result self.old (frame_value frame.now) self.new }
    {
        let arrives = arrives(&frame.fate);
        if frame.came {
            return arrives && !self.is_closed(frame.from);
        }
        if arrives {
            self.close(frame.from);
        }
        true
    }

    fn is_closed(&self, from: End) -> bool
        ensures { result ≡ is_closed self.now from }
    {
        match from {
            End::Handheld => self.handheld,
            End::Desktop => self.desktop,
        }
    }

    fn close(&mut self, from: End)
        ensures { self.new ≡ closed_by self.old from }
    {
        match from {
            End::Handheld => self.handheld = true,
            End::Desktop => self.desktop = true,
        }
    }
}

// Whether the frame itself arrives.
fn arrives(fate: &Fate) -> bool
    ensures { result ≡ fates.arrives (fate_value fate.now) }
{
    match fate {
        Fate::Ok | Fate::Late | Fate::Noise(_) => true,
        Fate::Lost | Fate::Cut(_) | Fate::Hit(_, _) | Fate::Unplug | Fate::Abort => false,
    }
}
