// Whether both ends say messages.
ghost use Rattle.std.specs.Prelude.{◌≡◌, ◌+◌, [], ◌∷◌, ◌<◌, ◌≤◌, List, IfSome, IfNone, length, map, if◌then◌else◌, true};
ghost use Rattle.std.specs.Bool.{MatchBool};
ghost use Rattle.trace_text.specs.Faults.{is_faulty};
ghost use Rattle.trace_text.specs.Frames.{BearsFragment, add_frame};
ghost use Rattle.trace_text.specs.Parts.{part_of};
ghost use Rattle.trace_text.specs.Past.{PastFrame};
ghost use Rattle.trace_text.specs.TraceLines.{frame_value};
ghost use Rattle.trace_text.specs.declared.frame.End.TheVariants as end;
ghost use Rattle.trace_check.specs.Judging.{Keeps};
ghost use Rattle.trace_check.specs.Messages.{whole_count};
ghost use Rattle.trace_check.specs.Sending.{course_value, sent_value};
ghost use Rattle.trace_check.specs.Talking.{EndSays, GoesOnOrNot, HasRoom, IsTalking, Says};
ghost use Rattle.trace_check.specs.declared.rule.Rule.TheVariants.{B, D};
ghost use Rattle.trace_check.specs.declared.speaker.Speaker.{Speaker as SpeakerValue};

use crate::sent::{Course, SentFrame, sent_in};
use crate::speaker::Speaker;
use cmp_hello::HelloKind;
use trace_text::{End, Frame};

// How many whole messages both ends said, with their greetings.
#[derive(Clone, Copy)]
pub(crate) struct Wholes {
    pub(crate) handheld: u32,
    pub(crate) desktop: u32,
}

// What both ends said, in how many frames, and the number of the newest faulted one, or 0.
#[derive(Clone, Copy)]
pub(crate) struct Talking {
    pub(crate) handheld: Speaker,
    pub(crate) desktop: Speaker,
    pub(crate) count: u32,
    pub(crate) fault: u32,
}

// How many whole messages both ends said, where they say messages as they may.
pub(crate) fn whole_messages(frames: &[Frame]) -> Option<Wholes>
    requires few { length frames.now ≤ 4294967295 }
    requires bear { Keeps B (map frame_value frames.now) }
    ensures keeps { IfSome result (λ wholes. Keeps D (map frame_value frames.now)) }
    ensures handheld { IfSome result (λ wholes.
        wholes.handheld ≡ whole_count end.Handheld (map frame_value frames.now)) }
    ensures desktop { IfSome result (λ wholes.
        wholes.desktop ≡ whole_count end.Desktop (map frame_value frames.now)) }
    ensures none { IfNone result (¬ (Keeps D (map frame_value frames.now))) }
{
    let mut talking = Talking::new();
    for frame in frames {
        if !talking.pass(frame) {
            return None;
        }
    }
    Some(Wholes {
        handheld: talking.handheld.standing.wholes(),
        desktop: talking.desktop.standing.wholes(),
    })
}

impl Talking {
    fn new() -> Talking
        ensures { IsTalking [] result }
    {
        Talking {
            handheld: Speaker::new(),
            desktop: Speaker::new(),
            count: 0,
            fault: 0,
        }
    }

    // Passes a frame, if what is said in it may be said.
    fn pass(&mut self, frame: &Frame) -> bool
        requires bears { BearsFragment (frame_value frame.now) }
        requires room { HasRoom self.old }
        ensures { (past : List PastFrame) → GoesOnOrNot result past
            (add_frame (frame_value frame.now) past) self.old self.new }
    {
        match sent_in(frame) {
            Some(sent) => self.take(&sent),
            None => true,
        }
    }

    fn take(&mut self, sent: &SentFrame<'_>) -> bool
        requires { HasRoom self.old }
        ensures { (past : List PastFrame) → GoesOnOrNot result past
            (sent_value sent.now ∷ past) self.old self.new }
    {
        let said = self.say(sent);
        self.count += 1;
        self.fault = newest_fault(sent.course, self.count, self.fault);
        said
    }

    // Says what is sent, if it is data that may be said.
    fn say(&mut self, sent: &SentFrame<'_>) -> bool
        requires { HasRoom self.old }
        ensures count { self.new.count ≡ self.old.count }
        ensures said { MatchBool result (Says (sent_value sent.now) self.old self.new)
            ((sent.now.is_data ≡ true) × ((speaker : SpeakerValue) →
            ¬ (EndSays sent.now.from self.old (part_of (sent_value sent.now)) speaker))) }
    {
        if !sent.is_data {
            return true;
        }
        let number = self.count + 1;
        let fault = self.fault;
        match sent.from {
            End::Handheld => {
                self.handheld
                    .say(HelloKind::Wake, sent.key, sent.bytes, number, fault)
            }
            End::Desktop => {
                self.desktop
                    .say(HelloKind::Init, sent.key, sent.bytes, number, fault)
            }
        }
    }
}

// The number of the newest faulted frame, where the frame of this number has this course.
fn newest_fault(course: Course, number: u32, fault: u32) -> u32
    ensures { result ≡ (if is_faulty (course_value course) then number else fault) }
{
    match course {
        Course::Came => fault,
        Course::Gone | Course::Late => number,
    }
}
