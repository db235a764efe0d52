// What an end said, as far as what it may say next hangs on it.
ghost use Rattle.std.specs.Prelude.{◌≡◌, ◌+◌, ◌<◌};
ghost use Rattle.std.specs.Bool.{MatchBool};
ghost use Rattle.trace_check.specs.Speaking.{BeginsOrNot, MayRepeat, SaysNext, repeated_at, silent};
ghost use Rattle.trace_check.specs.Standings.{part_with};
ghost use Rattle.trace_check.specs.declared.speaker.Speaker.{Speaker};

use crate::standing::Standing;
use cmp_hello::HelloKind;
use padp_link::Key;

// What an end said.
#[derive(Clone, Copy)]
pub(crate) struct Speaker {
    // The key of its newest fragment.
    pub(crate) newest: Option<Key>,
    // How many of its data frames in a row bear that key.
    pub(crate) run: u8,
    // The number of its newest repeat, or 0.
    pub(crate) last_repeat: u32,
    pub(crate) standing: Standing,
}

impl Speaker {
    pub(crate) fn new() -> Speaker
        ensures { result ≡ silent }
    {
        Speaker {
            newest: None,
            run: 0,
            last_repeat: 0,
            standing: Standing::new(),
        }
    }

    // Says a fragment in the frame of this number, if it may. `fault` is the number of the newest faulted frame, or 0.
    pub(crate) fn say(
        &mut self,
        greeting: HelloKind,
        key: Key,
        bytes: &[u8],
        number: u32,
        fault: u32,
    ) -> bool
        requires { self.old.standing.begun < 4294967295 }
        ensures { MatchBool result
            (SaysNext greeting self.old (part_with key bytes.now) number fault self.new)
            ((new : Speaker) → ¬ (SaysNext greeting self.old
            (part_with key bytes.now) number fault new)) }
    {
        if self.newest == Some(key) {
            self.repeat(number, fault)
        } else {
            self.begin(greeting, key, bytes)
        }
    }

    fn repeat(&mut self, number: u32, fault: u32) -> bool
        ensures { MatchBool result
            (MayRepeat self.old fault × (self.new ≡ repeated_at number self.old))
            (¬ (MayRepeat self.old fault)) }
    {
        if self.run >= 10 || fault == 0 || u64::from(self.last_repeat) > u64::from(fault) + 1 {
            return false;
        }
        self.run += 1;
        self.last_repeat = number;
        true
    }

    fn begin(&mut self, greeting: HelloKind, key: Key, bytes: &[u8]) -> bool
        requires { self.old.standing.begun < 4294967295 }
        ensures { BeginsOrNot result greeting (part_with key bytes.now) self.old self.new }
    {
        if !self.standing.may_say(greeting, key, bytes) {
            return false;
        }
        self.standing.add(key, bytes);
        self.newest = Some(key);
        self.run = 1;
        true
    }
}
