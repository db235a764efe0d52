// A link to a device.
ghost use Rattle.std.specs.Prelude.{◌≡◌, ◌++◌, ℕ, Bool, true, false, List, [], Option, IfSome, IsErrOf, OnErr, OnOk};
ghost use Rattle.std.specs.Result.{result_err};
ghost use Rattle.dlp_commands.specs.Links.{MayExchange, WentDown, first_fault};
ghost use Rattle.dlp_commands.specs.Talks.{HasAnswer, Talk, LacksAnswer};
ghost use Rattle.dlp_commands.specs.Tries.{Try, tries_of};

use dlp_args::Message;

/// Why a link answers no more.
#[derive(Clone, Copy)]
pub enum LinkFault {
    /// It went down.
    Down,
    /// Memory ran out.
    NoMemory,
}

/// A link to a device, over which requests go and replies come.
///
/// What it tells of the device and of what was said holds where it tells it. A link of a real line tells nothing, and then
/// the clauses on what is told say nothing.
pub trait Link {
    ghost use Rattle.dlp_commands.specs.declared.link.LinkFault.{LinkFault};

    /// How often it went down.
    ghost downs: { Self → ℕ };

    /// Whether the handheld has woken it.
    ghost begun: { Self → Bool };

    /// The fault that it answered first.
    ghost fault: { Self → Option LinkFault };

    /// The device behind it and what was said, where they are told.
    ghost talk: { Self → Option Talk };

    /// What holds of it since it was the first of the two. Each link says what.
    ghost since: { Self → Self → Type 0 };

    /// What was asked since it was the first of the two, and what was replied, in order. Each link says what that is of it.
    ghost heard: { Self → List Try → Self → Type 0 };

    /// Waits for the handheld's wake and answers its rate in bits per second.
    fn hello(&mut self) -> Result<u32, LinkFault>
        requires { begun self.old ≡ false }
        // It has begun exactly after Ok, and nothing was said.
        ensures begun { OnOk result (begun self.new ≡ true) }
        ensures not_begun { OnErr result (begun self.new ≡ false) }
        ensures talk { talk self.new ≡ talk self.old }

        // The first fault is answered from then on; it went down only where the count rose.
        ensures fault { fault self.new ≡ first_fault (fault self.old) (result_err result) }
        ensures again { IfSome (fault self.old) (λ fault. result ≡ Err fault) }
        ensures cause { WentDown (fault self.old) (downs self.old) (downs self.new)
            (IsErrOf result LinkFault.Down) }
        ensures since { since self.old self.new }
        ensures heard { heard self.old [] self.new };

    /// Sends a request and takes the reply to it. With Ok the device took exactly one step, else one or none.
    fn exchange(&mut self, request: &Message, reply: &mut Message) -> Result<(), LinkFault>
        requires { MayExchange (begun self.old) (fault self.old) }
        // One step by the request, with its reply; or the request was left without an answer, or didn't go out.
        ensures answered { OnOk result (HasAnswer (talk self.old) request.now reply.new
            (talk self.new)) }
        ensures unanswered { OnErr result (LacksAnswer (talk self.old) request.now (talk self.new)) }

        // The first fault is answered from then on, and then nothing is sent; it went down only where the count rose.
        ensures stays { IfSome (fault self.old)
            (λ fault. (result ≡ Err fault) × (talk self.new ≡ talk self.old)) }
        ensures begun { begun self.new ≡ begun self.old }
        ensures fault { fault self.new ≡ first_fault (fault self.old) (result_err result) }
        ensures cause { WentDown (fault self.old) (downs self.old) (downs self.new)
            (IsErrOf result LinkFault.Down) }
        ensures since { since self.old self.new }
        // One request more, with its reply or without.
        ensures heard { heard self.old (tries_of (fault self.old) request.now reply.new result) self.new };

    ghost since_itself: { (link : Self) → since link link };

    ghost since_more: { (a b c : Self) → since a b → since b c → since a c };

    ghost heard_none: { (link : Self) → heard link [] link };

    ghost heard_more: { (a b c : Self) (first next : List Try) → heard a first b → heard b next c → heard a (first ++ next) c };
}
