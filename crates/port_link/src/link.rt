//! A link over a port as a link.
ghost use Rattle.std.specs.Prelude.{◌≡◌, ◌<◌, ◌^◌, [], ℕ, false, get_or, true, Err, IfSome, IsErrOf, OnErr, OnOk};
ghost use Rattle.std.specs.Result.{result_err};
ghost use Rattle.dlp_commands.specs.DeviceSteps.{first_byte};
ghost use Rattle.dlp_commands.specs.Links.{MayExchange, WentDown, first_fault};
ghost use Rattle.dlp_commands.specs.Talks.{HasAnswer, LacksAnswer};
ghost use Rattle.dlp_commands.specs.Tries.{tries_of};
ghost use Rattle.port_link.specs.Calls.{AnswersExchange, AnswersHello};

use crate::greeting::id_of_next;
use crate::mended::mend;
use crate::mended_parts::byte_in;
use crate::port_cause::fault_of;
use crate::port_link::PortLink;
use crate::talking::{converse, greet};
use dlp_commands::{Link, LinkFault, Message};
use port_line::Port;

// The function of a request.
fn function_of(request: &[u8]) -> u8
    ensures function { result ≡ first_byte request.now }
    ensures bytes { (i : ℕ) → get_or request.now i 0 < 2 ^ 8 }
{
    byte_in(request, 0)
}

// Beside the trait's clauses each method says what the machine of a desktop's end did at the port.
impl<P: Port> Link for PortLink<P> {
    ghost use Rattle.std.specs.Option.{option_map};
    ghost use Rattle.port_link.specs.Calls.{Heard, Since};
    ghost use Rattle.port_link.specs.Causes.{downs_of, link_fault};
    ghost use Rattle.port_link.specs.SinceLaws.{heard_more, heard_none, since_itself, since_more};
    ghost use Rattle.port_link.specs.Standing.{talk_of};

    ghost downs = { λ link. downs_of (option_map link_fault link.cause) };

    ghost begun = { λ link. link.begun };

    ghost fault = { λ link. option_map link_fault link.cause };

    ghost talk = { λ link. talk_of link };

    ghost since = { λ first last. Since first last };

    ghost heard = { λ first tries last. Heard first tries last };

    fn hello(&mut self) -> Result<u32, LinkFault>
        requires { ⟦<Self as Link>⟧.begun self.old ≡ false }
        ensures begun { OnOk result (⟦<Self as Link>⟧.begun self.new ≡ true) }
        ensures not_begun { OnErr result (⟦<Self as Link>⟧.begun self.new ≡ false) }
        ensures talk { ⟦<Self as Link>⟧.talk self.new ≡ ⟦<Self as Link>⟧.talk self.old }
        ensures fault { ⟦<Self as Link>⟧.fault self.new
            ≡ first_fault (⟦<Self as Link>⟧.fault self.old) (result_err result) }
        ensures again { IfSome (⟦<Self as Link>⟧.fault self.old) (λ fault. result ≡ Err fault) }
        ensures cause { WentDown (⟦<Self as Link>⟧.fault self.old)
            (⟦<Self as Link>⟧.downs self.old) (⟦<Self as Link>⟧.downs self.new)
            (IsErrOf result LinkFault.Down) }
        ensures since { ⟦<Self as Link>⟧.since self.old self.new }
        ensures heard { ⟦<Self as Link>⟧.heard self.old [] self.new }

        ensures answers { AnswersHello self.old.cause self.old self.new result }
    {
        if let Some(cause) = self.cause {
            return Err(fault_of(cause));
        }
        match greet(&mut self.cable, &mut self.reader) {
            Ok(rate) => {
                self.begun = true;
                Ok(rate)
            }
            Err(cause) => {
                self.cause = Some(cause);
                Err(fault_of(cause))
            }
        }
    }

    #[tactic(auto, using(crate::proofs::LinkLaws::unanswered_same))]
    fn exchange(&mut self, request: &Message, reply: &mut Message) -> Result<(), LinkFault>
        requires { MayExchange (⟦<Self as Link>⟧.begun self.old) (⟦<Self as Link>⟧.fault self.old) }
        ensures answered { OnOk result (HasAnswer (⟦<Self as Link>⟧.talk self.old)
            request.now reply.new (⟦<Self as Link>⟧.talk self.new)) }
        ensures unanswered { OnErr result (LacksAnswer (⟦<Self as Link>⟧.talk self.old)
            request.now (⟦<Self as Link>⟧.talk self.new)) }
        ensures stays { IfSome (⟦<Self as Link>⟧.fault self.old) (λ fault. (result ≡ Err fault)
            × (⟦<Self as Link>⟧.talk self.new ≡ ⟦<Self as Link>⟧.talk self.old)) }
        ensures begun { ⟦<Self as Link>⟧.begun self.new ≡ ⟦<Self as Link>⟧.begun self.old }
        ensures fault { ⟦<Self as Link>⟧.fault self.new
            ≡ first_fault (⟦<Self as Link>⟧.fault self.old) (result_err result) }
        ensures cause { WentDown (⟦<Self as Link>⟧.fault self.old)
            (⟦<Self as Link>⟧.downs self.old) (⟦<Self as Link>⟧.downs self.new)
            (IsErrOf result LinkFault.Down) }
        ensures since { ⟦<Self as Link>⟧.since self.old self.new }
        ensures heard { ⟦<Self as Link>⟧.heard self.old (tries_of
            (⟦<Self as Link>⟧.fault self.old) request.now reply.new result) self.new }

        ensures answers { AnswersExchange self.old.cause request.now reply.new
            self.old self.new (result_err result) }
    {
        if let Some(cause) = self.cause {
            return Err(fault_of(cause));
        }
        self.id = id_of_next(self.id);
        let function = function_of(request.bytes());
        match converse(&mut self.cable, &mut self.reader, self.id, request, reply) {
            Ok(()) => {
                mend(function, reply, &mut self.spare);
                Ok(())
            }
            Err(cause) => {
                self.cause = Some(cause);
                Err(fault_of(cause))
            }
        }
    }

    ghost since_itself = { since_itself };

    ghost since_more = { since_more };

    ghost heard_none = { heard_none };

    ghost heard_more = { heard_more };
}
