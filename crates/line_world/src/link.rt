//! The world as a link.
ghost use Rattle.std.specs.Prelude.{◌≡◌, [], false, true, Err, IfOk, IfSome, IsErrOf, OnErr, OnOk};
ghost use Rattle.std.specs.Result.{result_err};
ghost use Rattle.dlp_commands.specs.Links.{WentDown, first_fault};
ghost use Rattle.line_steps.specs.TalkTelling.{wake};

use crate::conversing::converse;
use crate::stop::{Break, cause_of, fault_of};
use crate::world::World;
use dlp_commands::{Link, LinkFault, Message};
use hs_folders::Folder;
use line_steps::greet;

impl<F: Folder> Link for World<F> {
    ghost use Rattle.std.specs.Prelude.{Some};
    ghost use Rattle.dlp_commands.specs.Tries.{GoesOn};
    ghost use Rattle.dlp_commands.specs.TryLaws.{goes_more, goes_none};
    ghost use Rattle.handheld_server.specs.SaidThings.{downs_of};
    ghost use Rattle.line_world.specs.Worlds.{world_talk, WorldSince};
    ghost use Rattle.line_world.specs.SinceLaws.{since_itself, since_more};

    ghost downs = { λ world. downs_of world.fault };

    ghost begun = { λ world. world.begun };

    ghost fault = { λ world. world.fault };

    ghost talk = { λ world. Some (world_talk world) };

    ghost since = { λ first last. WorldSince F.contents F.moments F.paths F.faults first last };

    ghost heard = { λ first tries last. GoesOn (Some (world_talk first)) tries (Some (world_talk last)) };

    /// Its answer is the rate that the handheld woke with.
    fn hello(&mut self) -> Result<u32, LinkFault>
        requires { ⟦<Self as Link>⟧.begun self.old ≡ false }
        ensures rate { IfOk result (λ rate. rate ≡ wake.rate) }

        ensures begun { OnOk result (⟦<Self as Link>⟧.begun self.new ≡ true) }
        ensures not_begun { OnErr result (⟦<Self as Link>⟧.begun self.new ≡ false) }
        ensures talk { ⟦<Self as Link>⟧.talk self.new ≡ ⟦<Self as Link>⟧.talk self.old }
        ensures fault { ⟦<Self as Link>⟧.fault self.new
            ≡ first_fault (⟦<Self as Link>⟧.fault self.old) (result_err result) }
        ensures again { IfSome (⟦<Self as Link>⟧.fault self.old) (λ fault. result ≡ Err fault) }
        ensures cause { WentDown (⟦<Self as Link>⟧.fault self.old) (⟦<Self as Link>⟧.downs self.old)
            (⟦<Self as Link>⟧.downs self.new) (IsErrOf result LinkFault.Down) }
        ensures since { ⟦<Self as Link>⟧.since self.old self.new }
        ensures heard { ⟦<Self as Link>⟧.heard self.old [] self.new }
    {
        if let Some(fault) = self.fault {
            return Err(fault);
        }
        match greet(&mut self.line, &self.script) {
            Ok(rate) => {
                self.begun = true;
                Ok(rate)
            }
            Err(halt) => {
                let cause = cause_of(Break::Line(halt), &self.line.wire.frames);
                let fault = fault_of(&cause);
                self.cause = cause;
                self.fault = Some(fault);
                Err(fault)
            }
        }
    }

    fn exchange(&mut self, request: &Message, reply: &mut Message) -> Result<(), LinkFault> {
        if let Some(fault) = self.fault {
            return Err(fault);
        }
        match converse(
            self.alloc,
            &mut self.line,
            &self.script,
            &mut self.server,
            &mut self.log,
            request,
            reply,
        ) {
            Ok(()) => {
                self.answered = self.log.replies.len();
                Ok(())
            }
            Err(ended) => {
                let cause = cause_of(ended, &self.line.wire.frames);
                let fault = fault_of(&cause);
                self.cause = cause;
                self.fault = Some(fault);
                Err(fault)
            }
        }
    }

    ghost since_itself = { since_itself F.contents F.moments F.paths F.faults };

    ghost since_more = { since_more F.contents F.moments F.paths F.faults };

    ghost heard_none = { λ link. goes_none _ };

    ghost heard_more = { λ a b c first next one more. goes_more _ first _ next _ one more };
}
