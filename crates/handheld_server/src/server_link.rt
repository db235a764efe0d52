// A link to a server, without a line.
ghost use Rattle.std.specs.Prelude.{◌≡◌, Some, None, true, false, IfSome};
ghost use Rattle.handheld_server.specs.SaidThings.{is_settled};

use crate::exchanged::Exchanged;
use crate::fault::ServeFault;
use crate::server::Server;
use dlp_commands::{Link, LinkFault, Message, MessageText};
use hs_folders::Folder;
use std::alloc::Global;

/// A link to a server, without a line. It goes down where the server's folder fails, and tells the
/// device and all that was said.
#[derive(Drop)]
pub struct ServerLink<F: Folder> {
    alloc: Global,
    server: Server<F>,
    exchanges: Vec<Exchanged>,
    left: Option<MessageText>,
    begun: bool,
    fault: Option<LinkFault>,
    ghost settled: { is_settled fault left server.sound ≡ true },
}

impl<F: Folder> ServerLink<F> {
    ghost use Rattle.dlp_commands.specs.Talks.{fresh};

    /// A link to this server, over which nothing was said.
    pub fn new(alloc: Global, server: Server<F>) -> ServerLink<F>
        requires { server.sound ≡ true }
        ensures talk { ⟦<ServerLink<F> as Link>⟧.talk result ≡ Some (fresh server.device) }
        ensures begun { ⟦<ServerLink<F> as Link>⟧.begun result ≡ false }
        ensures fault { ⟦<ServerLink<F> as Link>⟧.fault result ≡ None }
    {
        ServerLink {
            alloc,
            server,
            exchanges: Vec::new(alloc),
            left: None,
            begun: false,
            fault: None,
        }
    }

    /// The server, after all that was said.
    pub fn into_server(self) -> Server<F>
        ensures { IfSome (⟦<ServerLink<F> as Link>⟧.talk self)
            (λ talk. result.device ≡ talk.device) }
    {
        let ServerLink { server, .. } = self;
        server
    }
}

#[tactic(auto, using(dlp_commands::specs::TryLaws::goes_answered, dlp_commands::specs::TryLaws::goes_unanswered, dlp_commands::specs::TryLaws::goes_still))]
impl<F: Folder> Link for ServerLink<F> {
    ghost use Rattle.std.specs.Prelude.{Some};
    ghost use Rattle.dlp_commands.specs.Tries.{GoesOn};
    ghost use Rattle.dlp_commands.specs.TryLaws.{goes_more, goes_none};
    ghost use Rattle.handheld_server.specs.SaidThings.{downs_of, talk_of};

    ghost downs = { λ link. downs_of link.fault };

    ghost begun = { λ link. link.begun };

    ghost fault = { λ link. link.fault };

    ghost talk = { λ link. Some (talk_of link.server.device link.exchanges.items link.left) };

    ghost since = { λ first last. Unit {0} };

    ghost heard = { λ first tries last. GoesOn
        (Some (talk_of first.server.device first.exchanges.items first.left)) tries
        (Some (talk_of last.server.device last.exchanges.items last.left)) };

    fn hello(&mut self) -> Result<u32, LinkFault> {
        if let Some(fault) = self.fault {
            return Err(fault);
        }
        self.begun = true;
        Ok(9_600)
    }

    fn exchange(&mut self, request: &Message, reply: &mut Message) -> Result<(), LinkFault> {
        if let Some(fault) = self.fault {
            return Err(fault);
        }
        let Ok(asked) = MessageText::of(self.alloc, request) else {
            self.fault = Some(LinkFault::NoMemory);
            return Err(LinkFault::NoMemory);
        };
        if let Err(refused) = self.server.serve(request.bytes(), reply) {
            let fault = match refused {
                ServeFault::Keeper => LinkFault::Down,
                ServeFault::NoMemory => LinkFault::NoMemory,
            };
            self.fault = Some(fault);
            self.left = Some(asked);
            return Err(fault);
        }
        let Ok(answered) = MessageText::of(self.alloc, reply) else {
            self.fault = Some(LinkFault::NoMemory);
            self.left = Some(asked);
            return Err(LinkFault::NoMemory);
        };
        let said = Exchanged {
            request: asked,
            reply: answered,
        };
        match self.exchanges.push(said) {
            Ok(()) => Ok(()),
            Err(refused) => {
                let said = refused.value;
                let Exchanged { request, reply: _ } = said;
                self.fault = Some(LinkFault::NoMemory);
                self.left = Some(request);
                Err(LinkFault::NoMemory)
            }
        }
    }

    ghost since_itself = { λ link. tt };

    ghost since_more = { λ a b c first second. tt };

    ghost heard_none = { λ link. goes_none _ };

    ghost heard_more = { λ a b c first next one more. goes_more _ first _ next _ one more };
}
