// A link that answers what it is told to.
ghost use Rattle.std.specs.Prelude.{◌≡◌, None, false};
ghost use Rattle.handheld_server.specs.SaidThings.{downs_of};

use crate::session::session;
use case_words::bytes_in;
use dlp_commands::{Link, LinkFault, Message};
use std::alloc::{AllocError, Global};

/// A link that answers these replies in order, and behind them the last one again and again or with a
/// fault, and tells no device.
#[derive(Drop)]
pub struct FakeLink {
    replies: Vec<Vec<u8>>,
    then: Option<LinkFault>,
    place: usize,
    begun: bool,
    fault: Option<LinkFault>,
    asked: Vec<u8>,
}

impl FakeLink {
    /// A link over which nothing was said.
    pub fn new(alloc: Global, replies: Vec<Vec<u8>>, then: Option<LinkFault>) -> FakeLink
        ensures begun { ⟦<FakeLink as Link>⟧.begun result ≡ false }
    {
        FakeLink {
            replies,
            then,
            place: 0,
            begun: false,
            fault: None,
            asked: Vec::new(alloc),
        }
    }

    // The reply at the place, or the last one where that comes again.
    fn reply(&self) -> Result<&[u8], LinkFault> {
        match (self.replies.get(self.place), self.then) {
            (Some(reply), _) => Ok(reply.as_slice()),
            (None, None) => Ok(self.replies.last().map_or(&[], |last| last.as_slice())),
            (None, Some(fault)) => Err(fault),
        }
    }
}

impl Link for FakeLink {
    ghost use Rattle.std.specs.Prelude.{None};
    ghost use Rattle.handheld_server.specs.SaidThings.{downs_of};

    ghost downs = { λ link. downs_of link.fault };

    ghost begun = { λ link. link.begun };

    ghost fault = { λ link. link.fault };

    ghost talk = { λ link. None };

    ghost since = { λ first last. Unit {0} };

    ghost heard = { λ first tries last. Unit {0} };

    fn hello(&mut self) -> Result<u32, LinkFault> {
        if let Some(fault) = self.fault {
            return Err(fault);
        }
        self.begun = true;
        Ok(9_600)
    }

    fn exchange(&mut self, request: &Message, reply: &mut Message) -> Result<(), LinkFault> {
        if let Some(fault) = self.fault {
            return Err(fault);
        }
        match self.reply() {
            Ok(bytes) => {
                reply.clear();
                let _whole = reply.push(bytes);
            }
            Err(fault) => {
                self.fault = Some(fault);
                return Err(fault);
            }
        }
        self.place = self.place.saturating_add(1);
        let function = request.bytes().first().copied().unwrap_or(0);
        let _noted = self.asked.push(function);
        Ok(())
    }

    ghost since_itself = { λ link. tt };

    ghost since_more = { λ a b c first second. tt };

    ghost heard_none = { λ link. tt };

    ghost heard_more = { λ a b c first next one more. tt };
}

/// Says a session over a link that answers these replies, and the functions of the requests that were
/// answered.
pub fn over_fake(alloc: Global, texts: &str, words: &[&str]) -> Result<String, AllocError> {
    let mut replies = Vec::new(alloc);
    let mut then = None;
    for text in texts.split(',') {
        match text {
            "-" => then = Some(LinkFault::Down),
            "!" => then = Some(LinkFault::NoMemory),
            _ => replies.push(bytes_in(alloc, text))?,
        }
    }
    let link = FakeLink::new(alloc, replies, then);
    let (link, said) = session(alloc, link, words)?;
    let asked = hex::encode(alloc, &link.asked)?;
    format!(in alloc; "{said}; asked {asked}")
}
