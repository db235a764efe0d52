//! What a talk performed.
ghost use Rattle.std.specs.Prelude.{◌≡◌, ◌++◌, ◌∷◌, [], IfOk, OnOk, replicate};
ghost use Rattle.line_world.specs.Logs.{texts};
ghost use Rattle.device_stream.specs.Reports.{HasRoom};

use dlp_commands::{Message, MessageText};
use std::alloc::{AllocError, Global};

/// What a talk performed: its requests, each once and in order, and the reply to each.
#[derive(Drop)]
pub struct DeviceReport {
    pub performed: Vec<MessageText>,
    pub replies: Vec<MessageText>,
}

impl DeviceReport {
    /// Nothing was performed.
    pub(crate) fn new(alloc: Global) -> DeviceReport
        ensures performed { texts result.performed.items ≡ [] }
        ensures replies { texts result.replies.items ≡ [] }
    {
        DeviceReport {
            performed: Vec::new(alloc),
            replies: Vec::new(alloc),
        }
    }

    /// So many requests were performed, of which no text is kept.
    pub(crate) fn of_number(alloc: Global, number: u8) -> Result<DeviceReport, AllocError>
        ensures performed { IfOk result (λ report. texts report.performed.items
            ≡ replicate number []) }
        ensures replies { IfOk result (λ report. texts report.replies.items
            ≡ replicate number []) }
    {
        let nothing = Message::new(alloc)?;
        let mut report = DeviceReport::new(alloc);
        for _ in 0..number {
            report.make_room()?;
            let request = MessageText::of(alloc, &nothing)?;
            let reply = MessageText::of(alloc, &nothing)?;
            report.keep(request, reply);
        }
        Ok(report)
    }

    /// Takes the memory for one more request and its reply.
    pub(crate) fn make_room(&mut self) -> Result<(), AllocError>
        ensures performed { self.new.performed.items ≡ self.old.performed.items }
        ensures replies { self.new.replies.items ≡ self.old.replies.items }
        ensures room { OnOk result (HasRoom self.new) }
    {
        self.performed.reserve(1)?;
        self.replies.reserve(1)
    }

    /// Keeps a request and its reply.
    pub(crate) fn keep(&mut self, request: MessageText, reply: MessageText)
        requires { HasRoom self.old }
        ensures performed { texts self.new.performed.items
            ≡ texts self.old.performed.items ++ request.bytes ∷ [] }
        ensures replies { texts self.new.replies.items
            ≡ texts self.old.replies.items ++ reply.bytes ∷ [] }
    {
        let _performed = self.performed.push(request).is_ok();
        let _replied = self.replies.push(reply).is_ok();
    }
}
