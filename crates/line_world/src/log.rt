//! What was said over a line.
ghost use Rattle.std.specs.Prelude.{◌≡◌, ◌+◌, ◌≤◌, ◌++◌, OnErr, OnOk, vec_capacity, vec_len};
ghost use Rattle.std.specs.Option.{option_to_list};
ghost use Rattle.line_world.specs.Logs.{HasRoom, log_value, no_log, with_issued, with_performed};

use crate::given::given_id;
use dlp_commands::{Message, MessageText};
use pdb_values::RecordId;
use slp_frames::Tally;
use std::alloc::{AllocError, Global};
use trace_text::FrameLog;

/// All that was said over a line, and its frames.
#[derive(Drop)]
pub struct LineLog {
    /// The requests that the desktop sent, or was to send when the run ended.
    pub issued: Vec<MessageText>,
    /// The requests that the handheld performed: each once, in order.
    pub performed: Vec<MessageText>,
    /// The reply to each of these.
    pub replies: Vec<MessageText>,
    /// The ids that new records were given, in order.
    pub given: Vec<RecordId>,
    /// The frames of both ends in the order of sending.
    pub frames: FrameLog,
    /// What the handheld's reader took.
    pub to_handheld: Tally,
    /// What the desktop's reader took.
    pub to_desktop: Tally,
}

/// The messages so far.
#[derive(Drop)]
pub(crate) struct Log {
    pub(crate) issued: Vec<MessageText>,
    pub(crate) performed: Vec<MessageText>,
    pub(crate) replies: Vec<MessageText>,
    pub(crate) given: Vec<RecordId>,
}

impl Log {
    /// Nothing was said.
    pub(crate) fn new(alloc: Global) -> Log
        ensures { log_value result ≡ no_log }
    {
        Log {
            issued: Vec::new(alloc),
            performed: Vec::new(alloc),
            replies: Vec::new(alloc),
            given: Vec::new(alloc),
        }
    }

    /// Keeps a request that is to be sent.
    pub(crate) fn issue(&mut self, alloc: Global, request: &Message) -> Result<(), AllocError>
        ensures kept { OnOk result (
            log_value self.new ≡ with_issued (log_value self.old) request.now) }
        ensures stays { OnErr result (log_value self.new ≡ log_value self.old) }
    {
        let text = MessageText::of(alloc, request)?;
        self.issued.push(text)?;
        Ok(())
    }

    /// Takes the memory for one more request that is performed.
    pub(crate) fn make_room(&mut self) -> Result<(), AllocError>
        ensures stays { log_value self.new ≡ log_value self.old }
        ensures room { OnOk result (HasRoom self.new) }
    {
        self.performed.reserve(1)?;
        self.replies.reserve(1)?;
        self.given.reserve(1)
    }

    /// Keeps a request that was performed, its reply, and the id that it gave.
    pub(crate) fn keep(&mut self, asked: MessageText, answered: MessageText)
        requires { HasRoom self.old }
        ensures { log_value self.new
            ≡ with_performed (log_value self.old) asked.bytes answered.bytes }
    {
        let given = given_id(asked.bytes(), answered.bytes());
        let _performed = self.performed.push(asked).is_ok();
        let _replied = self.replies.push(answered).is_ok();
        self.keep_id(given);
    }

    /// Keeps the id that was given, if one was.
    fn keep_id(&mut self, given: Option<RecordId>)
        requires { vec_len self.old.given + 1 ≤ vec_capacity self.old.given }
        ensures { log_value self.new ≡ record (log_value self.old) {
          given = (log_value self.old).given ++ option_to_list given;
        } }
    {
        if let Some(id) = given {
            let _given = self.given.push(id).is_ok();
        }
    }
}
