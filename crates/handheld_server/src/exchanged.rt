// What was said.
use dlp_commands::MessageText;

/// A request and its reply.
#[derive(Drop)]
pub(crate) struct Exchanged {
    pub(crate) request: MessageText,
    pub(crate) reply: MessageText,
}
