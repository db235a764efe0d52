//! The ids that new records are given.
ghost use Rattle.std.specs.Prelude.{◌≡◌};
ghost use Rattle.std.specs.Option.{option_to_list};
ghost use Rattle.dlp_requests.specs.RequestReading.{request_at};
ghost use Rattle.dlp_replies.specs.ReplyReading.{reply_at};
ghost use Rattle.dlp_commands.specs.Changes.{asks_id, given_by, given_in};

use dlp_commands::{Reply, Request, read_reply, read_request};
use pdb_values::RecordId;

/// The function of a request that writes a record.
const WRITE_RECORD: u8 = 0x21;

/// The id that a new record of id 0 was given, where the request asked for one and the reply has it.
#[tactic(auto, unfolding(dlp_commands::specs::Changes::given_in))]
pub(crate) fn given_id(request: &[u8], reply: &[u8]) -> Option<RecordId>
    ensures { option_to_list result ≡ given_in request.now reply.now }
{
    if asks_new(request) {
        id_in(reply)
    } else {
        None
    }
}

/// Whether a request is for a new record of id 0.
fn asks_new(request: &[u8]) -> bool
    ensures { result ≡ asks_id (request_at request.now) }
{
    let Ok(asked) = read_request(request) else {
        return false;
    };
    match asked {
        Request::WriteRecord { id, .. } => id == 0,
        _ => false,
    }
}

/// The id in the reply to a written record.
fn id_in(reply: &[u8]) -> Option<RecordId>
    ensures { option_to_list result ≡ given_by (reply_at 0x21 reply.now) }
{
    let Ok(said) = read_reply(WRITE_RECORD, reply) else {
        return None;
    };
    match said {
        Reply::WriteRecord { id } => Some(id),
        _ => None,
    }
}
