// Replies, as a handheld's program writes them.
ghost use Rattle.std.specs.Prelude.{◌≡◌, ◌∷◌, ◌<◌, ◌≤◌, [], Err, Ok, length};
ghost use Rattle.std.specs.Result.{ForOk};
ghost use Rattle.dlp_replies.specs.Frames.{reply_text};
ghost use Rattle.dlp_replies.specs.ReplyValues as value;
ghost use Rattle.dlp_replies.specs.Views.{reply_value};
ghost use Rattle.dlp_replies.specs.Writables.{IsWritable};
ghost use Rattle.dlp_commands.specs.Answers.{answer_text};
ghost use Rattle.dlp_commands.specs.DeviceSteps as steps;
ghost use Rattle.dlp_commands.specs.Errors as errors;
ghost use Rattle.dlp_commands.specs.Readings.{most_ids};

use crate::refusal::Refusal;
use crate::resource::code_len;
use dlp_args::Message;
use dlp_replies::{Entries, ErrorCode, Ids, Reply, write_reply};
use dlp_requests::RequestFault;
use pdb_values::{DbHead, RecordId};

/// Replies the error of a function.
pub fn put_refusal(out: &mut Message, number: u8, refusal: Refusal)
    ensures { out.new ≡ answer_text number reply_value (Err refusal) }
{
    let refused = Reply::Refused {
        function: number,
        code: refusal.code(),
    };
    write_reply(&refused, out);
}

/// Replies what a function gives, or its error.
pub fn put_reply(out: &mut Message, number: u8, answer: Result<Reply<'_>, Refusal>)
    requires { ForOk answer (λ reply. IsWritable (reply_value reply)) }
    ensures { out.new ≡ answer_text number reply_value answer.entry }
{
    match answer {
        Ok(reply) => write_reply(&reply, out),
        Err(refusal) => put_refusal(out, number, refusal),
    }
}

/// Replies that a function is done that gives nothing back, or its error.
pub fn put_done(out: &mut Message, number: u8, done: Reply<'_>, answer: Result<(), Refusal>)
    requires { IsWritable (reply_value done) }
    ensures { out.new ≡ answer_text number (λ _. reply_value done.entry) answer }
{
    match answer {
        Ok(()) => write_reply(&done, out),
        Err(refusal) => put_refusal(out, number, refusal),
    }
}

/// Replies at most 16,000 ids.
#[tactic(auto, using(crate::proofs::Fits::ids_fit))]
pub fn put_ids(out: &mut Message, ids: &[RecordId])
    requires { length ids.now ≤ most_ids }
    ensures { out.new ≡ reply_text (value.ReadRecordIdList ids.now) }
{
    write_reply(&Reply::ReadRecordIdList { ids: Ids::of(ids) }, out);
}

/// Replies the one database of an index, and whether a further one follows.
#[tactic(auto, using(crate::proofs::Fits::list_fits))]
pub fn put_listed(out: &mut Message, index: u16, flags: u8, head: DbHead)
    requires { head.seed ≡ 0 }
    ensures { out.new ≡ reply_text (value.ReadDbList index flags ((index, head) ∷ [])) }
{
    let _name = head.name.as_bytes();
    let _four = code_len(&head.kind.0) + code_len(&head.creator.0);
    let items = [(index, head)];
    let listed = Reply::ReadDbList {
        last: index,
        flags,
        entries: Entries::of(&items),
    };
    write_reply(&listed, out);
}

/// Replies the error for bytes that are no request, under their first byte.
pub fn put_fault(out: &mut Message, bytes: &[u8], fault: RequestFault)
    ensures { out.new ≡ reply_text (value.Refused (steps.first_byte bytes.now)
        (errors.fault_code fault)) }
{
    let refused = Reply::Refused {
        function: first_byte(bytes),
        code: fault_code(fault),
    };
    write_reply(&refused, out);
}

// The error for bytes that are no request.
fn fault_code(fault: RequestFault) -> ErrorCode
    ensures code { result.0 ≡ errors.fault_code fault }
    ensures some { 0 < result.0 }
{
    ErrorCode(match fault {
        RequestFault::Illegal(_) => 2,
        RequestFault::Wrapper(_) => 19,
        RequestFault::BadId(_) => 20,
        RequestFault::BadSize(_) => 21,
        RequestFault::Argument => 20,
        RequestFault::Size => 21,
    })
}

/// The first byte of a message, which names its function, or 0 of one that has none.
pub fn first_byte(bytes: &[u8]) -> u8
    ensures { result ≡ steps.first_byte bytes.now }
{
    match bytes {
        [first, ..] => *first,
        [] => 0,
    }
}
