// Replies with a list: of databases, and of the ids of records.
ghost use Rattle.std.specs.Prelude.{◌<◌, ◌^◌};
ghost use Rattle.dlp_args.specs.Views.{Gives};
ghost use Rattle.dlp_replies.specs.ReplyReading.{reply_by};
ghost use Rattle.dlp_replies.specs.Shapes.{shape};
ghost use Rattle.dlp_replies.specs.Views.{reply_value};

use crate::argument::only_content;
use crate::entries::Entries;
use crate::entry_walk::{are_entries, first_bad_value};
use crate::fault::ReplyFault;
use crate::ids::{Ids, first_bad_id};
use crate::reply::Reply;
use dlp_args::{Args, Function, take_u16};

// Databases.
#[tactic(auto, unfolding(crate::specs::ReplyReading::reply_by, crate::specs::ReplyReading::valid_in, dlp_args::specs::CellReading::number_at))]
pub(crate) fn db_list<'a>(end: usize, args: &Args<'a>) -> Result<Reply<'a>, ReplyFault>
    requires { end < 2 ^ 63 }
    ensures { Gives reply_value result (reply_by (shape Function.ReadDbList) end args.now) }
{
    let content = only_content(args)?;
    let place = end.saturating_sub(content.len());
    let [l1, l0, flags, count, bytes @ ..] = content else {
        return Err(ReplyFault::Size);
    };
    if !are_entries(*count, bytes) {
        return Err(ReplyFault::Size);
    }
    if let Some(bad) = first_bad_value(*count, bytes) {
        return Err(ReplyFault::Value(place + bad));
    }
    Ok(Reply::ReadDbList {
        last: u16::from_be_bytes([*l1, *l0]),
        flags: *flags,
        entries: Entries::of_bytes(*count, bytes),
    })
}

// The ids of records.
#[tactic(auto, unfolding(crate::specs::ReplyReading::reply_by, crate::specs::ReplyReading::valid_in))]
pub(crate) fn record_id_list<'a>(end: usize, args: &Args<'a>) -> Result<Reply<'a>, ReplyFault>
    requires { end < 2 ^ 63 }
    ensures { Gives reply_value result (reply_by (shape Function.ReadRecordIdList) end args.now) }
{
    let content = only_content(args)?;
    let place = end.saturating_sub(content.len());
    let (count, bytes) = take_u16(content).ok_or(ReplyFault::Size)?;
    if bytes.len() != 4 * usize::from(count) {
        return Err(ReplyFault::Size);
    }
    if let Some(bad) = first_bad_id(bytes) {
        return Err(ReplyFault::Value(place + bad));
    }
    Ok(Reply::ReadRecordIdList {
        ids: Ids::of_bytes(bytes),
    })
}
