// Replies about databases.
ghost use Rattle.std.specs.Prelude.{◌<◌, ◌^◌, [], true};
ghost use Rattle.dlp_args.specs.Views.{Gives};
ghost use Rattle.dlp_replies.specs.Layouts as layouts;
ghost use Rattle.dlp_replies.specs.ReplyReading.{reply_by, valid_in};
ghost use Rattle.dlp_replies.specs.Shapes.{shape};
ghost use Rattle.dlp_replies.specs.Views.{reply_value};

use crate::argument::only_content;
use crate::fault::ReplyFault;
use crate::reply::Reply;
use dlp_args::{Args, Function, counted_of, end_of, take_u8, take_u16};

// The handle of an opened database.
#[tactic(auto, unfolding(crate::specs::ReplyReading::reply_by))]
pub(crate) fn open_db<'a>(end: usize, args: &Args<'a>) -> Result<Reply<'a>, ReplyFault>
    requires { end < 2 ^ 63 }
    ensures { Gives reply_value result (reply_by (shape Function.OpenDb) end args.now) }
{
    let content = only_content(args)?;
    let handle = handle_alone(end.saturating_sub(content.len()), content)?;
    Ok(Reply::OpenDb { handle })
}

// The handle of a new database.
#[tactic(auto, unfolding(crate::specs::ReplyReading::reply_by))]
pub(crate) fn create_db<'a>(end: usize, args: &Args<'a>) -> Result<Reply<'a>, ReplyFault>
    requires { end < 2 ^ 63 }
    ensures { Gives reply_value result (reply_by (shape Function.CreateDb) end args.now) }
{
    let content = only_content(args)?;
    let handle = handle_alone(end.saturating_sub(content.len()), content)?;
    Ok(Reply::CreateDb { handle })
}

// Bytes of the app block.
#[tactic(auto, unfolding(crate::specs::ReplyReading::reply_by))]
pub(crate) fn app_block<'a>(end: usize, args: &Args<'a>) -> Result<Reply<'a>, ReplyFault>
    requires { end < 2 ^ 63 }
    ensures { Gives reply_value result (reply_by (shape Function.ReadAppBlock) end args.now) }
{
    let content = only_content(args)?;
    let bytes = block(end.saturating_sub(content.len()), content)?;
    Ok(Reply::ReadAppBlock { bytes })
}

// Bytes of the sort block.
#[tactic(auto, unfolding(crate::specs::ReplyReading::reply_by))]
pub(crate) fn sort_block<'a>(end: usize, args: &Args<'a>) -> Result<Reply<'a>, ReplyFault>
    requires { end < 2 ^ 63 }
    ensures { Gives reply_value result (reply_by (shape Function.ReadSortBlock) end args.now) }
{
    let content = only_content(args)?;
    let bytes = block(end.saturating_sub(content.len()), content)?;
    Ok(Reply::ReadSortBlock { bytes })
}

// The number of entries.
#[tactic(auto, unfolding(crate::specs::ReplyReading::reply_by))]
pub(crate) fn open_db_info<'a>(end: usize, args: &Args<'a>) -> Result<Reply<'a>, ReplyFault>
    requires { end < 2 ^ 63 }
    ensures { Gives reply_value result (reply_by (shape Function.ReadOpenDbInfo) end args.now) }
{
    let content = only_content(args)?;
    let count = count_alone(end.saturating_sub(content.len()), content)?;
    Ok(Reply::ReadOpenDbInfo { count })
}

#[tactic(auto, unfolding(crate::specs::ReplyReading::valid_in))]
fn handle_alone(place: usize, content: &[u8]) -> Result<u8, ReplyFault>
    ensures { Gives (λ handle. (
      handle,
      tt,
    )) result (valid_in layouts.handle_alone (λ v. true) (λ v. []) place content.now) }
{
    let (handle, rest) = take_u8(content).ok_or(ReplyFault::Size)?;
    end_of(rest).ok_or(ReplyFault::Size)?;
    Ok(handle)
}

#[tactic(auto, unfolding(crate::specs::ReplyReading::valid_in))]
fn block(place: usize, content: &[u8]) -> Result<&[u8], ReplyFault>
    ensures { Gives (λ bytes. (
      bytes.now,
      tt,
    )) result (valid_in layouts.block (λ v. true) (λ v. []) place content.now) }
{
    counted_of(content).ok_or(ReplyFault::Size)
}

#[tactic(auto, unfolding(crate::specs::ReplyReading::valid_in))]
fn count_alone(place: usize, content: &[u8]) -> Result<u16, ReplyFault>
    ensures { Gives (λ count. (
      count,
      tt,
    )) result (valid_in layouts.count_alone (λ v. true) (λ v. []) place content.now) }
{
    let (count, rest) = take_u16(content).ok_or(ReplyFault::Size)?;
    end_of(rest).ok_or(ReplyFault::Size)?;
    Ok(count)
}
