// Replies about records.
ghost use Rattle.std.specs.Prelude.{◌<◌, ◌^◌, true};
ghost use Rattle.dlp_args.specs.Views.{Gives};
ghost use Rattle.dlp_replies.specs.Checks.{id_checks, record_checks};
ghost use Rattle.dlp_replies.specs.Layouts as layouts;
ghost use Rattle.dlp_replies.specs.ReplyReading.{reply_by, valid_in};
ghost use Rattle.dlp_replies.specs.Shapes.{shape};
ghost use Rattle.dlp_replies.specs.Views.{record_fields, reply_value};

use crate::argument::only_content;
use crate::fault::ReplyFault;
use crate::reply::Reply;
use dlp_args::{Args, Function, end_of, take_u32};
use pdb_values::{Category, RecordId};

// The cells of a record reply, with its bytes lent.
#[derive(Clone, Copy)]
pub(crate) struct RecordCells<'a> {
    pub(crate) id: RecordId,
    pub(crate) index: u16,
    pub(crate) size: u16,
    pub(crate) attributes: u8,
    pub(crate) category: Category,
    pub(crate) bytes: &'a [u8],
}

// The next changed record.
#[tactic(auto, unfolding(crate::specs::ReplyReading::reply_by))]
pub(crate) fn next_modified_rec<'a>(end: usize, args: &Args<'a>) -> Result<Reply<'a>, ReplyFault>
    requires { end < 2 ^ 63 }
    ensures { Gives reply_value result
        (reply_by (shape Function.ReadNextModifiedRec) end args.now) }
{
    let content = only_content(args)?;
    match record_reply(end.saturating_sub(content.len()), content) {
        Ok(cells) => Ok(Reply::ReadNextModifiedRec {
            id: cells.id,
            index: cells.index,
            size: cells.size,
            attributes: cells.attributes,
            category: cells.category,
            bytes: cells.bytes,
        }),
        Err(fault) => Err(fault),
    }
}

// A record.
#[tactic(auto, unfolding(crate::specs::ReplyReading::reply_by))]
pub(crate) fn record<'a>(end: usize, args: &Args<'a>) -> Result<Reply<'a>, ReplyFault>
    requires { end < 2 ^ 63 }
    ensures { Gives reply_value result (reply_by (shape Function.ReadRecord) end args.now) }
{
    let content = only_content(args)?;
    match record_reply(end.saturating_sub(content.len()), content) {
        Ok(cells) => Ok(Reply::ReadRecord {
            id: cells.id,
            index: cells.index,
            size: cells.size,
            attributes: cells.attributes,
            category: cells.category,
            bytes: cells.bytes,
        }),
        Err(fault) => Err(fault),
    }
}

// The id of a written record.
#[tactic(auto, unfolding(crate::specs::ReplyReading::reply_by))]
pub(crate) fn write_record<'a>(end: usize, args: &Args<'a>) -> Result<Reply<'a>, ReplyFault>
    requires { end < 2 ^ 63 }
    ensures { Gives reply_value result (reply_by (shape Function.WriteRecord) end args.now) }
{
    let content = only_content(args)?;
    let id = id_alone(end.saturating_sub(content.len()), content)?;
    Ok(Reply::WriteRecord { id })
}

#[tactic(auto, unfolding(crate::specs::ReplyReading::valid_in, dlp_args::specs::CellReading::number_at))]
fn record_reply(place: usize, content: &[u8]) -> Result<RecordCells<'_>, ReplyFault>
    requires { place < 2 ^ 63 }
    ensures { Gives record_fields result
        (valid_in layouts.record_reply (λ v. true) record_checks place content.now) }
{
    let [
        i3,
        i2,
        i1,
        i0,
        x1,
        x0,
        s1,
        s0,
        attributes,
        category,
        bytes @ ..,
    ] = content
    else {
        return Err(ReplyFault::Size);
    };
    let id = u32::from_be_bytes([*i3, *i2, *i1, *i0]);
    let id = RecordId::new(id).ok_or(ReplyFault::Value(place))?;
    let category = Category::new(*category).ok_or(ReplyFault::Value(place + 9))?;
    if bytes.len() > 65_500 {
        return Err(ReplyFault::Value(place + 10));
    }
    Ok(RecordCells {
        id,
        index: u16::from_be_bytes([*x1, *x0]),
        size: u16::from_be_bytes([*s1, *s0]),
        attributes: *attributes,
        category,
        bytes,
    })
}

// The id of a written record.
#[tactic(auto, unfolding(crate::specs::ReplyReading::valid_in))]
fn id_alone(place: usize, content: &[u8]) -> Result<RecordId, ReplyFault>
    ensures { Gives (λ id. (
      id,
      tt,
    )) result (valid_in layouts.id_alone (λ v. true) id_checks place content.now) }
{
    let (id, rest) = take_u32(content).ok_or(ReplyFault::Size)?;
    end_of(rest).ok_or(ReplyFault::Size)?;
    RecordId::new(id).ok_or(ReplyFault::Value(place))
}
