// Reading replies.
ghost use Rattle.std.specs.Prelude.{◌≡◌, ◌<◌, ◌^◌, Ok, IfOk};
ghost use Rattle.dlp_args.specs.Views.{Gives};
ghost use Rattle.dlp_replies.specs.Frames.{frame, function_byte};
ghost use Rattle.dlp_replies.specs.ReplyReading as reading;
ghost use Rattle.dlp_replies.specs.ReplyReading.{reply_at};
ghost use Rattle.dlp_replies.specs.ReplyTexts.{ReplyText};
ghost use Rattle.dlp_replies.specs.ReplyValues.{ReplyValue};
ghost use Rattle.dlp_replies.specs.Shapes.{shape, shape_of};
ghost use Rattle.dlp_replies.specs.Views.{reply_value};

use crate::argument::{no_arguments, without};
use crate::error_code::ErrorCode;
use crate::fault::ReplyFault;
use crate::reply::Reply;
use crate::{database, lists, record, resource, system, user};
use dlp_args::{Args, Function, read_args};

/// Reads a reply to a function, which is all of the bytes. It takes no memory.
///
/// The tests stand in this order: there are four bytes; the first one is the function with 0x80 set (`Function`); the
/// arguments pass the tests of `read_args`; beside an error there is none, and else their ids are those of the function
/// (`Argument`); the argument has a length that its layout allows (`Size`); each value is one (`Value`).
pub fn read_reply(function: u8, bytes: &[u8]) -> Result<Reply<'_>, ReplyFault>
    // What is read has this text.
    ensures found { IfOk result (λ reply. ReplyText function (reply_value reply) bytes.now) }
    // What has this text is read.
    ensures only { (value : ReplyValue) → ReplyText function value bytes.now
        → Gives reply_value result (Ok value) }
    // It is a refusal of this function or the function's own reply.
    ensures own { IfOk result (λ reply. function_byte (frame (reply_value reply)) ≡ function) }
    // Which rule is the first that is broken.
    ensures exact { Gives reply_value result (reply_at function bytes.now) }
{
    take_reply(function, bytes)
}

#[tactic(auto, unfolding(crate::specs::ReplyReading::reply_at))]
fn take_reply(function: u8, bytes: &[u8]) -> Result<Reply<'_>, ReplyFault>
    ensures { Gives reply_value result (reply_at function bytes.now) }
{
    let [first, count, high, low, ..] = bytes else {
        return Err(ReplyFault::Wrapper(0));
    };
    if *first != reply_byte(function) {
        return Err(ReplyFault::Function(*first));
    }
    let args = read_args(bytes, *count, 4)?;
    let code = u16::from_be_bytes([*high, *low]);
    if code != 0 {
        no_arguments(&args)?;
        return Ok(Reply::Refused {
            function,
            code: ErrorCode(code),
        });
    }
    reply_to(Function::of(function), bytes.len(), &args)
}

// The function of a request with 0x80 set.
#[tactic(auto, unfolding(crate::specs::ReplyReading::reply_byte))]
pub(crate) fn reply_byte(function: u8) -> u8
    ensures { result ≡ reading.reply_byte function }
{
    if function < 0x80 {
        function + 0x80
    } else {
        function
    }
}

// The reply to a function without an error; the message ends at this place.
#[tactic(auto, unfolding(crate::specs::ReplyReading::reply_by))]
fn reply_to<'a>(
    function: Option<Function>,
    end: usize,
    args: &Args<'a>,
) -> Result<Reply<'a>, ReplyFault>
    requires { end < 2 ^ 63 }
    ensures { Gives reply_value result (reading.reply_by (shape_of function) end args.now) }
{
    match function {
        Some(function) => known_reply(function, end, args),
        None => Err(ReplyFault::Argument),
    }
}

// The reply to a function, without an error.
#[tactic(auto, unfolding(crate::specs::ReplyReading::reply_by))]
fn known_reply<'a>(function: Function, end: usize, args: &Args<'a>) -> Result<Reply<'a>, ReplyFault>
    requires { end < 2 ^ 63 }
    ensures { Gives reply_value result (reading.reply_by (shape function) end args.now) }
{
    match function {
        Function::ReadUserInfo => user::user_info(end, args),
        Function::ReadSysInfo => system::sys_info(end, args),
        Function::ReadDbList => lists::db_list(end, args),
        Function::OpenDb => database::open_db(end, args),
        Function::CreateDb => database::create_db(end, args),
        Function::ReadAppBlock => database::app_block(end, args),
        Function::ReadSortBlock => database::sort_block(end, args),
        Function::ReadOpenDbInfo => database::open_db_info(end, args),
        Function::ReadNextModifiedRec => record::next_modified_rec(end, args),
        Function::ReadRecord => record::record(end, args),
        Function::WriteRecord => record::write_record(end, args),
        Function::ReadResource => resource::resource(end, args),
        Function::ReadRecordIdList => lists::record_id_list(end, args),
        Function::WriteUserInfo => without(args, Reply::WriteUserInfo),
        Function::CloseDb => without(args, Reply::CloseDb),
        Function::DeleteDb => without(args, Reply::DeleteDb),
        Function::WriteAppBlock => without(args, Reply::WriteAppBlock),
        Function::WriteSortBlock => without(args, Reply::WriteSortBlock),
        Function::DeleteRecord => without(args, Reply::DeleteRecord),
        Function::WriteResource => without(args, Reply::WriteResource),
        Function::DeleteResource => without(args, Reply::DeleteResource),
        Function::CleanUpDatabase => without(args, Reply::CleanUpDatabase),
        Function::ResetSyncFlags => without(args, Reply::ResetSyncFlags),
        Function::ResetRecordIndex => without(args, Reply::ResetRecordIndex),
        Function::AddSyncLogEntry => without(args, Reply::AddSyncLogEntry),
        Function::MoveCategory => without(args, Reply::MoveCategory),
        Function::OpenConduit => without(args, Reply::OpenConduit),
        Function::EndOfSync => without(args, Reply::EndOfSync),
    }
}
