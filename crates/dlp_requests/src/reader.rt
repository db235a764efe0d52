// Reading requests.
ghost use Rattle.std.specs.Prelude.{◌≡◌, List, [], ℕ, Result, Ok, Some, None, IfOk};
ghost use Rattle.std.specs.Option.{option_map};
ghost use Rattle.dlp_args.specs.Views.{Gives};
ghost use Rattle.dlp_requests.specs.Faults as faults;
ghost use Rattle.dlp_requests.specs.Forms as form;
ghost use Rattle.dlp_requests.specs.RequestReading as reading;
ghost use Rattle.dlp_requests.specs.RequestReading.{request_at};
ghost use Rattle.dlp_requests.specs.RequestTexts.{RequestText};
ghost use Rattle.dlp_requests.specs.RequestValues.{RequestValue};
ghost use Rattle.dlp_requests.specs.Views.{request_value};

use crate::fault::RequestFault;
use crate::request::Request;
use crate::{database, record, resource, session};
use dlp_args::{Args, Function, read_args};

/// Reads a request, which is all of the bytes. It takes no memory.
///
/// The tests stand in this order: there are two bytes, or the one byte names no function (`Illegal`); the first byte names
/// a function; the arguments pass the tests of `read_args`; their ids are those of the function (`Argument`); the argument
/// has a length that its layout allows, and each text one zero, at its end (`Size`).
pub fn read_request(bytes: &[u8]) -> Result<Request<'_>, RequestFault>
    // What is read has this text.
    ensures found { IfOk result (λ request. RequestText (request_value request) bytes.now) }
    // What has this text is read.
    ensures only { (value : RequestValue) → RequestText value bytes.now
        → Gives request_value result (Ok value) }
    // Which rule is the first that is broken.
    ensures exact { Gives request_value result (request_at bytes.now) }
{
    take_request(bytes)
}

#[tactic(auto, unfolding(crate::specs::RequestReading::request_at))]
fn take_request(bytes: &[u8]) -> Result<Request<'_>, RequestFault>
    ensures { Gives request_value result (request_at bytes.now) }
{
    let [number, rest @ ..] = bytes else {
        return Err(RequestFault::Wrapper(0));
    };
    let Some(function) = Function::of(*number) else {
        return Err(RequestFault::Illegal(*number));
    };
    let [count, ..] = rest else {
        return Err(RequestFault::Wrapper(0));
    };
    let args = read_args(bytes, *count, 2)?;
    request_of(function, &args)
}

// The request of a function by its arguments.
#[tactic(auto, unfolding(crate::specs::RequestReading::request_of, crate::specs::RequestReading::request_with))]
fn request_of<'a>(function: Function, args: &Args<'a>) -> Result<Request<'a>, RequestFault>
    ensures { Gives request_value result (reading.request_of function args.now) }
{
    match function {
        Function::ReadUserInfo => {
            none(args)?;
            Ok(Request::ReadUserInfo)
        }
        Function::OpenConduit => {
            none(args)?;
            Ok(Request::OpenConduit)
        }
        Function::ReadSysInfo => read_sys_info(args),
        Function::ReadRecord => read_record(args),
        Function::ReadResource => read_resource(args),
        _ => or_size(request_with(function, only(args, 0x20)?)),
    }
}

// The request of a function whose one argument, 0x20, has this content. The other functions have none.
#[tactic(auto, unfolding(crate::specs::RequestReading::request_with))]
fn request_with(function: Function, content: &[u8]) -> Option<Request<'_>>
    ensures { option_map request_value result ≡ reading.request_with function content.now }
{
    match function {
        Function::WriteUserInfo => session::write_user_info(content),
        Function::ReadDbList => database::read_db_list(content),
        Function::OpenDb => database::open_db(content),
        Function::CreateDb => database::create_db(content),
        Function::CloseDb => database::close_db(content),
        Function::DeleteDb => database::delete_db(content),
        Function::ReadAppBlock => database::read_app_block(content),
        Function::ReadSortBlock => database::read_sort_block(content),
        Function::WriteAppBlock => database::write_app_block(content),
        Function::WriteSortBlock => database::write_sort_block(content),
        Function::ReadNextModifiedRec => record::read_next_modified_rec(content),
        Function::WriteRecord => record::write_record(content),
        Function::DeleteRecord => record::delete_record(content),
        Function::WriteResource => resource::write_resource(content),
        Function::DeleteResource => resource::delete_resource(content),
        Function::CleanUpDatabase => database::clean_up_database(content),
        Function::ResetSyncFlags => database::reset_sync_flags(content),
        Function::ResetRecordIndex => record::reset_record_index(content),
        Function::AddSyncLogEntry => session::add_sync_log_entry(content),
        Function::ReadOpenDbInfo => database::read_open_db_info(content),
        Function::MoveCategory => record::move_category(content),
        Function::EndOfSync => session::end_of_sync(content),
        Function::ReadRecordIdList => record::read_record_id_list(content),
        Function::ReadUserInfo
        | Function::ReadSysInfo
        | Function::OpenConduit
        | Function::ReadRecord
        | Function::ReadResource => None,
    }
}

// ReadSysInfo with the desktop's version of the protocol (argument 0x20), or without an argument.
fn read_sys_info<'a>(args: &Args<'a>) -> Result<Request<'a>, RequestFault>
    ensures { Gives request_value result
        (reading.with_or_bare form.ReadSysInfoFor form.ReadSysInfo
        (reading.first_id args.now) args.now) }
{
    if args.iter().next().is_none() {
        return Ok(Request::ReadSysInfo);
    }
    or_size(session::read_sys_info_for(only(args, 0x20)?))
}

// ReadRecord by id (argument 0x20) or by index (0x21).
fn read_record<'a>(args: &Args<'a>) -> Result<Request<'a>, RequestFault>
    ensures { Gives request_value result
        (reading.by_id_21 form.ReadRecordByIndex form.ReadRecordById
        (reading.first_id args.now) args.now) }
{
    let Some(first) = args.iter().next() else {
        return Err(RequestFault::Argument);
    };
    if first.id == 0x21 {
        or_size(record::read_record_by_index(only(args, 0x21)?))
    } else {
        or_size(record::read_record_by_id(only(args, 0x20)?))
    }
}

// ReadResource by index (argument 0x20) or by type and id (0x21).
fn read_resource<'a>(args: &Args<'a>) -> Result<Request<'a>, RequestFault>
    ensures { Gives request_value result
        (reading.by_id_21 form.ReadResourceByType form.ReadResourceByIndex
        (reading.first_id args.now) args.now) }
{
    let Some(first) = args.iter().next() else {
        return Err(RequestFault::Argument);
    };
    if first.id == 0x21 {
        or_size(resource::read_resource_by_type(only(args, 0x21)?))
    } else {
        or_size(resource::read_resource_by_index(only(args, 0x20)?))
    }
}

// What the one argument has, which bears this id.
fn only<'a>(args: &Args<'a>, id: u8) -> Result<&'a [u8], RequestFault>
    ensures { Gives (λ content. content.now) result (reading.argument_bytes (Some id) args.now) }
{
    let mut iter = args.iter();
    match (iter.next(), iter.next()) {
        (Some(arg), None) if arg.id == id => Ok(arg.bytes),
        _ => Err(RequestFault::Argument),
    }
}

fn or_size(request: Option<Request<'_>>) -> Result<Request<'_>, RequestFault>
    ensures { Gives request_value result (faults.or_size (option_map request_value request.entry)) }
{
    request.ok_or(RequestFault::Size)
}

// There is no argument.
fn none(args: &Args<'_>) -> Result<(), RequestFault>
    ensures { Gives (λ done. []) result (reading.argument_bytes None args.now) }
{
    match args.iter().next() {
        None => Ok(()),
        Some(_) => Err(RequestFault::Argument),
    }
}
