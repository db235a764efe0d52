// Writing replies.
ghost use Rattle.std.specs.Prelude.{◌≡◌, ◌<◌, ◌+◌, ◌∷◌, []};
ghost use Rattle.dlp_replies.specs.Frames.{frame, frame_text, reply_text, Alone, Refusal};
ghost use Rattle.dlp_replies.specs.Subjects.{IsAlone, IsOfEntry};
ghost use Rattle.dlp_replies.specs.Views.{reply_value};
ghost use Rattle.dlp_replies.specs.Writables.{IsWritable};

use crate::error_code::ErrorCode;
use crate::frame::*;
use crate::list_frame::{put_db_list, put_id_list};
use crate::reader::reply_byte;
use crate::reply::Reply;
use crate::user_frame::put_user_info;
use dlp_args::{Message, append};

/// Replaces the message by the reply. Its fields keep the bounds of its layout and the code of a refusal is not 0, so that
/// it fits. It takes no memory.
pub fn write_reply(reply: &Reply<'_>, out: &mut Message)
    requires { IsWritable (reply_value reply.now) }
    ensures { out.new ≡ reply_text (reply_value reply.now) }
{
    match reply {
        Reply::Refused { function, code } => put_refusal(out, *function, *code),
        Reply::ReadUserInfo {
            user,
            viewer,
            pc,
            good,
            last,
            name,
            password,
        } => put_user_info(out, *user, *viewer, *pc, *good, *last, name, password),
        Reply::ReadSysInfo {
            rom,
            locale,
            product,
        } => put_sys_info(out, *rom, *locale, product),
        Reply::ReadDbList {
            last,
            flags,
            entries,
        } => put_db_list(out, *last, *flags, entries),
        Reply::OpenDb { handle } => put_handle_alone(out, 0x17, *handle),
        Reply::CreateDb { handle } => put_handle_alone(out, 0x18, *handle),
        Reply::ReadAppBlock { bytes } => put_block(out, 0x1B, bytes),
        Reply::ReadSortBlock { bytes } => put_block(out, 0x1D, bytes),
        Reply::ReadNextModifiedRec { .. }
        | Reply::ReadRecord { .. }
        | Reply::WriteRecord { .. }
        | Reply::ReadResource { .. } => put_entry(out, reply),
        Reply::ReadOpenDbInfo { count } => put_count_alone(out, 0x2B, *count),
        Reply::ReadRecordIdList { ids } => put_id_list(out, ids),
        _ => put_alone(out, bare_function(reply)),
    }
}

// A record or a resource.
fn put_entry(out: &mut Message, reply: &Reply<'_>)
    requires entry { IsOfEntry (reply_value reply.now) }
    requires writable { IsWritable (reply_value reply.now) }
    ensures { out.new ≡ reply_text (reply_value reply.now) }
{
    match reply {
        Reply::ReadNextModifiedRec {
            id,
            index,
            size,
            attributes,
            category,
            bytes,
        } => put_record(out, 0x1F, *id, *index, *size, *attributes, *category, bytes),
        Reply::ReadRecord {
            id,
            index,
            size,
            attributes,
            category,
            bytes,
        } => put_record(out, 0x20, *id, *index, *size, *attributes, *category, bytes),
        Reply::WriteRecord { id } => put_id_alone(out, 0x21, *id),
        Reply::ReadResource {
            kind,
            id,
            index,
            size,
            bytes,
        } => put_resource(out, &kind.0, *id, *index, *size, bytes),
        _ => unreachable!(),
    }
}

// The function of a reply without an argument.
fn bare_function(reply: &Reply<'_>) -> u8
    requires { IsAlone (frame (reply_value reply.now)) }
    ensures alone { frame (reply_value reply.now) ≡ Alone result }
    ensures small { result < 0x80 }
{
    match reply {
        Reply::WriteUserInfo => 0x11,
        Reply::CloseDb => 0x19,
        Reply::DeleteDb => 0x1A,
        Reply::WriteAppBlock => 0x1C,
        Reply::WriteSortBlock => 0x1E,
        Reply::DeleteRecord => 0x22,
        Reply::WriteResource => 0x24,
        Reply::DeleteResource => 0x25,
        Reply::CleanUpDatabase => 0x26,
        Reply::ResetSyncFlags => 0x27,
        Reply::ResetRecordIndex => 0x30,
        Reply::AddSyncLogEntry => 0x2A,
        Reply::MoveCategory => 0x2C,
        Reply::OpenConduit => 0x2E,
        Reply::EndOfSync => 0x2F,
        _ => unreachable!(),
    }
}

// An error of a function.
fn put_refusal(out: &mut Message, function: u8, code: ErrorCode)
    ensures { out.new ≡ frame_text (Refusal function code.0) }
{
    let code = code.0.to_be_bytes();
    out.clear();
    append(out, &[reply_byte(function), 0, code[0], code[1]]);
}

// A function's reply without an argument.
fn put_alone(out: &mut Message, number: u8)
    requires { number < 0x80 }
    ensures { out.new ≡ (number + 0x80) ∷ 0 ∷ 0 ∷ 0 ∷ [] }
{
    out.clear();
    append(out, &[number + 0x80, 0, 0, 0]);
}
