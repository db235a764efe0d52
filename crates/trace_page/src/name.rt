// The name of what a frame bears.
ghost use Rattle.std.specs.Prelude.{◌≡◌, ◌++◌, OnOk, string_bytes};
ghost use Rattle.trace_page.specs.Names as names;

use crate::bearing::Bearing;
use dlp_args::Function;
use padp_link::PadpKind;
use std::alloc::AllocError;
use std::fmt::Write;
use trace_text::End;

/// Appends the name of what an end's frame bears, where the message that the end is at begins with this byte.
#[tactic(auto, unfolding(crate::specs::Names::name_of))]
pub(crate) fn push_name(
    text: &mut String,
    from: End,
    bearing: &Bearing,
    front: u8,
) -> Result<(), AllocError>
    ensures { OnOk result (string_bytes text.new
        ≡ string_bytes text.old ++ names.name_of from bearing.now front) }
{
    match bearing.kind {
        PadpKind::Data => push_part(text, from, bearing, front),
        PadpKind::Ack => text.push_str("ack"),
        PadpKind::Tickle => text.push_str("tickle"),
        PadpKind::Abort => text.push_str("abort"),
    }
}

// Appends the name of a part of a message.
fn push_part(text: &mut String, from: End, bearing: &Bearing, front: u8) -> Result<(), AllocError>
    ensures { OnOk result (string_bytes text.new ≡ string_bytes text.old
        ++ names.name_by PadpKind.Data from bearing.now front) }
{
    push_message(text, from, bearing, front)?;
    push_part_word(text, bearing)?;
    push_error(text, from, bearing)?;
    Ok(())
}

// Appends the name of a message.
#[tactic(auto, unfolding(crate::specs::Names::message_word))]
fn push_message(
    text: &mut String,
    from: End,
    bearing: &Bearing,
    front: u8,
) -> Result<(), AllocError>
    ensures { OnOk result (string_bytes text.new
        ≡ string_bytes text.old ++ names.message_word from bearing.now front) }
{
    if bearing.is_greeting() {
        text.push_str(greeting_word(front))?;
        return Ok(());
    }
    text.push_str(request_word(Function::of(function_byte(from, front))))?;
    text.push_str(reply_ending(from))?;
    Ok(())
}

// Appends which part of its message it is, where that has more than one.
#[tactic(auto, unfolding(crate::specs::Names::part_word))]
fn push_part_word(text: &mut String, bearing: &Bearing) -> Result<(), AllocError>
    ensures { OnOk result (string_bytes text.new
        ≡ string_bytes text.old ++ names.part_word bearing.now) }
{
    if !bearing.begins_message() {
        let place = bearing.key.size;
        write!(text, " (part at {place})")?;
        return Ok(());
    }
    if !bearing.ends_message() {
        text.push_str(" (first part)")?;
    }
    Ok(())
}

// Appends the error of a reply that says one.
fn push_error(text: &mut String, from: End, bearing: &Bearing) -> Result<(), AllocError>
    ensures { OnOk result (string_bytes text.new
        ≡ string_bytes text.old ++ names.error_word from bearing.now) }
{
    if says_error(from, bearing) {
        let error = bearing.error;
        write!(text, " error {error}")?;
    }
    Ok(())
}

// Whether it is a handheld's reply that says an error.
fn says_error(from: End, bearing: &Bearing) -> bool
    ensures { result ≡ names.says_error from bearing.now }
{
    match from {
        End::Handheld => {
            bearing.begins_message() && !bearing.is_greeting() && bearing.error != 0
        }
        End::Desktop => false,
    }
}

// The byte of the function of a message that begins with this one.
fn function_byte(from: End, front: u8) -> u8
    ensures { result ≡ names.function_byte from front }
{
    match from {
        End::Handheld => front.saturating_sub(0x80),
        End::Desktop => front,
    }
}

fn greeting_word(front: u8) -> &'static str
    ensures { result.now ≡ names.greeting_word front }
{
    match front {
        1 => "Wake",
        2 => "Init",
        _ => "greeting",
    }
}

fn reply_ending(from: End) -> &'static str
    ensures { result.now ≡ names.reply_ending from }
{
    match from {
        End::Handheld => " reply",
        End::Desktop => "",
    }
}

fn request_word(function: Option<Function>) -> &'static str
    ensures { result.now ≡ names.request_word function }
{
    match function {
        Some(function) => function_word(function),
        None => "request",
    }
}

fn function_word(function: Function) -> &'static str
    ensures { result.now ≡ names.function_word function }
{
    match function {
        Function::ReadUserInfo => "ReadUserInfo",
        Function::WriteUserInfo => "WriteUserInfo",
        Function::ReadSysInfo => "ReadSysInfo",
        Function::ReadDbList => "ReadDBList",
        Function::OpenDb => "OpenDB",
        Function::CreateDb => "CreateDB",
        Function::CloseDb => "CloseDB",
        Function::DeleteDb => "DeleteDB",
        Function::ReadAppBlock => "ReadAppBlock",
        Function::WriteAppBlock => "WriteAppBlock",
        Function::ReadSortBlock => "ReadSortBlock",
        Function::WriteSortBlock => "WriteSortBlock",
        Function::ReadNextModifiedRec => "ReadNextModifiedRec",
        Function::ReadRecord => "ReadRecord",
        Function::WriteRecord => "WriteRecord",
        Function::DeleteRecord => "DeleteRecord",
        Function::ReadResource => "ReadResource",
        Function::WriteResource => "WriteResource",
        Function::DeleteResource => "DeleteResource",
        Function::CleanUpDatabase => "CleanUpDatabase",
        Function::ResetSyncFlags => "ResetSyncFlags",
        Function::AddSyncLogEntry => "AddSyncLogEntry",
        Function::ReadOpenDbInfo => "ReadOpenDBInfo",
        Function::MoveCategory => "MoveCategory",
        Function::OpenConduit => "OpenConduit",
        Function::EndOfSync => "EndOfSync",
        Function::ResetRecordIndex => "ResetRecordIndex",
        Function::ReadRecordIdList => "ReadRecordIDList",
    }
}
