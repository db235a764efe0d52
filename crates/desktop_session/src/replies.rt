// What the replies of the handheld say.
ghost use Rattle.std.specs.Prelude.{◌≡◌, ◌++◌, ◌∷◌, [], IfErr, IfOk, IsOk, None, OnOk};
ghost use Rattle.std.specs.Option.{option_map};
ghost use Rattle.dlp_args.specs.Views.{Gives};
ghost use Rattle.dlp_replies.specs.ReplyReading.{reply_at};
ghost use Rattle.dlp_replies.specs.Views.{reply_value};
ghost use Rattle.desktop_session.specs.Answers as answers;
ghost use Rattle.desktop_session.specs.Answers.{block_of, count_of, handle_of, id_of, ids_of, list_of, mapped, no_more};
ghost use Rattle.desktop_session.specs.Answers.{record_of, resource_of, said_in, user_of};
ghost use Rattle.desktop_session.specs.Asking.{ids_behind};
ghost use Rattle.desktop_session.specs.Following.{OrNoMemory};
ghost use Rattle.desktop_session.specs.Greeted as greeted;
ghost use Rattle.desktop_session.specs.Greeted.{page};
ghost use Rattle.desktop_session.specs.Lent.{lent_resource, lent_value};
ghost use Rattle.desktop_session.specs.Lists as lists;
ghost use Rattle.desktop_session.specs.Replies.{AnswersTo};
ghost use Rattle.desktop_session.specs.Starts.{next_start};
ghost use Rattle.desktop_session.specs.Wholes as wholes;

use crate::fault::SessionFault;
use crate::lent::{RecordLent, ResourceLent};
use dlp_commands::{Entries, ErrorCode, Ids, Reply, read_reply};
use pdb_values::{DbHead, Password, RecordId, UserInfo, UserName};
use std::alloc::AllocError;

// The reply to a function, which is no error.
fn reply_in(function: u8, bytes: &[u8]) -> Result<Reply<'_>, SessionFault>
    ensures said { Gives reply_value result (said_in function (λ reply. reply)
        (reply_at function bytes.now)) }
    ensures own { IfOk result (λ reply. AnswersTo function (reply_value reply) bytes.now) }
{
    match read_reply(function, bytes) {
        Ok(Reply::Refused { code, .. }) => Err(SessionFault::Refused { function, code }),
        Ok(reply) => Ok(reply),
        Err(fault) => Err(SessionFault::BadReply { function, fault }),
    }
}

// The handle of a database that is open now.
pub(crate) fn opened_in(bytes: &[u8]) -> Result<u8, SessionFault>
    ensures { result ≡ said_in 0x17 handle_of (reply_at 0x17 bytes.now) }
{
    match reply_in(0x17, bytes)? {
        Reply::OpenDb { handle } => Ok(handle),
        _ => unreachable!(),
    }
}

// The handle of a database that was made.
pub(crate) fn created_in(bytes: &[u8]) -> Result<u8, SessionFault>
    ensures { result ≡ said_in 0x18 handle_of (reply_at 0x18 bytes.now) }
{
    match reply_in(0x18, bytes)? {
        Reply::CreateDb { handle } => Ok(handle),
        _ => unreachable!(),
    }
}

// A number of entries.
pub(crate) fn count_in(bytes: &[u8]) -> Result<u16, SessionFault>
    ensures { result ≡ said_in 0x2B count_of (reply_at 0x2B bytes.now) }
{
    match reply_in(0x2B, bytes)? {
        Reply::ReadOpenDbInfo { count } => Ok(count),
        _ => unreachable!(),
    }
}

// A reply that says nothing but that it was done.
pub(crate) fn done_in(function: u8, bytes: &[u8]) -> Result<(), SessionFault>
    ensures { result ≡ said_in function no_more (reply_at function bytes.now) }
{
    let _reply = reply_in(function, bytes)?;
    Ok(())
}

// Error 5 says that there is none.
pub(crate) fn or_none<T>(answer: Result<T, SessionFault>) -> Result<Option<T>, SessionFault>
    ensures { result ≡ answers.or_none answer }
{
    match answer {
        Ok(found) => Ok(Some(found)),
        Err(
            SessionFault::Refused {
                code: ErrorCode(5),
                ..
            },
        ) => Ok(None),
        Err(fault) => Err(fault),
    }
}

// The same of what says nothing more.
pub(crate) fn or_false(answer: Result<(), SessionFault>) -> Result<bool, SessionFault>
    ensures { result ≡ answers.or_false answer }
{
    match answer {
        Ok(()) => Ok(true),
        Err(
            SessionFault::Refused {
                code: ErrorCode(5),
                ..
            },
        ) => Ok(false),
        Err(fault) => Err(fault),
    }
}

// The id of a written record.
pub(crate) fn id_in(bytes: &[u8]) -> Result<RecordId, SessionFault>
    ensures { result ≡ said_in 0x21 id_of (reply_at 0x21 bytes.now) }
{
    match reply_in(0x21, bytes)? {
        Reply::WriteRecord { id } => Ok(id),
        _ => unreachable!(),
    }
}

// The record in a reply to ReadRecord.
pub(crate) fn record_in(bytes: &[u8]) -> Result<RecordLent<'_>, SessionFault>
    ensures { Gives lent_value result (said_in 0x20 record_of (reply_at 0x20 bytes.now)) }
{
    match reply_in(0x20, bytes)? {
        Reply::ReadRecord {
            id,
            attributes,
            category,
            bytes,
            ..
        } => Ok(RecordLent {
            id: id.number(),
            attributes,
            category: category.number(),
            bytes,
        }),
        _ => unreachable!(),
    }
}

// Whether a record has all the bytes of the size that its reply tells. No other reply has one.
pub(crate) fn is_whole(function: u8, bytes: &[u8]) -> bool
    ensures { result ≡ wholes.is_whole (reply_at function bytes.now) }
{
    match read_reply(function, bytes) {
        Ok(Reply::ReadRecord { size, bytes, .. }) => usize::from(size) <= bytes.len(),
        Ok(Reply::ReadNextModifiedRec { size, bytes, .. }) => usize::from(size) <= bytes.len(),
        _ => true,
    }
}

// The same, or nothing where there is none.
#[tactic(auto, using(crate::proofs::AnswerLaws::gives_or_none))]
pub(crate) fn found_in(bytes: &[u8]) -> Result<Option<RecordLent<'_>>, SessionFault>
    ensures { Gives (option_map lent_value) result
        (answers.or_none (said_in 0x20 record_of (reply_at 0x20 bytes.now))) }
{
    or_none(record_in(bytes))
}

// The record in a reply to ReadNextModifiedRec.
fn changed_in(bytes: &[u8]) -> Result<RecordLent<'_>, SessionFault>
    ensures { Gives lent_value result (said_in 0x1F record_of (reply_at 0x1F bytes.now)) }
{
    match reply_in(0x1F, bytes)? {
        Reply::ReadNextModifiedRec {
            id,
            attributes,
            category,
            bytes,
            ..
        } => Ok(RecordLent {
            id: id.number(),
            attributes,
            category: category.number(),
            bytes,
        }),
        _ => unreachable!(),
    }
}

// The same, or nothing where none is left.
#[tactic(auto, using(crate::proofs::AnswerLaws::gives_or_none))]
pub(crate) fn next_in(bytes: &[u8]) -> Result<Option<RecordLent<'_>>, SessionFault>
    ensures { Gives (option_map lent_value) result
        (answers.or_none (said_in 0x1F record_of (reply_at 0x1F bytes.now))) }
{
    or_none(changed_in(bytes))
}

// The resource in a reply to ReadResource.
pub(crate) fn resource_in(bytes: &[u8]) -> Result<ResourceLent<'_>, SessionFault>
    ensures { Gives lent_resource result (said_in 0x23 resource_of (reply_at 0x23 bytes.now)) }
{
    match reply_in(0x23, bytes)? {
        Reply::ReadResource {
            kind,
            id,
            bytes,
            ..
        } => Ok(ResourceLent { kind, id, bytes }),
        _ => unreachable!(),
    }
}

// The app block in a reply to ReadAppBlock.
pub(crate) fn app_in(bytes: &[u8]) -> Result<&[u8], SessionFault>
    ensures { Gives (λ block. block.now) result (said_in 0x1B block_of (reply_at 0x1B bytes.now)) }
{
    match reply_in(0x1B, bytes)? {
        Reply::ReadAppBlock { bytes } => Ok(bytes),
        _ => unreachable!(),
    }
}

// The sort block in a reply to ReadSortBlock.
pub(crate) fn sort_in(bytes: &[u8]) -> Result<&[u8], SessionFault>
    ensures { Gives (λ block. block.now) result (said_in 0x1D block_of (reply_at 0x1D bytes.now)) }
{
    match reply_in(0x1D, bytes)? {
        Reply::ReadSortBlock { bytes } => Ok(bytes),
        _ => unreachable!(),
    }
}

// What the handheld knows of its user.
pub(crate) fn user_in(bytes: &[u8]) -> Result<UserInfo, SessionFault>
    ensures { result ≡ said_in 0x10 user_of (reply_at 0x10 bytes.now) }
{
    match reply_in(0x10, bytes)? {
        Reply::ReadUserInfo {
            user,
            viewer,
            pc,
            good,
            last,
            name,
            password,
        } => {
            let name = UserName::new(name).unwrap();
            let password = Password::new(password).unwrap();
            Ok(UserInfo {
                user,
                viewer,
                pc,
                good,
                last,
                name,
                password,
            })
        }
        _ => unreachable!(),
    }
}

// The last index, the flags and the entries in a reply to ReadDBList.
fn entries_in(bytes: &[u8]) -> Result<(u16, u8, Entries<'_>), SessionFault>
    ensures { Gives (λ found. found) result (said_in 0x16 list_of (reply_at 0x16 bytes.now)) }
{
    match reply_in(0x16, bytes)? {
        Reply::ReadDbList {
            last,
            flags,
            entries,
        } => Ok((last, flags, entries)),
        _ => unreachable!(),
    }
}

// The ids in a reply to ReadRecordIDList.
fn ids_in(bytes: &[u8]) -> Result<Ids<'_>, SessionFault>
    ensures { Gives (λ ids. ids) result (said_in 0x31 ids_of (reply_at 0x31 bytes.now)) }
{
    match reply_in(0x31, bytes)? {
        Reply::ReadRecordIdList { ids } => Ok(ids),
        _ => unreachable!(),
    }
}

// Appends the heads in a reply to ReadDBList from a start on, and answers where the list goes on. Error 5 says that none
// is left.
pub(crate) fn add_heads(
    bytes: &[u8],
    start: u16,
    heads: &mut Vec<DbHead>,
) -> Result<Option<u16>, SessionFault>
    ensures heads { OnOk result (heads.new.items ≡ heads.old.items ++ lists.heads_in
        (reply_at 0x16 bytes.now)) }
    ensures next { IfOk result (λ next. next ≡ next_start start (reply_at 0x16 bytes.now)) }
    ensures page { OrNoMemory (page start heads.old.items (reply_at 0x16 bytes.now))
        (mapped (λ next. (heads.new.items, next)) result) }
    ensures cause { IfErr result (lists.HasCause None (reply_at 0x16 bytes.now)) }
    ensures function { IfErr result (lists.IsToldOf 0x16) }
    ensures others { IfErr result lists.IsNotMissing }
{
    let Some((last, flags, entries)) = or_none(entries_in(bytes))? else {
        return Ok(None);
    };
    for place in 0..entries.len() {
        let entry = entries.get(place).unwrap();
        let (_, head) = entry;
        push(heads, head)?;
    }
    Ok(list_behind(start, last, flags))
}

// Where a list goes on that was asked for from a start on, by the last index and the flags of its reply.
fn list_behind(start: u16, last: u16, flags: u8) -> Option<u16>
    ensures { result ≡ greeted.list_behind start last flags }
{
    if flags & 0x80 == 0 || last < start || last == u16::MAX {
        return None;
    }
    Some(last + 1)
}

// Appends the ids in a reply to ReadRecordIDList.
pub(crate) fn add_ids(bytes: &[u8], all: &mut Vec<RecordId>) -> Result<(), SessionFault>
    ensures ids { OnOk result (all.new.items ≡ all.old.items ++ lists.ids_in
        (reply_at 0x31 bytes.now)) }
    ensures read { OnOk result (IsOk (said_in 0x31 ids_of (reply_at 0x31 bytes.now))) }
    ensures behind { OrNoMemory (ids_behind all.old.items (reply_at 0x31 bytes.now))
        (mapped (λ done. all.new.items) result) }
    ensures cause { IfErr result (lists.HasCause None (reply_at 0x31 bytes.now)) }
    ensures function { IfErr result (lists.IsToldOf 0x31) }
{
    let ids = ids_in(bytes)?;
    for place in 0..ids.len() {
        let id = ids.get(place).unwrap();
        push(all, id)?;
    }
    Ok(())
}

// Appends one more.
fn push<T: Drop>(items: &mut Vec<T>, item: T) -> Result<(), SessionFault>
    ensures items { OnOk result (items.new.items ≡ items.old.items ++ item ∷ []) }
    ensures memory { IfErr result (λ fault. fault ≡ SessionFault.NoMemory) }
{
    items.push(item).map_err(AllocError::from)?;
    Ok(())
}
