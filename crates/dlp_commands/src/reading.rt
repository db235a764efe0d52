// The functions that read the database of a handle.
ghost use Rattle.std.specs.Prelude.{ℕ, ◌≡◌, ◌≢◌, IfOk, IfSome, OnOk, is_some};
ghost use Rattle.dlp_requests.specs.Views.{request_value};
ghost use Rattle.dlp_replies.specs.Views.{reply_value};
ghost use Rattle.dlp_replies.specs.Writables.{IsWritable};
ghost use Rattle.dlp_commands.specs.Answers.{Finds, answered};
ghost use Rattle.dlp_commands.specs.Asked.{AsksToRead, entry_forms, reading_forms, resource_forms};
ghost use Rattle.dlp_commands.specs.Changes.{is_among};
ghost use Rattle.dlp_commands.specs.DeviceSteps.{function_number};
ghost use Rattle.dlp_commands.specs.Readings.{read_in, read_of, read_on};

use crate::block::block_part;
use crate::holds::Holds;
use crate::record::{ids_from, record_part};
use crate::refusal::Refusal;
use crate::reply::{put_ids, put_refusal, put_reply};
use crate::resource::resource_part;
use dlp_args::Message;
use dlp_replies::Reply;
use dlp_requests::Request;
use palm_device::{entry_count, place_of_id, place_of_resource};
use pdb_values::{Database, FourCc};
use std::alloc::{AllocError, Global};

/// What a function reads of the database that its handle leads to: at most so many bytes from an offset on, a number of
/// entries, or ids.
#[derive(Clone, Copy)]
pub enum Reading {
    AppBlock {
        offset: u16,
        length: u16,
    },
    SortBlock {
        offset: u16,
        length: u16,
    },
    EntryCount,
    RecordOfId {
        id: u32,
        offset: u16,
        length: u16,
    },
    RecordAt {
        index: u16,
        offset: u16,
        length: u16,
    },
    /// The ids of records from an index on.
    RecordIds {
        start: u16,
        maximum: u16,
    },
    ResourceOfType {
        kind: FourCc,
        id: u16,
        offset: u16,
        length: u16,
    },
    ResourceAt {
        index: u16,
        offset: u16,
        length: u16,
    },
}

#[tactic(auto, using(crate::proofs::AnswerLaws::found_text))]
impl Reading {
    /// What a request reads of the database of its handle, with that handle; `None` where it reads none.
    pub fn of(request: &Request<'_>) -> Option<(u8, Reading)>
        ensures asks { IfSome result
            (λ found. AsksToRead (request_value request.now) found.0 found.1) }
        ensures some { is_some result
            ≡ is_among reading_forms (function_number (request_value request.now)) }
    {
        match *request {
            Request::ReadAppBlock {
                handle,
                offset,
                length,
            } => Some((handle, Reading::AppBlock { offset, length })),
            Request::ReadSortBlock {
                handle,
                offset,
                length,
            } => Some((handle, Reading::SortBlock { offset, length })),
            Request::ReadOpenDbInfo { handle } => Some((handle, Reading::EntryCount)),
            _ => Reading::of_records(request),
        }
    }

    // The same of a request for records or resources.
    fn of_records(request: &Request<'_>) -> Option<(u8, Reading)>
        ensures asks { IfSome result
            (λ found. AsksToRead (request_value request.now) found.0 found.1) }
        ensures some { is_some result
            ≡ is_among entry_forms (function_number (request_value request.now)) }
    {
        match *request {
            Request::ReadRecordIdList {
                handle,
                start,
                maximum,
                ..
            } => Some((handle, Reading::RecordIds { start, maximum })),
            Request::ReadRecordById {
                handle,
                id,
                offset,
                length,
            } => Some((handle, Reading::RecordOfId { id, offset, length })),
            Request::ReadRecordByIndex {
                handle,
                index,
                offset,
                length,
            } => Some((
                handle,
                Reading::RecordAt {
                    index,
                    offset,
                    length,
                },
            )),
            _ => Reading::of_resources(request),
        }
    }

    // The same of a request for resources.
    fn of_resources(request: &Request<'_>) -> Option<(u8, Reading)>
        ensures asks { IfSome result
            (λ found. AsksToRead (request_value request.now) found.0 found.1) }
        ensures some { is_some result
            ≡ is_among resource_forms (function_number (request_value request.now)) }
    {
        match *request {
            Request::ReadResourceByType {
                handle,
                kind,
                id,
                offset,
                length,
            } => Some((
                handle,
                Reading::ResourceOfType {
                    kind,
                    id,
                    offset,
                    length,
                },
            )),
            Request::ReadResourceByIndex {
                handle,
                index,
                offset,
                length,
            } => Some((
                handle,
                Reading::ResourceAt {
                    index,
                    offset,
                    length,
                },
            )),
            _ => None,
        }
    }

    // What the database has to hold.
    fn holds(&self) -> Holds
        ensures { result ≡ read_on self.now }
    {
        match self {
            Reading::AppBlock { .. } => Holds::Either,
            Reading::SortBlock { .. } => Holds::Either,
            Reading::EntryCount => Holds::Either,
            Reading::RecordOfId { .. } => Holds::Records,
            Reading::RecordAt { .. } => Holds::Records,
            Reading::RecordIds { .. } => Holds::Records,
            Reading::ResourceOfType { .. } => Holds::Resources,
            Reading::ResourceAt { .. } => Holds::Resources,
        }
    }

    /// Replies what the database has of it, or the error, to the function of this byte. Want of memory comes for ids alone.
    pub fn answer(
        &self,
        alloc: Global,
        database: &Database,
        number: u8,
        out: &mut Message,
    ) -> Result<(), AllocError>
        ensures { OnOk result (out.new ≡ answered number (read_in self.now database.now)) }
    {
        if !self.holds().fits(database) {
            put_refusal(out, number, Refusal::NotSupported);
            return Ok(());
        }
        self.answer_suited(alloc, database, number, out)
    }

    // The same, where the database holds it.
    fn answer_suited(
        &self,
        alloc: Global,
        database: &Database,
        number: u8,
        out: &mut Message,
    ) -> Result<(), AllocError>
        ensures { OnOk result (out.new ≡ answered number (read_of self.now database.now)) }
    {
        match *self {
            Reading::RecordIds { start, maximum } => {
                let count = maximum.min(16_000) as usize;
                let ids = ids_from(alloc, database.records(), start as usize, count)?;
                put_ids(out, &ids);
            }
            _ => put_reply(out, number, self.part(database)),
        }
        Ok(())
    }

    // What the database has of it, where it holds it and no ids are asked for.
    fn part<'a>(&self, database: &'a Database) -> Result<Reply<'a>, Refusal>
        requires { (start maximum : ℕ) → self.now ≢ Reading.RecordIds start maximum }
        ensures part { Finds reply_value result (read_of self.now database.now) }
        ensures writable { IfOk result (λ reply. IsWritable (reply_value reply)) }
    {
        match *self {
            Reading::AppBlock { offset, length } => app_block(database, offset, length),
            Reading::SortBlock { offset, length } => sort_block(database, offset, length),
            Reading::EntryCount => Ok(Reply::ReadOpenDbInfo {
                count: entry_count(database),
            }),
            Reading::RecordOfId { id, offset, length } => record_of_id(
                database, id, offset, length,
            ),
            Reading::RecordAt {
                index,
                offset,
                length,
            } => record_part(database, index as usize, offset, length),
            Reading::ResourceOfType {
                kind,
                id,
                offset,
                length,
            } => resource_of_type(database, kind, id, offset, length),
            Reading::ResourceAt {
                index,
                offset,
                length,
            } => resource_part(database, index as usize, offset, length),
            Reading::RecordIds { .. } => unreachable!(),
        }
    }
}

// A part of the app block.
#[tactic(auto, using(crate::proofs::Fits::app_fits))]
fn app_block(database: &Database, offset: u16, count: u16) -> Result<Reply<'_>, Refusal>
    ensures part { Finds reply_value result (read_of (Reading.AppBlock offset count) database.now) }
    ensures writable { IfOk result (λ reply. IsWritable (reply_value reply)) }
{
    let bytes = block_part(database.app(), offset, count)?;
    Ok(Reply::ReadAppBlock { bytes })
}

// A part of the sort block.
#[tactic(auto, using(crate::proofs::Fits::sort_fits))]
fn sort_block(database: &Database, offset: u16, count: u16) -> Result<Reply<'_>, Refusal>
    ensures part { Finds reply_value result
        (read_of (Reading.SortBlock offset count) database.now) }
    ensures writable { IfOk result (λ reply. IsWritable (reply_value reply)) }
{
    let bytes = block_part(database.sort(), offset, count)?;
    Ok(Reply::ReadSortBlock { bytes })
}

// A part of the record of an id.
fn record_of_id(database: &Database, id: u32, offset: u16, count: u16) -> Result<Reply<'_>, Refusal>
    ensures part { Finds reply_value result
        (read_of (Reading.RecordOfId id offset count) database.now) }
    ensures writable { IfOk result (λ reply. IsWritable (reply_value reply)) }
{
    let Some(index) = place_of_id(database.records(), id) else {
        return Err(Refusal::NotFound);
    };
    record_part(database, index, offset, count)
}

// A part of the first resource of a type and id.
fn resource_of_type(
    database: &Database,
    kind: FourCc,
    id: u16,
    offset: u16,
    count: u16,
) -> Result<Reply<'_>, Refusal>
    ensures part { Finds reply_value result
        (read_of (Reading.ResourceOfType kind id offset count) database.now) }
    ensures writable { IfOk result (λ reply. IsWritable (reply_value reply)) }
{
    let Some(index) = place_of_resource(database.resources(), kind, id) else {
        return Err(Refusal::NotFound);
    };
    resource_part(database, index, offset, count)
}
