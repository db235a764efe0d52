// The functions that write into the database of a handle.
ghost use Rattle.std.specs.Prelude.{◌≡◌, ◌==◌, ◌≤◌, IfOk, IfSome, false, is_some, length, true};
ghost use Rattle.pdb_values.specs.Bounds.{most_bytes};
ghost use Rattle.pdb_values.specs.Heads.{holds_resources};
ghost use Rattle.dlp_requests.specs.Views.{request_value};
ghost use Rattle.dlp_replies.specs.Frames.{reply_text};
ghost use Rattle.palm_device.specs.Edits.{IsFor, gives_free};
ghost use Rattle.dlp_commands.specs.Asked.{AsksToWrite};
ghost use Rattle.dlp_commands.specs.Changes.{is_among, record_writing_forms, writing_forms};
ghost use Rattle.dlp_commands.specs.DeviceSteps.{function_number};
ghost use Rattle.dlp_commands.specs.Holding.{fits};
ghost use Rattle.dlp_commands.specs.Writings as value;
ghost use Rattle.dlp_commands.specs.Writings.{IsShortWriting, Plans, PlansHeld, asks_free, write_reply as reply_to, writing_value, written_on};

use crate::holds::Holds;
use crate::record::may_write;
use crate::refusal::Refusal;
use crate::resource::has_room;
use dlp_args::Message;
use dlp_replies::{Reply, write_reply};
use dlp_requests::Request;
use palm_device::{Edit, Kept, has_bit, place_of_id, place_of_resource};
use pdb_values::{Category, Database, FourCc, RecordId};

/// What a function writes into the database that its handle leads to.
#[derive(Clone, Copy)]
pub enum Writing<'a> {
    /// No bytes take the block away.
    AppBlock {
        bytes: &'a [u8],
    },
    /// No bytes take the block away.
    SortBlock {
        bytes: &'a [u8],
    },
    /// Id 0 asks for a free id. Of the attributes only 0x10 counts.
    Record {
        id: u32,
        attributes: u8,
        category: u8,
        bytes: &'a [u8],
    },
    /// Flag 0x80 takes all records, flag 0x40 those of a category.
    DeleteRecord {
        flags: u8,
        id: u32,
    },
    CleanUp,
    ResetFlags,
    MoveCategory {
        from: u8,
        to: u8,
    },
    Resource {
        kind: FourCc,
        id: u16,
        bytes: &'a [u8],
    },
    /// Flag 0x80 takes all resources.
    DeleteResource {
        flags: u8,
        kind: FourCc,
        id: u16,
    },
}

impl<'a> Writing<'a> {
    /// What a request writes into the database of its handle, with that handle; `None` where it writes into none.
    pub fn of(request: &Request<'a>) -> Option<(u8, Writing<'a>)>
        ensures asks { IfSome result (λ found.
            AsksToWrite (request_value request.now) found.0 (writing_value found.1)) }
        ensures some { is_some result
            ≡ is_among writing_forms (function_number (request_value request.now)) }
    {
        match *request {
            Request::WriteAppBlock { handle, bytes } => Some((handle, Writing::AppBlock { bytes })),
            Request::WriteSortBlock { handle, bytes } => {
                Some((handle, Writing::SortBlock { bytes }))
            }
            Request::CleanUpDatabase { handle } => Some((handle, Writing::CleanUp)),
            Request::WriteResource {
                handle,
                kind,
                id,
                bytes,
            } => Some((handle, Writing::Resource { kind, id, bytes })),
            Request::DeleteResource {
                handle,
                flags,
                kind,
                id,
            } => Some((handle, Writing::DeleteResource { flags, kind, id })),
            _ => Writing::of_records(request),
        }
    }

    // The same of a request that writes records alone.
    fn of_records(request: &Request<'a>) -> Option<(u8, Writing<'a>)>
        ensures asks { IfSome result (λ found.
            AsksToWrite (request_value request.now) found.0 (writing_value found.1)) }
        ensures some { is_some result
            ≡ is_among record_writing_forms (function_number (request_value request.now)) }
    {
        match *request {
            Request::WriteRecord {
                handle,
                id,
                attributes,
                category,
                bytes,
                ..
            } => Some((
                handle,
                Writing::Record {
                    id,
                    attributes,
                    category,
                    bytes,
                },
            )),
            Request::DeleteRecord { handle, flags, id } => {
                Some((handle, Writing::DeleteRecord { flags, id }))
            }
            Request::ResetSyncFlags { handle } => Some((handle, Writing::ResetFlags)),
            Request::MoveCategory { handle, from, to } => {
                Some((handle, Writing::MoveCategory { from, to }))
            }
            _ => None,
        }
    }

    // What the database has to hold.
    fn holds(&self) -> Holds
        ensures { result ≡ written_on (writing_value self.now) }
    {
        match self {
            Writing::AppBlock { .. } => Holds::Either,
            Writing::SortBlock { .. } => Holds::Either,
            Writing::Record { .. } => Holds::Records,
            Writing::DeleteRecord { .. } => Holds::Records,
            Writing::CleanUp => Holds::Records,
            Writing::ResetFlags => Holds::Records,
            Writing::MoveCategory { .. } => Holds::Records,
            Writing::Resource { .. } => Holds::Resources,
            Writing::DeleteResource { .. } => Holds::Resources,
        }
    }

    /// The edit that does it, or why it is refused.
    #[tactic(auto, using(crate::proofs::AnswerLaws::plans_held))]
    pub fn plan(&self, database: &Database) -> Result<Edit<'a>, Refusal>
        requires { IsShortWriting (writing_value self.now) }
        ensures plan { Plans (writing_value self.now) database.now result }
        ensures possible { IfOk result (IsFor database.now) }
        ensures free { IfOk result (λ edit. gives_free edit ≡ asks_free (writing_value self.now)) }
    {
        if !self.holds().fits(database) {
            return Err(Refusal::NotSupported);
        }
        self.plan_suited(database)
    }

    // The same, where the database holds it.
    fn plan_suited(&self, database: &Database) -> Result<Edit<'a>, Refusal>
        requires fits { fits (written_on (writing_value self.now)) database.now ≡ true }
        requires short { IsShortWriting (writing_value self.now) }
        ensures plan { PlansHeld (writing_value self.now) database.now result }
        ensures possible { IfOk result (IsFor database.now) }
        ensures free { IfOk result (λ edit. gives_free edit ≡ asks_free (writing_value self.now)) }
    {
        match *self {
            Writing::AppBlock { bytes } => Ok(Edit::AppBlock { bytes }),
            Writing::SortBlock { bytes } => Ok(Edit::SortBlock { bytes }),
            Writing::Record {
                id,
                attributes,
                category,
                bytes,
            } => written_record(database, id, attributes, category, bytes),
            Writing::DeleteRecord { flags, id } => records_gone(database, flags, id),
            Writing::CleanUp => Ok(Edit::Keep { kept: Kept::Live }),
            Writing::ResetFlags => Ok(Edit::ResetFlags),
            Writing::MoveCategory { from, to } => categories(database, from, to),
            Writing::Resource { kind, id, bytes } => written_resource(database, kind, id, bytes),
            Writing::DeleteResource { flags, kind, id } => resources_gone(
                database, flags, kind, id,
            ),
        }
    }

    /// Replies that it is done. A written record has the given id.
    pub fn put_done(&self, given: RecordId, out: &mut Message)
        ensures { out.new ≡ reply_text (reply_to given (writing_value self.now)) }
    {
        let done = match self {
            Writing::AppBlock { .. } => Reply::WriteAppBlock,
            Writing::SortBlock { .. } => Reply::WriteSortBlock,
            Writing::Record { .. } => Reply::WriteRecord { id: given },
            Writing::DeleteRecord { .. } => Reply::DeleteRecord,
            Writing::CleanUp => Reply::CleanUpDatabase,
            Writing::ResetFlags => Reply::ResetSyncFlags,
            Writing::MoveCategory { .. } => Reply::MoveCategory,
            Writing::Resource { .. } => Reply::WriteResource,
            Writing::DeleteResource { .. } => Reply::DeleteResource,
        };
        write_reply(&done, out);
    }
}

// A written record of an id, or a new one.
fn written_record<'a>(
    database: &Database,
    id: u32,
    attributes: u8,
    category: u8,
    bytes: &'a [u8],
) -> Result<Edit<'a>, Refusal>
    requires records { holds_resources database.now.head.attributes ≡ false }
    requires short { length bytes.now ≤ most_bytes }
    ensures plan { PlansHeld (value.WriteRecord id attributes category bytes.now) database.now
        result }
    ensures possible { IfOk result (IsFor database.now) }
    ensures free { IfOk result (λ edit. gives_free edit ≡ (id == 0)) }
{
    match may_write(database, id, category) {
        Ok((id, category)) => Ok(Edit::Record {
            id,
            category,
            secret: has_bit(0x10, attributes as u16),
            bytes,
        }),
        Err(refusal) => Err(refusal),
    }
}

// All records without those that the flags and the id say.
fn records_gone<'a>(database: &Database, flags: u8, id: u32) -> Result<Edit<'a>, Refusal>
    ensures plan { PlansHeld (value.DeleteRecord flags id) database.now result }
    ensures possible { IfOk result (IsFor database.now) }
    ensures free { IfOk result (λ edit. gives_free edit ≡ false) }
{
    if has_bit(0x80, flags as u16) {
        return Ok(Edit::NoRecords);
    }
    if has_bit(0x40, flags as u16) {
        let Some(category) = Category::new((id % 256) as u8) else {
            return Err(Refusal::Parameter);
        };
        return Ok(Edit::Keep {
            kept: Kept::Outside(category),
        });
    }
    if place_of_id(database.records(), id).is_none() {
        return Err(Refusal::NotFound);
    }
    Ok(Edit::WithoutRecord { id })
}

// Every record of a category in another one.
fn categories<'a>(database: &Database, from: u8, to: u8) -> Result<Edit<'a>, Refusal>
    ensures plan { PlansHeld (value.MoveCategory from to) database.now result }
    ensures possible { IfOk result (IsFor database.now) }
    ensures free { IfOk result (λ edit. gives_free edit ≡ false) }
{
    let (Some(from), Some(to)) = (Category::new(from), Category::new(to)) else {
        return Err(Refusal::Parameter);
    };
    Ok(Edit::MoveCategory { from, to })
}

// A written resource.
fn written_resource<'a>(
    database: &Database,
    kind: FourCc,
    id: u16,
    bytes: &'a [u8],
) -> Result<Edit<'a>, Refusal>
    requires resources { holds_resources database.now.head.attributes ≡ true }
    requires short { length bytes.now ≤ most_bytes }
    ensures plan { PlansHeld (value.WriteResource kind.0 id bytes.now) database.now result }
    ensures possible { IfOk result (IsFor database.now) }
    ensures free { IfOk result (λ edit. gives_free edit ≡ false) }
{
    if !has_room(database, kind, id) {
        return Err(Refusal::Limit);
    }
    Ok(Edit::Resource { kind, id, bytes })
}

// All resources without those that the flags, the type and the id say.
fn resources_gone<'a>(
    database: &Database,
    flags: u8,
    kind: FourCc,
    id: u16,
) -> Result<Edit<'a>, Refusal>
    ensures plan { PlansHeld (value.DeleteResource flags kind.0 id) database.now result }
    ensures possible { IfOk result (IsFor database.now) }
    ensures free { IfOk result (λ edit. gives_free edit ≡ false) }
{
    if has_bit(0x80, flags as u16) {
        return Ok(Edit::NoResources);
    }
    if place_of_resource(database.resources(), kind, id).is_none() {
        return Err(Refusal::NotFound);
    }
    Ok(Edit::WithoutResource { kind, id })
}
