//! The header of a database file: its first 78 bytes.

ghost use Rattle.std.specs.Prelude.{◌≡◌, ◌+◌, ◌≤◌, ◌<◌, ◌++◌, ◌∷◌, IfOk, IfSome, OnOk, length, position, take, unwrap_or};
ghost use Rattle.std.specs.Result.{result_err};
ghost use Rattle.pdb_values.specs.Heads.{holds_resources};
ghost use Rattle.pdb_values.specs.Names.{IsName};
ghost use Rattle.pdb_files.specs.Faults.{bad_name, header_fault};
ghost use Rattle.pdb_files.specs.Files.{FitsHeader, entries_end};
ghost use Rattle.pdb_files.specs.Headers.{header_text, is_zero, name_end, zeros_behind};
ghost use Rattle.pdb_files.specs.Reading.{head_in, header_in};

use crate::entry::entry_length;
use crate::fault::FileFault;
use crate::field::{code_at, push_u16, push_u32, u16_at, u32_at};
use pdb_values::{DbHead, DbName, PalmDate};
use std::alloc::AllocError;

/// The length of a header.
pub const HEADER_LENGTH: usize = 78;

/// Where the offset of a second list of entries stands.
pub const NEXT_LIST: usize = 72;

// The bytes of the name, with the zero behind it.
const NAME_LENGTH: usize = 32;

// Where the other fields stand.
const ATTRIBUTES: usize = 32;

const VERSION: usize = 34;

const CREATED: usize = 36;

const MODIFIED: usize = 40;

const BACKUP: usize = 44;

const MODNUM: usize = 48;

const APP: usize = 52;

const SORT: usize = 56;

const KIND: usize = 60;

const CREATOR: usize = 64;

const SEED: usize = 68;

const COUNT: usize = 76;

/// What a header says.
#[derive(Drop)]
pub struct Header {
    /// The head of the database.
    pub head: DbHead,
    /// Where the app block begins, or 0 for none.
    pub app: u32,
    /// Where the sort block begins, or 0 for none.
    pub sort: u32,
    /// How many entries follow.
    pub count: u16,
}

impl Header {
    /// The header at the front of a file, or the first rule on headers that the bytes break.
    #[tactic(auto, unfolding(crate::specs::Reading::header_in))]
    pub fn read(bytes: &[u8]) -> Result<Header, FileFault>
        ensures fault { result_err result ≡ header_fault bytes.now }
        ensures header { IfOk result (λ header. header ≡ header_in bytes.now) }
        ensures long { OnOk result (78 ≤ length bytes.now) }
    {
        if bytes.len() < HEADER_LENGTH {
            return Err(FileFault::Short(bytes.len() as u64));
        }
        let name = read_name(bytes)?;
        if u32_at(bytes, NEXT_LIST) != 0 {
            return Err(FileFault::Chained);
        }
        Ok(Header {
            head: head_of(name, bytes),
            app: u32_at(bytes, APP),
            sort: u32_at(bytes, SORT),
            count: u16_at(bytes, COUNT),
        })
    }

    /// Where the entries end.
    pub fn entries_end(&self) -> usize
        ensures { result ≡ entries_end (holds_resources self.now.head.attributes) self.now.count }
    {
        HEADER_LENGTH + entry_length(self.head.holds_resources()) * self.count as usize
    }
}

// The place of the first zero byte.
fn first_zero(bytes: &[u8]) -> Option<usize>
    ensures place { result ≡ position is_zero bytes.now }
    ensures within { IfSome result (λ place. place < length bytes.now) }
{
    bytes.iter().position(|byte| *byte == 0)
}

// The name in front of the first zero of its field.
fn read_name(bytes: &[u8]) -> Result<DbName, FileFault>
    requires { 32 ≤ length bytes.now }
    ensures fault { result_err result ≡ bad_name (name_end bytes.now) }
    ensures name { IfOk result (λ name. name ≡ take (unwrap_or (name_end bytes.now) 0) bytes.now) }
{
    match first_zero(&bytes[..NAME_LENGTH]) {
        None => Err(FileFault::BadName(NAME_LENGTH as u64)),
        Some(0) => Err(FileFault::BadName(0)),
        Some(length) => Ok(DbName::new(&bytes[..length]).unwrap()),
    }
}

// The head, under a name that was read.
#[tactic(auto, unfolding(crate::specs::Reading::head_in))]
fn head_of(name: DbName, bytes: &[u8]) -> DbHead
    requires long { 78 ≤ length bytes.now }
    requires name { name ≡ take (unwrap_or (name_end bytes.now) 0) bytes.now }
    ensures { result ≡ head_in bytes.now }
{
    DbHead {
        name,
        attributes: u16_at(bytes, ATTRIBUTES),
        version: u16_at(bytes, VERSION),
        created: PalmDate::of_seconds(u32_at(bytes, CREATED)),
        modified: PalmDate::of_seconds(u32_at(bytes, MODIFIED)),
        backup: PalmDate::of_seconds(u32_at(bytes, BACKUP)),
        modnum: u32_at(bytes, MODNUM),
        seed: u32_at(bytes, SEED),
        kind: code_at(bytes, KIND),
        creator: code_at(bytes, CREATOR),
    }
}

/// Writes the header of a database with so many entries, whose app block and sort block begin at these places. An
/// absent block has place 0.
#[tactic(auto, unfolding(crate::specs::Headers::header_text))]
pub fn push_header(
    out: &mut Vec<u8>,
    head: &DbHead,
    app: u32,
    sort: u32,
    count: u16,
) -> Result<(), AllocError>
    ensures text { OnOk result (out.new.items ≡ out.old.items
        ++ header_text head.now (zeros_behind head.now.name) app sort count) }
    ensures fits { OnOk result (FitsHeader head.now) }
{
    push_name(out, &head.name)?;
    push_u16(out, head.attributes)?;
    push_u16(out, head.version)?;
    push_u32(out, head.created.seconds())?;
    push_u32(out, head.modified.seconds())?;
    push_u32(out, head.backup.seconds())?;
    push_u32(out, head.modnum)?;
    push_u32(out, app)?;
    push_u32(out, sort)?;
    out.extend_from_slice(&head.kind.0)?;
    out.extend_from_slice(&head.creator.0)?;
    push_u32(out, head.seed)?;
    // No second list of entries.
    push_u32(out, 0)?;
    push_u16(out, count)?;
    Ok(())
}

// Writes a name, and zeros up to the end of its field.
fn push_name(out: &mut Vec<u8>, name: &DbName) -> Result<(), AllocError>
    ensures text { OnOk result (
        out.new.items ≡ out.old.items ++ (name.now ++ 0 ∷ zeros_behind name.now)) }
    ensures name { IsName name.now }
{
    let name = name.as_bytes();
    out.extend_from_slice(name)?;
    out.extend_from_slice([0; NAME_LENGTH].split_at(name.len()).1)?;
    Ok(())
}
