// Resources, as requests read and write them.
ghost use Rattle.std.specs.Prelude.{◌≡◌, IfOk, length};
ghost use Rattle.dlp_replies.specs.Views.{reply_value};
ghost use Rattle.dlp_replies.specs.Writables.{IsWritable};
ghost use Rattle.palm_device.specs.Resources as resources;
ghost use Rattle.dlp_commands.specs.Answers.{Finds};
ghost use Rattle.dlp_commands.specs.Readings as table;

use crate::block::part_of;
use crate::refusal::Refusal;
use dlp_replies::Reply;
use palm_device::place_of_resource;
use pdb_values::{Database, FourCc};

// A resource's bytes from an offset on, at most so many.
#[tactic(auto, using(crate::proofs::Fits::resource_fits))]
pub(crate) fn resource_part(
    database: &Database,
    index: usize,
    offset: u16,
    count: u16,
) -> Result<Reply<'_>, Refusal>
    ensures part { Finds reply_value result (table.resource_part database.now index offset count) }
    ensures writable { IfOk result (λ reply. IsWritable (reply_value reply)) }
{
    let Some(resource) = database.resources().get(index) else {
        return Err(Refusal::NotFound);
    };
    let bytes = resource.bytes.as_slice();
    if offset as usize > bytes.len() {
        return Err(Refusal::Parameter);
    }
    let _four = code_len(&resource.kind.0);
    Ok(Reply::ReadResource {
        kind: resource.kind,
        id: resource.id,
        index: index as u16,
        size: bytes.len() as u16,
        bytes: part_of(bytes, offset as usize, count as usize),
    })
}

// A code has four bytes.
pub(crate) fn code_len(code: &[u8; 4]) -> usize
    ensures len { result ≡ length code.now }
    ensures four { length code.now ≡ 4 }
{
    code.len()
}

// Whether there is room for a written resource.
pub(crate) fn has_room(database: &Database, kind: FourCc, id: u16) -> bool
    ensures { result ≡ resources.has_room kind.0 id database.now.resources }
{
    place_of_resource(database.resources(), kind, id).is_some()
        || database.resources().len() < Database::GREATEST_COUNT
}
