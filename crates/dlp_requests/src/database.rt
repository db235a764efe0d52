// What the argument of a request about databases, their blocks and their handles holds. The bytes of a number bear its first
// letter, the lowest one with 0.
#![tactic(auto, unfolding(crate::specs::RequestTexts::request_text, crate::specs::RequestTexts::IsRequest, dlp_args::specs::CellReading::number_at, dlp_args::specs::CellReading::some_at))]

ghost use Rattle.std.specs.Prelude.{◌≡◌};
ghost use Rattle.dlp_requests.specs.Forms as form;
ghost use Rattle.dlp_requests.specs.Groups.{Database, group_of};
ghost use Rattle.dlp_requests.specs.RequestTexts.{IsRequest, request_text};
ghost use Rattle.dlp_requests.specs.Views.{Reads, request_value};

use crate::request::Request;
use dlp_args::{Message, append, begin, counted_of, put, take_4, take_u8, take_u16, text_of};
use pdb_values::FourCc;

// Replaces the message by a request about a database, its blocks or its handle.
#[tactic(auto)]
pub(crate) fn put_request(request: &Request<'_>, out: &mut Message)
    requires bounds { IsRequest (request_value request.now) }
    requires group { group_of (request_value request.now).form ≡ Database }
    ensures { out.new ≡ request_text (request_value request.now) }
{
    match *request {
        Request::ReadDbList { flags, card, start } => put_read_db_list(out, flags, card, start),
        Request::OpenDb { card, mode, name } => put_open_db(out, card, mode, name),
        Request::CreateDb {
            creator,
            kind,
            card,
            flags,
            version,
            name,
        } => put_create_db(out, creator, kind, card, flags, version, name),
        Request::CloseDb { handle } => put_close_db(out, handle),
        Request::DeleteDb { card, name } => put_delete_db(out, card, name),
        Request::ReadAppBlock {
            handle,
            offset,
            length,
        } => put_read_app_block(out, handle, offset, length),
        Request::WriteAppBlock { handle, bytes } => put_write_app_block(out, handle, bytes),
        Request::ReadSortBlock {
            handle,
            offset,
            length,
        } => put_read_sort_block(out, handle, offset, length),
        Request::WriteSortBlock { handle, bytes } => put_write_sort_block(out, handle, bytes),
        Request::CleanUpDatabase { handle } => put_clean_up_database(out, handle),
        Request::ResetSyncFlags { handle } => put_reset_sync_flags(out, handle),
        Request::ReadOpenDbInfo { handle } => put_read_open_db_info(out, handle),
        _ => unreachable!(),
    }
}

pub(crate) fn read_db_list(content: &[u8]) -> Option<Request<'_>>
    ensures { Reads form.ReadDbList content.now result }
{
    let [flags, card, s1, s0] = content else {
        return None;
    };
    Some(Request::ReadDbList {
        flags: *flags,
        card: *card,
        start: u16::from_be_bytes([*s1, *s0]),
    })
}

pub(crate) fn put_read_db_list(out: &mut Message, flags: u8, card: u8, start: u16)
    requires { IsRequest (request_value (Request.ReadDbList flags card start)) }
    ensures { out.new ≡ request_text (request_value (Request.ReadDbList flags card start)) }
{
    let start = start.to_be_bytes();
    put(
        out,
        0x16,
        0x20,
        &[flags, card, start[0], start[1]],
        &[],
        &[],
    );
}

pub(crate) fn open_db(content: &[u8]) -> Option<Request<'_>>
    ensures { Reads form.OpenDb content.now result }
{
    let [card, mode, rest @ ..] = content else {
        return None;
    };
    let name = text_of(rest)?;
    Some(Request::OpenDb {
        card: *card,
        mode: *mode,
        name,
    })
}

pub(crate) fn put_open_db(out: &mut Message, card: u8, mode: u8, name: &[u8])
    requires { IsRequest (request_value (Request.OpenDb card mode name)) }
    ensures { out.new ≡ request_text (request_value (Request.OpenDb card mode name.entry)) }
{
    put(out, 0x17, 0x20, &[card, mode], name, &[0]);
}

pub(crate) fn create_db(content: &[u8]) -> Option<Request<'_>>
    ensures { Reads form.CreateDb content.now result }
{
    let (creator, rest) = take_4(content)?;
    let (kind, rest) = take_4(rest)?;
    let (card, rest) = take_u8(rest)?;
    let (_, rest) = take_u8(rest)?;
    let (flags, rest) = take_u16(rest)?;
    let (version, rest) = take_u16(rest)?;
    let name = text_of(rest)?;
    Some(Request::CreateDb {
        creator: FourCc(creator),
        kind: FourCc(kind),
        card,
        flags,
        version,
        name,
    })
}

#[tactic(auto, unfolding(crate::specs::RequestTexts::request_text, crate::specs::RequestTexts::IsRequest), using(std::proofs::Common::append_assoc))]
pub(crate) fn put_create_db(
    out: &mut Message,
    creator: FourCc,
    kind: FourCc,
    card: u8,
    flags: u16,
    version: u16,
    name: &[u8],
)
    requires { IsRequest (request_value (Request.CreateDb creator kind card flags version name)) }
    ensures { out.new ≡ request_text (request_value
        (Request.CreateDb creator kind card flags version name.entry)) }
{
    let flags = flags.to_be_bytes();
    let version = version.to_be_bytes();
    begin(out, 0x18, 0x20, 15 + name.len());
    append(out, &creator.0);
    append(out, &kind.0);
    append(out, &[card, 0, flags[0], flags[1], version[0], version[1]]);
    append(out, name);
    append(out, &[0]);
}

pub(crate) fn close_db(content: &[u8]) -> Option<Request<'_>>
    ensures { Reads form.CloseDb content.now result }
{
    let [handle] = content else {
        return None;
    };
    Some(Request::CloseDb { handle: *handle })
}

pub(crate) fn put_close_db(out: &mut Message, handle: u8)
    requires { IsRequest (request_value (Request.CloseDb handle)) }
    ensures { out.new ≡ request_text (request_value (Request.CloseDb handle)) }
{
    put(out, 0x19, 0x20, &[handle], &[], &[]);
}

pub(crate) fn delete_db(content: &[u8]) -> Option<Request<'_>>
    ensures { Reads form.DeleteDb content.now result }
{
    let [card, _, rest @ ..] = content else {
        return None;
    };
    let name = text_of(rest)?;
    Some(Request::DeleteDb { card: *card, name })
}

pub(crate) fn put_delete_db(out: &mut Message, card: u8, name: &[u8])
    requires { IsRequest (request_value (Request.DeleteDb card name)) }
    ensures { out.new ≡ request_text (request_value (Request.DeleteDb card name.entry)) }
{
    put(out, 0x1A, 0x20, &[card, 0], name, &[0]);
}

pub(crate) fn read_app_block(content: &[u8]) -> Option<Request<'_>>
    ensures { Reads form.ReadAppBlock content.now result }
{
    let [handle, _, o1, o0, l1, l0] = content else {
        return None;
    };
    Some(Request::ReadAppBlock {
        handle: *handle,
        offset: u16::from_be_bytes([*o1, *o0]),
        length: u16::from_be_bytes([*l1, *l0]),
    })
}

pub(crate) fn put_read_app_block(out: &mut Message, handle: u8, offset: u16, length: u16)
    requires { IsRequest (request_value (Request.ReadAppBlock handle offset length)) }
    ensures { out.new ≡ request_text (request_value (Request.ReadAppBlock handle offset length)) }
{
    let offset = offset.to_be_bytes();
    let length = length.to_be_bytes();
    put(
        out,
        0x1B,
        0x20,
        &[handle, 0, offset[0], offset[1], length[0], length[1]],
        &[],
        &[],
    );
}

pub(crate) fn read_sort_block(content: &[u8]) -> Option<Request<'_>>
    ensures { Reads form.ReadSortBlock content.now result }
{
    let [handle, _, o1, o0, l1, l0] = content else {
        return None;
    };
    Some(Request::ReadSortBlock {
        handle: *handle,
        offset: u16::from_be_bytes([*o1, *o0]),
        length: u16::from_be_bytes([*l1, *l0]),
    })
}

pub(crate) fn put_read_sort_block(out: &mut Message, handle: u8, offset: u16, length: u16)
    requires { IsRequest (request_value (Request.ReadSortBlock handle offset length)) }
    ensures { out.new ≡ request_text (request_value (Request.ReadSortBlock handle offset length)) }
{
    let offset = offset.to_be_bytes();
    let length = length.to_be_bytes();
    put(
        out,
        0x1D,
        0x20,
        &[handle, 0, offset[0], offset[1], length[0], length[1]],
        &[],
        &[],
    );
}

pub(crate) fn write_app_block(content: &[u8]) -> Option<Request<'_>>
    ensures { Reads form.WriteAppBlock content.now result }
{
    let [handle, _, rest @ ..] = content else {
        return None;
    };
    let bytes = counted_of(rest)?;
    Some(Request::WriteAppBlock {
        handle: *handle,
        bytes,
    })
}

pub(crate) fn put_write_app_block(out: &mut Message, handle: u8, bytes: &[u8])
    requires { IsRequest (request_value (Request.WriteAppBlock handle bytes)) }
    ensures { out.new ≡ request_text (request_value (Request.WriteAppBlock handle bytes.entry)) }
{
    let size = (bytes.len() as u16).to_be_bytes();
    put(out, 0x1C, 0x20, &[handle, 0, size[0], size[1]], bytes, &[]);
}

pub(crate) fn write_sort_block(content: &[u8]) -> Option<Request<'_>>
    ensures { Reads form.WriteSortBlock content.now result }
{
    let [handle, _, rest @ ..] = content else {
        return None;
    };
    let bytes = counted_of(rest)?;
    Some(Request::WriteSortBlock {
        handle: *handle,
        bytes,
    })
}

pub(crate) fn put_write_sort_block(out: &mut Message, handle: u8, bytes: &[u8])
    requires { IsRequest (request_value (Request.WriteSortBlock handle bytes)) }
    ensures { out.new ≡ request_text (request_value (Request.WriteSortBlock handle bytes.entry)) }
{
    let size = (bytes.len() as u16).to_be_bytes();
    put(out, 0x1E, 0x20, &[handle, 0, size[0], size[1]], bytes, &[]);
}

pub(crate) fn clean_up_database(content: &[u8]) -> Option<Request<'_>>
    ensures { Reads form.CleanUpDatabase content.now result }
{
    let [handle] = content else {
        return None;
    };
    Some(Request::CleanUpDatabase { handle: *handle })
}

pub(crate) fn put_clean_up_database(out: &mut Message, handle: u8)
    requires { IsRequest (request_value (Request.CleanUpDatabase handle)) }
    ensures { out.new ≡ request_text (request_value (Request.CleanUpDatabase handle)) }
{
    put(out, 0x26, 0x20, &[handle], &[], &[]);
}

pub(crate) fn reset_sync_flags(content: &[u8]) -> Option<Request<'_>>
    ensures { Reads form.ResetSyncFlags content.now result }
{
    let [handle] = content else {
        return None;
    };
    Some(Request::ResetSyncFlags { handle: *handle })
}

pub(crate) fn put_reset_sync_flags(out: &mut Message, handle: u8)
    requires { IsRequest (request_value (Request.ResetSyncFlags handle)) }
    ensures { out.new ≡ request_text (request_value (Request.ResetSyncFlags handle)) }
{
    put(out, 0x27, 0x20, &[handle], &[], &[]);
}

pub(crate) fn read_open_db_info(content: &[u8]) -> Option<Request<'_>>
    ensures { Reads form.ReadOpenDbInfo content.now result }
{
    let [handle] = content else {
        return None;
    };
    Some(Request::ReadOpenDbInfo { handle: *handle })
}

pub(crate) fn put_read_open_db_info(out: &mut Message, handle: u8)
    requires { IsRequest (request_value (Request.ReadOpenDbInfo handle)) }
    ensures { out.new ≡ request_text (request_value (Request.ReadOpenDbInfo handle)) }
{
    put(out, 0x2B, 0x20, &[handle], &[], &[]);
}
