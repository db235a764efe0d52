// What the argument of a request about records holds. The bytes of a number bear its first letter, the lowest one with 0.
#![tactic(auto, unfolding(crate::specs::RequestTexts::request_text, crate::specs::RequestTexts::IsRequest, dlp_args::specs::CellReading::number_at, dlp_args::specs::CellReading::some_at))]

ghost use Rattle.std.specs.Prelude.{◌≡◌};
ghost use Rattle.dlp_requests.specs.Forms as form;
ghost use Rattle.dlp_requests.specs.Groups.{Record, group_of};
ghost use Rattle.dlp_requests.specs.RequestTexts.{IsRequest, request_text};
ghost use Rattle.dlp_requests.specs.Views.{Reads, request_value};

use crate::request::Request;
use dlp_args::{Message, put, rest_of};

// Replaces the message by a request about records.
#[tactic(auto)]
pub(crate) fn put_request(request: &Request<'_>, out: &mut Message)
    requires bounds { IsRequest (request_value request.now) }
    requires group { group_of (request_value request.now).form ≡ Record }
    ensures { out.new ≡ request_text (request_value request.now) }
{
    match *request {
        Request::ReadNextModifiedRec { handle } => put_read_next_modified_rec(out, handle),
        Request::ReadRecordById {
            handle,
            id,
            offset,
            length,
        } => put_read_record_by_id(out, handle, id, offset, length),
        Request::ReadRecordByIndex {
            handle,
            index,
            offset,
            length,
        } => put_read_record_by_index(out, handle, index, offset, length),
        Request::WriteRecord {
            handle,
            flags,
            id,
            attributes,
            category,
            bytes,
        } => put_write_record(out, handle, flags, id, attributes, category, bytes),
        Request::DeleteRecord { handle, flags, id } => put_delete_record(out, handle, flags, id),
        Request::MoveCategory { handle, from, to } => put_move_category(out, handle, from, to),
        Request::ResetRecordIndex { handle } => put_reset_record_index(out, handle),
        Request::ReadRecordIdList {
            handle,
            flags,
            start,
            maximum,
        } => put_read_record_id_list(out, handle, flags, start, maximum),
        _ => unreachable!(),
    }
}

pub(crate) fn read_next_modified_rec(content: &[u8]) -> Option<Request<'_>>
    ensures { Reads form.ReadNextModifiedRec content.now result }
{
    let [handle] = content else {
        return None;
    };
    Some(Request::ReadNextModifiedRec { handle: *handle })
}

pub(crate) fn put_read_next_modified_rec(out: &mut Message, handle: u8)
    requires { IsRequest (request_value (Request.ReadNextModifiedRec handle)) }
    ensures { out.new ≡ request_text (request_value (Request.ReadNextModifiedRec handle)) }
{
    put(out, 0x1F, 0x20, &[handle], &[], &[]);
}

pub(crate) fn read_record_by_id(content: &[u8]) -> Option<Request<'_>>
    ensures { Reads form.ReadRecordById content.now result }
{
    let [handle, _, i3, i2, i1, i0, o1, o0, l1, l0] = content else {
        return None;
    };
    Some(Request::ReadRecordById {
        handle: *handle,
        id: u32::from_be_bytes([*i3, *i2, *i1, *i0]),
        offset: u16::from_be_bytes([*o1, *o0]),
        length: u16::from_be_bytes([*l1, *l0]),
    })
}

pub(crate) fn put_read_record_by_id(
    out: &mut Message,
    handle: u8,
    id: u32,
    offset: u16,
    length: u16,
)
    requires { IsRequest (request_value (Request.ReadRecordById handle id offset length)) }
    ensures { out.new ≡ request_text (request_value
        (Request.ReadRecordById handle id offset length)) }
{
    let id = id.to_be_bytes();
    let offset = offset.to_be_bytes();
    let length = length.to_be_bytes();
    put(
        out,
        0x20,
        0x20,
        &[
            handle, 0, id[0], id[1], id[2], id[3], offset[0], offset[1], length[0], length[1],
        ],
        &[],
        &[],
    );
}

pub(crate) fn read_record_by_index(content: &[u8]) -> Option<Request<'_>>
    ensures { Reads form.ReadRecordByIndex content.now result }
{
    let [handle, _, i1, i0, o1, o0, l1, l0] = content else {
        return None;
    };
    Some(Request::ReadRecordByIndex {
        handle: *handle,
        index: u16::from_be_bytes([*i1, *i0]),
        offset: u16::from_be_bytes([*o1, *o0]),
        length: u16::from_be_bytes([*l1, *l0]),
    })
}

pub(crate) fn put_read_record_by_index(
    out: &mut Message,
    handle: u8,
    index: u16,
    offset: u16,
    length: u16,
)
    requires { IsRequest (request_value (Request.ReadRecordByIndex handle index offset length)) }
    ensures { out.new ≡ request_text (request_value
        (Request.ReadRecordByIndex handle index offset length)) }
{
    let index = index.to_be_bytes();
    let offset = offset.to_be_bytes();
    let length = length.to_be_bytes();
    put(
        out,
        0x20,
        0x21,
        &[
            handle, 0, index[0], index[1], offset[0], offset[1], length[0], length[1],
        ],
        &[],
        &[],
    );
}

pub(crate) fn write_record(content: &[u8]) -> Option<Request<'_>>
    ensures { Reads form.WriteRecord content.now result }
{
    let [
        handle,
        flags,
        i3,
        i2,
        i1,
        i0,
        attributes,
        category,
        rest @ ..,
    ] = content
    else {
        return None;
    };
    let bytes = rest_of(rest)?;
    Some(Request::WriteRecord {
        handle: *handle,
        flags: *flags,
        id: u32::from_be_bytes([*i3, *i2, *i1, *i0]),
        attributes: *attributes,
        category: *category,
        bytes,
    })
}

pub(crate) fn put_write_record(
    out: &mut Message,
    handle: u8,
    flags: u8,
    id: u32,
    attributes: u8,
    category: u8,
    bytes: &[u8],
)
    requires { IsRequest (request_value
        (Request.WriteRecord handle flags id attributes category bytes)) }
    ensures { out.new ≡ request_text (request_value
        (Request.WriteRecord handle flags id attributes category bytes.entry)) }
{
    let id = id.to_be_bytes();
    put(
        out,
        0x21,
        0x20,
        &[
            handle, flags, id[0], id[1], id[2], id[3], attributes, category,
        ],
        bytes,
        &[],
    );
}

pub(crate) fn delete_record(content: &[u8]) -> Option<Request<'_>>
    ensures { Reads form.DeleteRecord content.now result }
{
    let [handle, flags, i3, i2, i1, i0] = content else {
        return None;
    };
    Some(Request::DeleteRecord {
        handle: *handle,
        flags: *flags,
        id: u32::from_be_bytes([*i3, *i2, *i1, *i0]),
    })
}

pub(crate) fn put_delete_record(out: &mut Message, handle: u8, flags: u8, id: u32)
    requires { IsRequest (request_value (Request.DeleteRecord handle flags id)) }
    ensures { out.new ≡ request_text (request_value (Request.DeleteRecord handle flags id)) }
{
    let id = id.to_be_bytes();
    put(
        out,
        0x22,
        0x20,
        &[handle, flags, id[0], id[1], id[2], id[3]],
        &[],
        &[],
    );
}

pub(crate) fn reset_record_index(content: &[u8]) -> Option<Request<'_>>
    ensures { Reads form.ResetRecordIndex content.now result }
{
    let [handle] = content else {
        return None;
    };
    Some(Request::ResetRecordIndex { handle: *handle })
}

pub(crate) fn put_reset_record_index(out: &mut Message, handle: u8)
    requires { IsRequest (request_value (Request.ResetRecordIndex handle)) }
    ensures { out.new ≡ request_text (request_value (Request.ResetRecordIndex handle)) }
{
    put(out, 0x30, 0x20, &[handle], &[], &[]);
}

pub(crate) fn move_category(content: &[u8]) -> Option<Request<'_>>
    ensures { Reads form.MoveCategory content.now result }
{
    let [handle, from, to, _] = content else {
        return None;
    };
    Some(Request::MoveCategory {
        handle: *handle,
        from: *from,
        to: *to,
    })
}

pub(crate) fn put_move_category(out: &mut Message, handle: u8, from: u8, to: u8)
    requires { IsRequest (request_value (Request.MoveCategory handle from to)) }
    ensures { out.new ≡ request_text (request_value (Request.MoveCategory handle from to)) }
{
    put(out, 0x2C, 0x20, &[handle, from, to, 0], &[], &[]);
}

pub(crate) fn read_record_id_list(content: &[u8]) -> Option<Request<'_>>
    ensures { Reads form.ReadRecordIdList content.now result }
{
    let [handle, flags, s1, s0, m1, m0] = content else {
        return None;
    };
    Some(Request::ReadRecordIdList {
        handle: *handle,
        flags: *flags,
        start: u16::from_be_bytes([*s1, *s0]),
        maximum: u16::from_be_bytes([*m1, *m0]),
    })
}

pub(crate) fn put_read_record_id_list(
    out: &mut Message,
    handle: u8,
    flags: u8,
    start: u16,
    maximum: u16,
)
    requires { IsRequest (request_value (Request.ReadRecordIdList handle flags start maximum)) }
    ensures { out.new ≡ request_text (request_value
        (Request.ReadRecordIdList handle flags start maximum)) }
{
    let start = start.to_be_bytes();
    let maximum = maximum.to_be_bytes();
    put(
        out,
        0x31,
        0x20,
        &[handle, flags, start[0], start[1], maximum[0], maximum[1]],
        &[],
        &[],
    );
}
