// What the argument of a request about resources holds. The bytes of a number bear its first letter, the lowest one with 0.
#![tactic(auto, unfolding(crate::specs::RequestTexts::request_text, crate::specs::RequestTexts::IsRequest, dlp_args::specs::CellReading::number_at, dlp_args::specs::CellReading::some_at))]

ghost use Rattle.std.specs.Prelude.{◌≡◌};
ghost use Rattle.dlp_requests.specs.Forms as form;
ghost use Rattle.dlp_requests.specs.Groups.{Resource, group_of};
ghost use Rattle.dlp_requests.specs.RequestTexts.{IsRequest, request_text};
ghost use Rattle.dlp_requests.specs.Views.{Reads, request_value};

use crate::request::Request;
use dlp_args::{Message, append, begin, counted_of, put};
use pdb_values::FourCc;

// Replaces the message by a request about resources.
#[tactic(auto)]
pub(crate) fn put_request(request: &Request<'_>, out: &mut Message)
    requires bounds { IsRequest (request_value request.now) }
    requires group { group_of (request_value request.now).form ≡ Resource }
    ensures { out.new ≡ request_text (request_value request.now) }
{
    match *request {
        Request::ReadResourceByIndex {
            handle,
            index,
            offset,
            length,
        } => put_read_resource_by_index(out, handle, index, offset, length),
        Request::ReadResourceByType {
            handle,
            kind,
            id,
            offset,
            length,
        } => put_read_resource_by_type(out, handle, kind, id, offset, length),
        Request::WriteResource {
            handle,
            kind,
            id,
            bytes,
        } => put_write_resource(out, handle, kind, id, bytes),
        Request::DeleteResource {
            handle,
            flags,
            kind,
            id,
        } => put_delete_resource(out, handle, flags, kind, id),
        _ => unreachable!(),
    }
}

pub(crate) fn read_resource_by_index(content: &[u8]) -> Option<Request<'_>>
    ensures { Reads form.ReadResourceByIndex content.now result }
{
    let [handle, _, i1, i0, o1, o0, l1, l0] = content else {
        return None;
    };
    Some(Request::ReadResourceByIndex {
        handle: *handle,
        index: u16::from_be_bytes([*i1, *i0]),
        offset: u16::from_be_bytes([*o1, *o0]),
        length: u16::from_be_bytes([*l1, *l0]),
    })
}

pub(crate) fn put_read_resource_by_index(
    out: &mut Message,
    handle: u8,
    index: u16,
    offset: u16,
    length: u16,
)
    requires { IsRequest (request_value (Request.ReadResourceByIndex handle index offset length)) }
    ensures { out.new ≡ request_text (request_value
        (Request.ReadResourceByIndex handle index offset length)) }
{
    let index = index.to_be_bytes();
    let offset = offset.to_be_bytes();
    let length = length.to_be_bytes();
    put(
        out,
        0x23,
        0x20,
        &[
            handle, 0, index[0], index[1], offset[0], offset[1], length[0], length[1],
        ],
        &[],
        &[],
    );
}

pub(crate) fn read_resource_by_type(content: &[u8]) -> Option<Request<'_>>
    ensures { Reads form.ReadResourceByType content.now result }
{
    let [handle, _, k3, k2, k1, k0, i1, i0, o1, o0, l1, l0] = content else {
        return None;
    };
    Some(Request::ReadResourceByType {
        handle: *handle,
        kind: FourCc([*k3, *k2, *k1, *k0]),
        id: u16::from_be_bytes([*i1, *i0]),
        offset: u16::from_be_bytes([*o1, *o0]),
        length: u16::from_be_bytes([*l1, *l0]),
    })
}

pub(crate) fn put_read_resource_by_type(
    out: &mut Message,
    handle: u8,
    kind: FourCc,
    id: u16,
    offset: u16,
    length: u16,
)
    requires { IsRequest (request_value (Request.ReadResourceByType handle kind id offset length)) }
    ensures { out.new ≡ request_text (request_value
        (Request.ReadResourceByType handle kind id offset length)) }
{
    let id = id.to_be_bytes();
    let offset = offset.to_be_bytes();
    let length = length.to_be_bytes();
    put(
        out,
        0x23,
        0x21,
        &[handle, 0],
        &kind.0,
        &[id[0], id[1], offset[0], offset[1], length[0], length[1]],
    );
}

pub(crate) fn write_resource(content: &[u8]) -> Option<Request<'_>>
    ensures { Reads form.WriteResource content.now result }
{
    let [handle, _, k3, k2, k1, k0, i1, i0, rest @ ..] = content else {
        return None;
    };
    let bytes = counted_of(rest)?;
    Some(Request::WriteResource {
        handle: *handle,
        kind: FourCc([*k3, *k2, *k1, *k0]),
        id: u16::from_be_bytes([*i1, *i0]),
        bytes,
    })
}

#[tactic(auto, unfolding(crate::specs::RequestTexts::request_text, crate::specs::RequestTexts::IsRequest), using(std::proofs::Common::append_assoc))]
pub(crate) fn put_write_resource(out: &mut Message, handle: u8, kind: FourCc, id: u16, bytes: &[u8])
    requires { IsRequest (request_value (Request.WriteResource handle kind id bytes)) }
    ensures { out.new ≡ request_text (request_value
        (Request.WriteResource handle kind id bytes.entry)) }
{
    let id = id.to_be_bytes();
    let size = (bytes.len() as u16).to_be_bytes();
    begin(out, 0x24, 0x20, 10 + bytes.len());
    append(out, &[handle, 0]);
    append(out, &kind.0);
    append(out, &[id[0], id[1], size[0], size[1]]);
    append(out, bytes);
}

pub(crate) fn delete_resource(content: &[u8]) -> Option<Request<'_>>
    ensures { Reads form.DeleteResource content.now result }
{
    let [handle, flags, k3, k2, k1, k0, i1, i0] = content else {
        return None;
    };
    Some(Request::DeleteResource {
        handle: *handle,
        flags: *flags,
        kind: FourCc([*k3, *k2, *k1, *k0]),
        id: u16::from_be_bytes([*i1, *i0]),
    })
}

pub(crate) fn put_delete_resource(out: &mut Message, handle: u8, flags: u8, kind: FourCc, id: u16)
    requires { IsRequest (request_value (Request.DeleteResource handle flags kind id)) }
    ensures { out.new ≡ request_text (request_value (Request.DeleteResource handle flags kind id)) }
{
    let id = id.to_be_bytes();
    put(out, 0x25, 0x20, &[handle, flags], &kind.0, &[id[0], id[1]]);
}
