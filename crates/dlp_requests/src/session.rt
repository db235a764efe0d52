// What the argument of a request about the user and the session holds.
#![tactic(auto, unfolding(crate::specs::RequestTexts::request_text, crate::specs::RequestTexts::IsRequest, dlp_args::specs::CellReading::number_at, dlp_args::specs::CellReading::some_at))]

ghost use Rattle.std.specs.Prelude.{◌≡◌};
ghost use Rattle.dlp_requests.specs.Forms as form;
ghost use Rattle.dlp_requests.specs.Groups.{Session, group_of};
ghost use Rattle.dlp_requests.specs.RequestTexts.{IsRequest, request_text};
ghost use Rattle.dlp_requests.specs.Views.{Reads, request_value};

use crate::request::Request;
use dlp_args::{Message, append, begin, maybe_text_of, put, take_8, take_u8, take_u32, text_of};

// Replaces the message by a request about the user or the session.
#[tactic(auto)]
pub(crate) fn put_request(request: &Request<'_>, out: &mut Message)
    requires bounds { IsRequest (request_value request.now) }
    requires group { group_of (request_value request.now).form ≡ Session }
    ensures { out.new ≡ request_text (request_value request.now) }
{
    match *request {
        Request::ReadUserInfo => put_read_user_info(out),
        Request::WriteUserInfo {
            user,
            viewer,
            pc,
            date,
            bits,
            name_len,
            name,
        } => put_write_user_info(out, user, viewer, pc, date, bits, name_len, name),
        Request::ReadSysInfo => put_read_sys_info(out),
        Request::ReadSysInfoFor { major, minor } => put_read_sys_info_for(out, major, minor),
        Request::AddSyncLogEntry { text } => put_add_sync_log_entry(out, text),
        Request::OpenConduit => put_open_conduit(out),
        Request::EndOfSync { status } => put_end_of_sync(out, status),
        _ => unreachable!(),
    }
}

pub(crate) fn write_user_info(content: &[u8]) -> Option<Request<'_>>
    ensures { Reads form.WriteUserInfo content.now result }
{
    let (user, rest) = take_u32(content)?;
    let (viewer, rest) = take_u32(rest)?;
    let (pc, rest) = take_u32(rest)?;
    let (date, rest) = take_8(rest)?;
    let (bits, rest) = take_u8(rest)?;
    let (name_len, rest) = take_u8(rest)?;
    let name = maybe_text_of(40, rest)?;
    Some(Request::WriteUserInfo {
        user,
        viewer,
        pc,
        date,
        bits,
        name_len,
        name,
    })
}

#[tactic(auto, unfolding(crate::specs::RequestTexts::request_text, crate::specs::RequestTexts::IsRequest), using(std::proofs::Common::append_assoc))]
pub(crate) fn put_write_user_info(
    out: &mut Message,
    user: u32,
    viewer: u32,
    pc: u32,
    date: [u8; 8],
    bits: u8,
    name_len: u8,
    name: Option<&[u8]>,
)
    requires { IsRequest (request_value
        (Request.WriteUserInfo user viewer pc date bits name_len name)) }
    ensures { out.new ≡ request_text (request_value
        (Request.WriteUserInfo user viewer pc date bits name_len name.entry)) }
{
    let size = match name {
        None => 0,
        Some(name) => 1 + name.len(),
    };
    begin(out, 0x11, 0x20, 22 + size);
    append(out, &user.to_be_bytes());
    append(out, &viewer.to_be_bytes());
    append(out, &pc.to_be_bytes());
    append(out, &date);
    append(out, &[bits, name_len]);
    if let Some(name) = name {
        append(out, name);
        append(out, &[0]);
    }
}

pub(crate) fn read_sys_info_for(content: &[u8]) -> Option<Request<'_>>
    ensures { Reads form.ReadSysInfoFor content.now result }
{
    let [j1, j0, n1, n0] = content else {
        return None;
    };
    Some(Request::ReadSysInfoFor {
        major: u16::from_be_bytes([*j1, *j0]),
        minor: u16::from_be_bytes([*n1, *n0]),
    })
}

pub(crate) fn put_read_sys_info_for(out: &mut Message, major: u16, minor: u16)
    requires { IsRequest (request_value (Request.ReadSysInfoFor major minor)) }
    ensures { out.new ≡ request_text (request_value (Request.ReadSysInfoFor major minor)) }
{
    let major = major.to_be_bytes();
    let minor = minor.to_be_bytes();
    put(out, 0x12, 0x20, &[major[0], major[1]], &minor, &[]);
}

pub(crate) fn add_sync_log_entry(content: &[u8]) -> Option<Request<'_>>
    ensures { Reads form.AddSyncLogEntry content.now result }
{
    let text = text_of(content)?;
    Some(Request::AddSyncLogEntry { text })
}

pub(crate) fn put_add_sync_log_entry(out: &mut Message, text: &[u8])
    requires { IsRequest (request_value (Request.AddSyncLogEntry text)) }
    ensures { out.new ≡ request_text (request_value (Request.AddSyncLogEntry text.entry)) }
{
    put(out, 0x2A, 0x20, &[], text, &[0]);
}

pub(crate) fn end_of_sync(content: &[u8]) -> Option<Request<'_>>
    ensures { Reads form.EndOfSync content.now result }
{
    let [s1, s0] = content else {
        return None;
    };
    Some(Request::EndOfSync {
        status: u16::from_be_bytes([*s1, *s0]),
    })
}

pub(crate) fn put_end_of_sync(out: &mut Message, status: u16)
    requires { IsRequest (request_value (Request.EndOfSync status)) }
    ensures { out.new ≡ request_text (request_value (Request.EndOfSync status)) }
{
    let status = status.to_be_bytes();
    put(out, 0x2F, 0x20, &[status[0], status[1]], &[], &[]);
}

fn put_read_user_info(out: &mut Message)
    ensures { out.new ≡ request_text (request_value Request.ReadUserInfo) }
{
    out.clear();
    append(out, &[0x10, 0]);
}

fn put_read_sys_info(out: &mut Message)
    ensures { out.new ≡ request_text (request_value Request.ReadSysInfo) }
{
    out.clear();
    append(out, &[0x12, 0]);
}

fn put_open_conduit(out: &mut Message)
    ensures { out.new ≡ request_text (request_value Request.OpenConduit) }
{
    out.clear();
    append(out, &[0x2E, 0]);
}
