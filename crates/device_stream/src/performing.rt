//! A request is performed.
ghost use Rattle.std.specs.Prelude.{◌≡◌, ◌≤◌, ◌<◌, ◌^◌, ◌++◌, true, length, OnErr, OnOk, IsErrOf};
ghost use Rattle.hs_folders.specs.Moments.{OneChange};
ghost use Rattle.arrayvec.specs.ArrayVec.{array_vec_len};
ghost use Rattle.padp_end.specs.Outgoings.{said_text};
ghost use Rattle.handheld_files.specs.Openings.{Stands};
ghost use Rattle.dlp_commands.specs.DeviceSteps.{DeviceStep};
ghost use Rattle.handheld_server.specs.Keeping.{Touches, wrote_user};
ghost use Rattle.handheld_server.specs.Servers.{store_of};
ghost use Rattle.line_world.specs.Logs.{texts};
ghost use Rattle.device_stream.specs.Hands.{message_of, replying};
ghost use Rattle.device_stream.specs.Reports.{report_value, with_exchange};

use crate::greeting::{is_farewell, session_id};
use crate::report::DeviceReport;
use arrayvec::ArrayVec;
use dlp_commands::{Message, MessageText};
use handheld_server::{ServeFault, Server};
use hs_folders::Folder;
use padp_end::{End, MAX_SAID};
use std::alloc::Global;

/// Performs a request once, and keeps it with its reply. The memory for that is taken before.
pub(crate) fn perform<F: Folder>(
    alloc: Global,
    server: &mut Server<F>,
    report: &mut DeviceReport,
    request: &Message,
    reply: &mut Message,
) -> Result<(), ServeFault>
    requires { server.old.sound ≡ true }
    ensures step { OnOk result (DeviceStep server.old.device request.now reply.new
        server.new.device) }
    ensures report { OnOk result (report_value report.new
        ≡ with_exchange (report_value report.old) request.now reply.new) }
    ensures stands { Stands (F.contents server.old.folder) server.old.device.databases
        server.old.device.user → OnOk result (Stands (F.contents server.new.folder)
        server.new.device.databases server.new.device.user) }
    ensures files { OnOk result (Touches F.contents (wrote_user request.now reply.new)
        (store_of server.old) (store_of server.new)) }
    ensures sound { OnOk result (server.new.sound ≡ true) }

    ensures device { OnErr result (server.new.device ≡ server.old.device) }
    ensures stays { OnErr result (report_value report.new ≡ report_value report.old) }
    ensures change { OneChange F.contents F.moments F.paths F.faults
        server.old.folder server.new.folder result (IsErrOf result ServeFault.Keeper) }
{
    let Ok(asked) = MessageText::of(alloc, request) else {
        return Err(ServeFault::NoMemory);
    };
    let Ok(mut answered) = MessageText::with_room(alloc) else {
        return Err(ServeFault::NoMemory);
    };
    if report.make_room().is_err() {
        return Err(ServeFault::NoMemory);
    }
    server.serve(request.bytes(), reply)?;
    answered.fill(reply);
    answered.trim();
    report.keep(asked, answered);
    Ok(())
}

/// Replaces a message by the one that an end took whole.
pub(crate) fn take_whole(end: &End, message: &mut Message)
    ensures { message.new ≡ message_of end.now }
{
    message.clear();
    if let Some(bytes) = end.message() {
        let _fits = message.push(bytes);
    }
}

/// The reply to the request of this number begins, and the next request is awaited.
pub(crate) fn reply_to(
    end: &mut End,
    number: usize,
    reply: &Message,
    out: &mut ArrayVec<u8, MAX_SAID>,
)
    requires room { array_vec_len out.old ≤ 16 }
    requires few { number < 2 ^ 63 }
    ensures end { end.new ≡ (replying end.old number reply.now).1 }
    ensures said { out.new.items ≡ out.old.items
        ++ said_text (replying end.old number reply.now).0 }
    ensures short { length end.new.message ≤ 65535 }
{
    if !is_farewell(reply.bytes()) {
        end.expect(session_id(number + 1));
    }
    end.begin(session_id(number), reply.bytes(), out);
}
