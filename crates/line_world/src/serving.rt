//! A request is performed.
ghost use Rattle.std.specs.Prelude.{◌≡◌, [], Some, IsSome, true, OnErr, OnOk, IfErr, IsErrOf, unwrap_or};
ghost use Rattle.hs_folders.specs.Moments.{OneChange};
ghost use Rattle.handheld_files.specs.Openings.{Stands};
ghost use Rattle.dlp_commands.specs.DeviceSteps.{DeviceStep};
ghost use Rattle.handheld_server.specs.Keeping.{Touches, wrote_user};
ghost use Rattle.handheld_server.specs.Servers.{store_of};
ghost use Rattle.padp_link.specs.Receivers.{whole_of};
ghost use Rattle.line_world.specs.Logs.{log_value};
ghost use Rattle.line_world.specs.Serving.{Performs, Refuses};

use crate::log::Log;
use crate::stop::Break;
use dlp_commands::{Message, MessageText};
use handheld_server::{ServeFault, Server};
use hs_folders::Folder;
use padp_link::Receiver;
use std::alloc::Global;

/// The handheld performs the request that it took whole, once. The memory for its report is taken before.
pub(crate) fn perform<F: Folder>(
    alloc: Global,
    server: &mut Server<F>,
    receiver: &Receiver,
    log: &mut Log,
    request: &Message,
    reply: &mut Message,
) -> Result<(), Break>
    requires sound { server.old.sound ≡ true }
    requires whole { whole_of receiver.now.pieces ≡ Some request.now }
    ensures performs { OnOk result (Performs F.contents F.moments F.paths F.faults
        server.old server.new (log_value log.old) (log_value log.new) request.now reply.new) }
    ensures refuses { IfErr result (λ ended. Refuses F.contents F.moments F.paths F.faults
        server.old server.new (log_value log.old) (log_value log.new) ended) }
{
    let asked = MessageText::of(alloc, request)?;
    let mut answered = MessageText::with_room(alloc)?;
    log.make_room()?;
    serve_whole(server, receiver, reply)?;
    answered.fill(reply);
    answered.trim();
    log.keep(asked, answered);
    Ok(())
}

/// Serves the message that a receiver took whole.
fn serve_whole<F: Folder>(
    server: &mut Server<F>,
    receiver: &Receiver,
    reply: &mut Message,
) -> Result<(), ServeFault>
    requires sound { server.old.sound ≡ true }
    requires whole { IsSome (whole_of receiver.now.pieces) }
    ensures step { OnOk result (DeviceStep server.old.device
        (unwrap_or (whole_of receiver.now.pieces) []) reply.new server.new.device) }
    ensures stands { Stands (F.contents server.old.folder) server.old.device.databases
        server.old.device.user → OnOk result (Stands (F.contents server.new.folder)
        server.new.device.databases server.new.device.user) }
    ensures files { OnOk result (Touches F.contents
        (wrote_user (unwrap_or (whole_of receiver.now.pieces) []) reply.new)
        (store_of server.old) (store_of server.new)) }
    ensures sound { OnOk result (server.new.sound ≡ true) }
    ensures device { OnErr result (server.new.device ≡ server.old.device) }
    ensures change { OneChange F.contents F.moments F.paths F.faults
        server.old.folder server.new.folder result (IsErrOf result ServeFault.Keeper) }
{
    match receiver.whole() {
        Some(message) => server.serve(message, reply),
        None => Ok(()),
    }
}
