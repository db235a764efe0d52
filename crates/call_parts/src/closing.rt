// What is told of a session that is over.
ghost use Rattle.std.specs.Prelude.{◌≡◌};
ghost use Rattle.call_parts.specs.Causes.{IsUnsaid};
ghost use Rattle.call_parts.specs.Closings.{Closes};

use crate::left::{Left, left_of};
use crate::report::Report;
use crate::reporting::report_of;
use cmd_status::Status;
use hs_folders::Folder;
use line_world::World;
use session_parts::{DbReport, Stop};
use std::alloc::Global;

/// What is told of a session that is over, and the handheld's folder.
#[derive(Drop)]
pub struct Closed<H> {
    pub status: Status,
    pub report: Report,
    pub device: H,
}

/// Tells a session over a world by what it answered.
pub fn close_session<H: Folder>(
    alloc: Global,
    world: World<H>,
    end: Result<Vec<DbReport>, Stop>,
) -> Closed<H>
    ensures closes { Closes world end result.status result.report }
    ensures folder { result.device ≡ world.server.folder }
    ensures unsaid { IsUnsaid result.status }
{
    let left = left_of(alloc, end, world.cause());
    let Left {
        status,
        end,
        databases,
        faulted,
    } = left;
    let (report, device) = report_of(world, end, databases, faulted);
    Closed {
        status,
        report,
        device,
    }
}
