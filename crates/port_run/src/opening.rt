// The port of a session, opened.
ghost use Rattle.std.specs.Prelude.{◌≡◌, ◌⊎◌, ◌≤◌, IfErr, IfOk, OnOk};
ghost use Rattle.hs_folders.specs.Causes.{Rose};
ghost use Rattle.cmd_status.specs.Opening.{Opens, OpensAtMost};
ghost use Rattle.call_parts.specs.Views.{folder_in as port_in};
ghost use Rattle.port_laws.specs.Palms.{IsFirstTold};
ghost use Rattle.port_run.specs.Refusals.{IsPortRefusal};

use cmd_status::Status;
use port_line::{Port, PortFault};

/// Opens the port at this path. A refusal hands it back.
pub fn open_port<P: Port>(port: P, path: &str) -> Result<P, (Status, P)>
    ensures refused { IfErr result (λ refused. IsPortRefusal refused.0) }
    ensures failed { IfErr result (λ refused. refused.0 ≡ Status.PortFailed
        → Rose (P.faults port) (P.faults refused.1)) }

    ensures first { IfOk result (λ port. IsFirstTold (P.palm port)) }
    ensures palm { P.palm (port_in result) ≡ P.palm port }

    ensures given { P.given (port_in result) ≡ P.given port }
    ensures taken { P.taken (port_in result) ≡ P.taken port }
    ensures later { P.faults port ≤ P.faults (port_in result) }
    ensures opened { OnOk result (Opens path.now (P.paths port) (P.paths (port_in result))) }
    ensures path { OpensAtMost path.now (P.paths port) (P.paths (port_in result)) }
{
    let mut port = port;
    match port.open(path) {
        Ok(()) => Ok(port),
        Err(PortFault::Failed) => Err((Status::PortFailed, port)),
        Err(PortFault::NoMemory) => Err((Status::NoMemory, port)),
    }
}
