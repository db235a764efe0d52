//! How a handheld's end at a port ends, by what ended it.
ghost use Rattle.std.specs.Prelude.{◌≡◌};
ghost use Rattle.port_link.specs.Ends.{end_of_fault, end_of_port, end_of_talk};

use crate::port_end::PortEnd;
use device_stream::TalkEnd;
use handheld_server::ServeFault;
use port_line::PortFault;

/// How it ends where a request isn't served.
pub(crate) fn serving_end(fault: ServeFault) -> PortEnd
    ensures { result ≡ end_of_fault fault }
{
    match fault {
        ServeFault::Keeper => PortEnd::Keeper,
        ServeFault::NoMemory => PortEnd::NoMemory,
    }
}

/// How it ends where the port refuses.
pub(crate) fn port_end(fault: PortFault) -> PortEnd
    ensures { result ≡ end_of_port fault }
{
    match fault {
        PortFault::Failed => PortEnd::PortFailed,
        PortFault::NoMemory => PortEnd::NoMemory,
    }
}

/// How it ends where the talk is over.
pub(crate) fn talking_end(over: TalkEnd) -> PortEnd
    ensures { result ≡ end_of_talk over }
{
    match over {
        TalkEnd::Ended => PortEnd::Ended,
        TalkEnd::Aborted => PortEnd::Aborted,
        TalkEnd::BadHello => PortEnd::BadHello,
    }
}
