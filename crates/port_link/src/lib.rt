//! Both ends of a HotSync at a port: a link to a handheld behind one, and a handheld that stands behind one.
//!
//! `PortLink` is a `Link` of `dlp_commands`, so a session runs over it as over any other. `hello` awaits the
//! handheld's wake and says the init, `exchange` says a request and takes the reply to it. Its end is one of
//! `padp_end`, with some patience for silence: a read of the port that brings nothing is a tick, at
//! which the piece that waits goes once more, and the program needs no clock.
//!
//! It relies on nothing that the port gives. What it says to packets and to silence is `reacts` of
//! `specs/Desks.antt`, and each call says that what was said and heard is a run of that (`Course` of
//! `specs/Courses.antt`). It keeps all that was said and heard in memory, in order, and `into_parts`
//! hands it out with the port and the reason why the link answered no more, if there is one.
//!
//! It tells nothing of a device behind the port.
//!
//! At the other end `serve_at_port` stands a `Talk`, the handheld's end over a folder, behind a `Port`. Its wake goes out, and
//! once more at each tick until something comes; each packet is taken as it comes, and each tick of silence says the piece
//! that waits once more. What it says and is then is `Steps` of `specs/Vigils.antt`. It ends with the talk, or where a piece
//! had its ten tries, thirty ticks in a row brought nothing, or the port, the folder or memory refused.
#![tactic(auto)]

mod awaited;
mod cable;
mod desk;
mod ends;
mod entry;
mod greeting;
mod laws;
mod link;
mod listening;
mod log;
mod mended;
mod mended_list;
mod mended_parts;
mod mended_user;
mod port_cause;
mod port_end;
mod port_link;
mod serving;
mod talking;
mod turn;
mod vigil;
mod vigil_laws;
mod vigil_log;

pub use entry::{Entry, HeardPacket};
pub use laws::{
    a_reply_came_behind_its_request, packets_are_those_of_the_bytes, transactions_come_round,
};
pub use port_cause::PortCause;
pub use port_end::PortEnd;
pub use port_link::PortLink;
pub use serving::{AtPort, serve_at_port};
pub use vigil_laws::a_vigil_is_a_run;
