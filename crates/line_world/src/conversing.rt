//! A request and its reply.
ghost use Rattle.std.specs.Prelude.{◌≡◌, ◌≤◌, true, IfSome, OnOk, IfErr, length};
ghost use Rattle.padp_link.specs.Receivers.{whole_of};
ghost use Rattle.line_steps.specs.TalkHalting.{LineEnds};
ghost use Rattle.line_steps.specs.Rests.{MayAsk};
ghost use Rattle.line_steps.specs.TalkTelling.{LineCounts, LineRecords, LineTells};
ghost use Rattle.line_world.specs.Causes.{halt_of};
ghost use Rattle.line_world.specs.Conversing.{Answers, Breaks};
ghost use Rattle.line_world.specs.Logs.{log_value, said_in};
ghost use Rattle.line_world.specs.Worlds.{IsHeard};

use crate::log::Log;
use crate::serving::perform;
use crate::stop::Break;
use dlp_commands::Message;
use handheld_server::Server;
use hs_folders::Folder;
use line_script::Script;
use line_steps::{Line, answer, ask};
use padp_link::Receiver;
use std::alloc::Global;

/// A request goes over to the handheld, is performed there, and its reply goes back.
pub(crate) fn converse<F: Folder>(
    alloc: Global,
    line: &mut Line,
    script: &Script,
    server: &mut Server<F>,
    log: &mut Log,
    request: &Message,
    reply: &mut Message,
) -> Result<(), Break>
    requires asks { MayAsk line.old (length (log_value log.old).issued) }
    requires answered { length (log_value log.old).replies ≡ length (log_value log.old).issued }
    requires sound { server.old.sound ≡ true }
    ensures answers { OnOk result (Answers F.contents F.moments F.paths F.faults
        server.old server.new (log_value log.old) (log_value log.new) line.new request.now
        reply.new) }
    ensures breaks { IfErr result (λ ended. Breaks F.contents F.moments F.paths F.faults
        server.old server.new (log_value log.old) (log_value log.new) request.now ended) }

    ensures recorded { LineRecords script.now line.old → LineRecords script.now line.new }
    ensures counted { LineCounts line.old → LineCounts line.new }
    ensures tells { OnOk result (LineTells (said_in (log_value log.old)) line.old →
        LineTells (said_in (log_value log.new)) line.new) }
    ensures ends { IfErr result (λ ended. LineTells (said_in (log_value log.old)) line.old →
        LineEnds (halt_of ended) (said_in (log_value log.new)) line.new) }
    // Where nothing was sent, the line is as before.
    ensures unsent { IfErr result (λ _. log_value log.new ≡ log_value log.old
        → line.new ≡ line.old) }
    ensures heard { IfErr result (λ ended. LineTells (said_in (log_value log.old)) line.old →
        IsHeard (halt_of ended) (log_value log.new) (length (log_value log.old).replies)
        line.new) }
{
    let requests = log.issued.len();
    log.issue(alloc, request)?;
    ask(line, script, requests, request.bytes())?;
    perform(alloc, server, &line.handheld.receiver, log, request, reply)?;
    answer(line, script, requests, reply.bytes())?;
    take_whole(&line.desktop.receiver, reply);
    Ok(())
}

/// Replaces a message by the one that a receiver took whole.
fn take_whole(receiver: &Receiver, message: &mut Message)
    ensures { IfSome (whole_of receiver.now.pieces)
        (λ whole. length whole ≤ 65535 → message.new ≡ whole) }
{
    message.clear();
    if let Some(bytes) = receiver.whole() {
        let _fits = message.push(bytes);
    }
}
