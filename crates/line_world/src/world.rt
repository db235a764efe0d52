//! The world of a line.
ghost use Rattle.std.specs.Prelude.{◌≡◌, ◌<◌, None, Some, IfErr, IfOk, false, true, length, map, []};
ghost use Rattle.trace_text.specs.TraceLines.{frame_value};
ghost use Rattle.std.specs.Option.{option_copied};
ghost use Rattle.line_script.specs.Scripts.{fate_by};
ghost use Rattle.trace_text.specs.declared.frame.End.TheVariants.{Handheld, Desktop};
ghost use Rattle.trace_text.specs.Proper.{IsProper};
ghost use Rattle.trace_text.specs.Tallies.{IsFairUpTo};
ghost use Rattle.line_steps.specs.declared.harm.Stop.{Stop};
ghost use Rattle.line_world.specs.Causes.{BearsOut, IsCause, down_end};
ghost use Rattle.line_world.specs.Counts.{CountsOf};
ghost use Rattle.line_world.specs.Logs.{no_log, said_in, texts};
ghost use Rattle.line_world.specs.Stops.{EndsBy, stop_cause};
ghost use Rattle.line_world.specs.Worlds.{EndsAcknowledged, IsLog, LeavesOff, TellAll, TellBoth, TellDone};

use crate::down::Down;
use crate::log::{LineLog, Log};
use dlp_commands::LinkFault;
use handheld_server::Server;
use hs_folders::Folder;
use line_script::Script;
use line_steps::{Line, Wire};
use std::alloc::{AllocError, Global};
use std::marker::Model;
use trace_text::FrameLog;

/// A handheld's server and a desktop's link, with a line between them that a script disturbs.
#[derive(Drop)]
pub struct World<F: Folder> {
    pub(crate) alloc: Global,
    pub(crate) line: Line,
    pub(crate) script: Script,
    pub(crate) server: Server<F>,
    pub(crate) log: Log,
    // How many requests were answered.
    pub(crate) answered: usize,
    pub(crate) begun: bool,
    pub(crate) fault: Option<LinkFault>,
    pub(crate) cause: Option<Down>,
}

impl<F: Folder> Model for World<F> {
    ghost use Rattle.std.specs.Prelude.{map};
    ghost use Rattle.trace_text.specs.TraceLines.{frame_value};
    ghost use Rattle.line_world.specs.Logs.{log_value};
    ghost use Rattle.line_world.specs.Worlds.{IsWorld, WorldValue};

    ghost Value = { WorldValue F };

    ghost view = { λ world. record {
      server = world.server;
      script = world.script;
      log = log_value world.log;
      answered = world.answered;
      frames = map frame_value world.line.wire.frames.items;
      begun = world.begun;
      fault = world.fault;
      cause = world.cause;
    } };

    ghost invariant = { λ world. IsWorld world.line world.script
        (log_value world.log) world.server.sound
        world.answered world.begun world.fault world.cause };
}

impl<F: Folder> World<F> {
    /// A line over which nothing was sent, to this server. The memory of both ends is taken here; a refusal hands the server
    /// back.
    pub fn new(
        alloc: Global,
        server: Server<F>,
        script: Script,
    ) -> Result<World<F>, (AllocError, Server<F>)>
        requires { server.sound ≡ true }
        ensures world { IfOk result (λ world. world ≡ record {
          server = server;
          script = script;
          log = no_log;
          answered = 0;
          frames = [];
          begun = false;
          fault = None;
          cause = None;
        }) }
        ensures back { IfErr result (λ refused. refused.1 ≡ server) }
    {
        match Line::new(alloc) {
            Ok(line) => Ok(World {
                alloc,
                line,
                script,
                server,
                log: Log::new(alloc),
                answered: 0,
                begun: false,
                fault: None,
                cause: None,
            }),
            Err(refused) => Err((refused, server)),
        }
    }

    /// Why the line is down, if it is.
    pub fn cause(&self) -> Option<&Down>
        ensures cause { option_copied result ≡ self.now.cause }
        // It is there exactly where the link answers that it is down.
        ensures caused { IsCause self.now.fault self.now.cause }
        // The frames bear it out, and where the last of them ends the run that is the cause. Where the script is fair up to it
        // no end has spent its tries.
        ensures borne_out { BearsOut self.now.cause self.now.frames }
        ensures stops { (why : Stop) → EndsBy why self.now.frames →
            self.now.cause ≡ Some (stop_cause why (length self.now.frames)) }
        ensures fair { IsFairUpTo (length self.now.frames) (fate_by self.now.script) →
            down_end self.now.cause ≡ None }
    {
        self.cause.as_ref()
    }

    /// The frames so far.
    pub fn frames(&self) -> &FrameLog
        ensures frames { map frame_value result.now.items ≡ self.now.frames }
        // They are a proper trace by the script of all that was said.
        ensures proper { IsProper (fate_by self.now.script) (said_in self.now.log) self.now.frames }
    {
        &self.line.wire.frames
    }

    /// Hands out all that was said, and the handheld's folder.
    pub fn into_log(self) -> (LineLog, F)
        ensures issued { texts result.0.issued.items ≡ self.log.issued }
        ensures performed { texts result.0.performed.items ≡ self.log.performed }
        ensures replies { texts result.0.replies.items ≡ self.log.replies }
        ensures given { result.0.given.items ≡ self.log.given }
        ensures frames { map frame_value result.0.frames.items ≡ self.frames }
        ensures folder { result.1 ≡ self.server.folder }

        // What was performed is what was sent, in order and each once, or all but the last of it; all replies but the last at
        // most were taken.
        ensures log { IsLog self.log self.answered }
        // The frames are a proper trace by the script of all that was said.
        ensures proper { IsProper (fate_by self.script) (said_in self.log)
            (map frame_value result.0.frames.items) }
        // They tell each end all messages of the other one, or all but the last; while the link answers, all.
        ensures told { TellBoth (said_in self.log) (map frame_value result.0.frames.items) }
        ensures all_told { self.fault ≡ None → self.begun ≡ true →
            TellAll (said_in self.log) (map frame_value result.0.frames.items) }
        // Behind the greetings that is what was performed and what was answered, or one message more where the run stopped at it.
        ensures told_done { self.begun ≡ true → TellDone self.log self.answered self.fault
            self.cause (map frame_value result.0.frames.items) }
        // Before the greetings were over nothing was sent. A line that went down left the last request unanswered.
        ensures silent { self.begun ≡ false → self.log.issued ≡ [] }
        ensures left_off { LeavesOff self.log self.answered self.fault self.cause }
        // Where all that was sent was answered, the last frame is the desktop's acknowledgement of the last reply, and the run goes
        // on behind it.
        ensures acked { 0 < self.answered → length self.log.issued ≡ self.answered →
            EndsAcknowledged self.log (map frame_value result.0.frames.items) }
        // Each reader counted what landed of the frames that were taken, which is, in sums, as many packets as came.
        ensures to_handheld { CountsOf Desktop result.0.to_handheld result.0.frames.items }
        ensures to_desktop { CountsOf Handheld result.0.to_desktop result.0.frames.items }
    {
        let World {
            line,
            server,
            log,
            ..
        } = self;
        let Line {
            wire,
            handheld,
            desktop,
        } = line;
        let Wire { frames, .. } = wire;
        let Log {
            issued,
            performed,
            replies,
            given,
        } = log;
        let said = LineLog {
            issued,
            performed,
            replies,
            given,
            frames,
            to_handheld: handheld.reader.tally(),
            to_desktop: desktop.reader.tally(),
        };
        (said, server.into_folder())
    }
}
