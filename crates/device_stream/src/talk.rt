//! A talk.
ghost use Rattle.std.specs.Prelude.{◌≡◌, ◌↔◌, ◌≤◌, None, false, true, length, IfErr, IfOk, IsErr, IsErrOf, OnErr, OnOk};
ghost use Rattle.arrayvec.specs.ArrayVec.{array_vec_len};
ghost use Rattle.hs_folders.specs.Causes.{HasCause};
ghost use Rattle.slp_frames.specs.PacketValues.{lent_value};
ghost use Rattle.padp_end.specs.Ends.{end_takes, is_spent};
ghost use Rattle.padp_end.specs.Outgoings.{said_text};
ghost use Rattle.handheld_server.specs.Servers.{device_of};
ghost use Rattle.line_world.specs.Logs.{texts};
ghost use Rattle.device_stream.specs.Alikeness.{Alike};
ghost use Rattle.device_stream.specs.Hands.{with_delivery, greeted_by, message_of, wake_said, waited_by, with_end, woken};
ghost use Rattle.device_stream.specs.Parts.{are_talk_parts, hand_of};
ghost use Rattle.device_stream.specs.Takings.{HasTaken, Performs, PerformsNothing, Serves};

use crate::greeting::{is_farewell, is_init, session_id, wake};
use crate::parts::{TRANSACTIONS, TalkParts};
use crate::performing::{perform, reply_to, take_whole};
use crate::report::DeviceReport;
use crate::talk_end::TalkEnd;
use arrayvec::ArrayVec;
use dlp_commands::Message;
use handheld_server::{ServeFault, Server};
use handheld_store::Store;
use hs_folders::Folder;
use padp_end::{End, Heard, MAX_SAID};
use padp_link::{PartsFault, TriesSpent};
use slp_frames::PacketLent;
use std::alloc::{AllocError, Global};
use std::marker::Model;

/// The handheld's end over a server: it is handed packets and says what goes back.
#[derive(Drop)]
pub struct Talk<F: Folder> {
    alloc: Global,
    server: Server<F>,
    end: End,
    // The request that is performed, and its reply.
    request: Message,
    reply: Message,
    report: DeviceReport,
    greeted: bool,
    over: Option<TalkEnd>,
}

impl<F: Folder> Model for Talk<F> {
    ghost use Rattle.line_world.specs.Logs.{texts};
    ghost use Rattle.device_stream.specs.Talks.{TalkValue};

    ghost Value = { TalkValue F };

    ghost view = { λ talk. record {
      folder = talk.server.folder;
      hand = record {
        device = talk.server.device;
        end = talk.end;
        performed = texts talk.report.performed.items;
        replies = texts talk.report.replies.items;
        greeted = talk.greeted;
        over = talk.over;
      };
      sound = talk.server.sound;
    } };
}

impl<F: Folder> Talk<F> {
    /// Begins a talk over a server, and says the wake. For want of memory the server comes back.
    pub fn new(
        alloc: Global,
        server: Server<F>,
        out: &mut ArrayVec<u8, MAX_SAID>,
    ) -> Result<Talk<F>, Server<F>>
        ensures talk { IfOk result (λ talk. talk ≡ record {
          folder = server.folder;
          hand = woken server.device;
          sound = server.sound;
        }) }
        ensures said { OnOk result (out.new.items ≡ said_text wake_said) }
        ensures server { IfErr result (λ back. back ≡ server) }
    {
        let Ok(mut end) = End::new(alloc) else {
            return Err(server);
        };
        let Ok(request) = Message::new(alloc) else {
            return Err(server);
        };
        let Ok(reply) = Message::new(alloc) else {
            return Err(server);
        };
        out.clear();
        end.expect(session_id(0));
        end.begin(session_id(0), &wake(), out);
        Ok(Talk {
            alloc,
            server,
            end,
            request,
            reply,
            report: DeviceReport::new(alloc),
            greeted: false,
            over: None,
        })
    }

    /// Takes a packet, and replaces `out` by what goes back.
    pub fn take(
        &mut self,
        packet: PacketLent<'_>,
        out: &mut ArrayVec<u8, MAX_SAID>,
    ) -> Result<(), ServeFault>
        requires sound { self.old.sound ≡ true }
        requires going { self.old.hand.over ≡ None }
        // What is said and what it is then.
        ensures takes { OnOk result (HasTaken self.old.hand (lent_value packet.entry)
            out.new.items self.new.hand) }
        ensures sound { OnOk result (self.new.sound ≡ true) }
        ensures short { length self.old.hand.end.message ≤ 65535
            → length self.new.hand.end.message ≤ 65535 }

        // The folder goes with the device, one request at most.
        ensures performs { Performs F.contents F.moments F.paths F.faults self.old self.new }

        // After a fault the request that was being served is in no report, and the device is as before.
        ensures refused { OnErr result (self.new.hand
            ≡ with_end self.old.hand (end_takes self.old.hand.end (lent_value packet.entry)).end) }
        ensures cause { HasCause (F.faults self.old.folder) (F.faults self.new.folder)
            (IsErrOf result ServeFault.Keeper) }
    {
        out.clear();
        match self.end.take(packet, out) {
            Heard::Nothing | Heard::Tickle => Ok(()),
            Heard::Delivered => {
                self.deliver();
                Ok(())
            }
            Heard::Message if self.greeted => self.serve(out),
            Heard::Message => {
                self.greet();
                Ok(())
            }
            Heard::Stop => {
                self.over = Some(TalkEnd::Aborted);
                Ok(())
            }
        }
    }

    /// Says the piece that waits once more, and replaces `out` by it. Refused exactly where it had its ten
    /// tries. Nothing is said where nothing waits.
    pub fn wait(&mut self, out: &mut ArrayVec<u8, MAX_SAID>) -> Result<(), TriesSpent>
        ensures spent { IsErr result ↔ (is_spent self.old.hand.end ≡ true) }
        ensures talk { self.new ≡ record self.old { hand = (waited_by self.old.hand).1 } }
        ensures said { out.new.items ≡ said_text (waited_by self.old.hand).0 }
    {
        out.clear();
        self.end.wait(out)
    }

    /// How the talk is over, once it is.
    pub fn over(&self) -> Option<TalkEnd>
        ensures { result ≡ self.now.hand.over }
    {
        self.over
    }

    /// What was performed, and the folder.
    pub fn into_parts(self) -> (DeviceReport, F)
        ensures performed { texts result.0.performed.items ≡ self.hand.performed }
        ensures replies { texts result.0.replies.items ≡ self.hand.replies }
        ensures folder { result.1 ≡ self.folder }
    {
        let Talk { server, report, .. } = self;
        (report, server.into_folder())
    }

    // The message that was sent is delivered.
    fn deliver(&mut self)
        ensures hand { self.new.hand ≡ with_delivery self.old.hand }
        ensures stays { PerformsNothing self.old self.new }
    {
        if is_farewell(self.end.sent()) {
            self.over = Some(TalkEnd::Ended);
        }
    }

    // The first message is whole.
    fn greet(&mut self)
        ensures hand { self.new.hand ≡ greeted_by self.old.hand (message_of self.old.hand.end) }
        ensures message { self.new.hand.end.message ≡ self.old.hand.end.message }
        ensures stays { PerformsNothing self.old self.new }
    {
        take_whole(&self.end, &mut self.request);
        if is_init(self.request.bytes()) {
            self.greeted = true;
            self.end.expect(session_id(1));
        } else {
            self.over = Some(TalkEnd::BadHello);
        }
    }

    // A request is whole: it is performed, and its reply begins.
    fn serve(&mut self, out: &mut ArrayVec<u8, MAX_SAID>) -> Result<(), ServeFault>
        requires sound { self.old.sound ≡ true }
        requires room { array_vec_len out.old ≤ 16 }
        ensures serves { OnOk result (Serves self.old.hand out.old.items out.new.items
            self.new.hand) }
        ensures sound { OnOk result (self.new.sound ≡ true) }
        ensures short { OnOk result (length self.new.hand.end.message ≤ 65535) }
        ensures performs { Performs F.contents F.moments F.paths F.faults self.old self.new }
        ensures refused { OnErr result (self.new.hand ≡ self.old.hand) }
        ensures cause { HasCause (F.faults self.old.folder) (F.faults self.new.folder)
            (IsErrOf result ServeFault.Keeper) }
    {
        take_whole(&self.end, &mut self.request);
        perform(
            self.alloc,
            &mut self.server,
            &mut self.report,
            &self.request,
            &mut self.reply,
        )?;
        let number = self.report.performed.len();
        reply_to(&mut self.end, number, &self.reply, out);
        Ok(())
    }
}

impl<F: Folder + Drop> Talk<F> {
    /// A talk over a store, of these parts. Of what was performed its report has no text: it holds so
    /// many requests and replies of no bytes. `Form` is answered exactly where there is no such talk:
    /// where the end is none, or the number of requests is a round of transactions or more.
    pub fn of_parts(alloc: Global, store: Store<F>, parts: TalkParts) -> Result<Talk<F>, PartsFault>
        ensures made { IfOk result (λ talk. talk ≡ record {
          folder = store.folder;
          hand = hand_of (device_of store parts.handles) parts;
          sound = store.sound;
        }) }
        ensures form { IsErrOf result PartsFault.Form ↔ (are_talk_parts parts ≡ false) }
    {
        let end = parts.make_end(alloc)?;
        Ok(Talk {
            alloc,
            server: Server::with_handles(store, parts.handles),
            end,
            request: Message::new(alloc)?,
            reply: Message::new(alloc)?,
            report: DeviceReport::of_number(alloc, parts.number)?,
            greeted: parts.greeted,
            over: parts.over,
        })
    }

    /// The folder, and what the talk holds beside it. A talk that is made of these again over the same
    /// store is alike this one: it says the same to all that comes.
    pub fn into_hand(self, alloc: Global) -> Result<(F, TalkParts), AllocError>
        ensures alike { IfOk result (λ apart. Alike self.hand
            (hand_of self.hand.device apart.1)) }
        ensures parts { IfOk result (λ apart. are_talk_parts apart.1 ≡ true) }
        ensures folder { IfOk result (λ apart. apart.0 ≡ self.folder) }
    {
        let end = self.end.parts(alloc)?;
        let number = self.report.performed.len() % usize::from(TRANSACTIONS);
        let Talk {
            server,
            greeted,
            over,
            ..
        } = self;
        let (folder, handles) = server.into_parts();
        let parts = TalkParts {
            end,
            handles,
            number: number as u8,
            greeted,
            over,
        };
        Ok((folder, parts))
    }
}
