// What may change a database or the user.
ghost use Rattle.std.specs.Prelude.{◌≡◌, IfOk, OnErr, OnOk, true};
ghost use Rattle.dlp_requests.specs.Forms as form;
ghost use Rattle.dlp_requests.specs.Forms.{number_of};
ghost use Rattle.dlp_replies.specs.ReplyValues as reply;
ghost use Rattle.dlp_commands.specs.Answers.{Does};
ghost use Rattle.dlp_commands.specs.DatabaseFunctions as databases;
ghost use Rattle.dlp_commands.specs.DeviceSteps.{outcome};
ghost use Rattle.dlp_commands.specs.Writings.{IsShortWriting, writing_value};
ghost use Rattle.handheld_server.specs.Acts.{ActsAt, marks_tried};
ghost use Rattle.handheld_server.specs.Keeping.{Keeps, Touches, TouchesOne, wrote_by};
ghost use Rattle.handheld_server.specs.Servers.{store_of};

use crate::fault::ServeFault;
use crate::server::Server;
use crate::written::write_named;
use dlp_commands::{
    Message, Refusal, Reply, UserMarks, Writing, marked, named, put_refusal, write_reply,
};
use handheld_store::StoreFault;
use hs_folders::Folder;
use palm_device::{Opened, new_head};
use pdb_values::FourCc;

impl<F: Folder> Server<F> {
    // Sets what is said of the user.
    #[tactic(auto, unfolding(dlp_commands::specs::UserFunctions::write_user_info))]
    pub(crate) fn write_user(
        &mut self,
        number: u8,
        marks: &UserMarks<'_>,
        out: &mut Message,
    ) -> Result<(), ServeFault>
        requires sound { self.old.sound ≡ true }
        requires number { number ≡ number_of form.WriteUserInfo }
        ensures done { OnOk result (outcome self.old.device number
            (marks_tried self.old.device marks.now) ≡ (out.new, self.new.device)) }
        ensures handles { OnErr result (self.new.device.handles ≡ self.old.device.handles) }
        ensures keeps { Keeps F.contents F.moments F.paths F.faults
            (store_of self.old) (store_of self.new) result }
        ensures files { OnOk result (Touches F.contents (wrote_by number out.new)
            (store_of self.old) (store_of self.new)) }
    {
        let user = match marked(self.store.user(), marks) {
            Ok(user) => user,
            Err(refusal) => {
                put_refusal(out, number, refusal);
                return Ok(());
            }
        };
        match self.store.set_user(user) {
            Ok(()) => {
                write_reply(&Reply::WriteUserInfo, out);
                Ok(())
            }
            Err(fault) => Err(ServeFault::from(fault)),
        }
    }

    // Makes a database, opens it, and replies its handle or the error.
    pub(crate) fn create(
        &mut self,
        number: u8,
        creator: FourCc,
        kind: FourCc,
        card: u8,
        flags: u16,
        version: u16,
        name: &[u8],
        out: &mut Message,
    ) -> Result<(), ServeFault>
        requires { self.old.sound ≡ true }
        ensures done { OnOk result (outcome self.old.device number (databases.create_db
            self.old.device creator.0 kind.0 card flags version name.now)
            ≡ (out.new, self.new.device)) }
        ensures handles { OnErr result (self.new.device.handles ≡ self.old.device.handles) }
        ensures keeps { Keeps F.contents F.moments F.paths F.faults
            (store_of self.old) (store_of self.new) result }
        ensures files { OnOk result (TouchesOne F.contents (store_of self.old)
            (store_of self.new)) }
    {
        match self.created(creator, kind, card, flags, version, name) {
            Ok(Ok(handle)) => {
                write_reply(&Reply::CreateDb { handle }, out);
                Ok(())
            }
            Ok(Err(refusal)) => {
                put_refusal(out, number, refusal);
                Ok(())
            }
            Err(fault) => Err(fault),
        }
    }

    // Makes a database and opens it.
    #[tactic(auto, unfolding(dlp_commands::specs::DatabaseFunctions::create_db))]
    fn created(
        &mut self,
        creator: FourCc,
        kind: FourCc,
        card: u8,
        flags: u16,
        version: u16,
        name: &[u8],
    ) -> Result<Result<u8, Refusal>, ServeFault>
        requires { self.old.sound ≡ true }
        ensures done { IfOk result (λ answer. Does reply.CreateDb self.old.device
            self.new.device answer (databases.create_db
            self.old.device creator.0 kind.0 card flags version name.now)) }
        ensures handles { OnErr result (self.new.device.handles ≡ self.old.device.handles) }
        ensures keeps { Keeps F.contents F.moments F.paths F.faults
            (store_of self.old) (store_of self.new) result }
        ensures files { OnOk result (TouchesOne F.contents (store_of self.old)
            (store_of self.new)) }
    {
        let kept = match named(card, name) {
            Ok(kept) => kept,
            Err(refusal) => return Ok(Err(refusal)),
        };
        if self.store.database(&kept).is_some() {
            return Ok(Err(Refusal::Exists));
        }
        let Some(handle) = self.handles.least_free() else {
            return Ok(Err(Refusal::TooManyOpen));
        };
        let opened = Opened {
            name: kept.copy(),
            mode: 0xC0,
            next: 0,
        };
        match self
            .store
            .create(new_head(kept, kind, creator, flags, version))
        {
            Ok(()) => {
                self.handles.set(handle, Some(opened));
                Ok(Ok(handle))
            }
            Err(StoreFault::Limit) => Ok(Err(Refusal::Limit)),
            Err(fault) => Err(ServeFault::from(fault)),
        }
    }

    // Takes a database away, and replies that, or the error.
    pub(crate) fn delete(
        &mut self,
        number: u8,
        card: u8,
        name: &[u8],
        out: &mut Message,
    ) -> Result<(), ServeFault>
        requires { self.old.sound ≡ true }
        ensures done { OnOk result (outcome self.old.device number
            (databases.delete_db self.old.device card name.now) ≡ (out.new, self.new.device)) }
        ensures handles { OnErr result (self.new.device.handles ≡ self.old.device.handles) }
        ensures keeps { Keeps F.contents F.moments F.paths F.faults
            (store_of self.old) (store_of self.new) result }
        ensures files { OnOk result (TouchesOne F.contents (store_of self.old)
            (store_of self.new)) }
    {
        match self.deleted(card, name) {
            Ok(Ok(())) => {
                write_reply(&Reply::DeleteDb, out);
                Ok(())
            }
            Ok(Err(refusal)) => {
                put_refusal(out, number, refusal);
                Ok(())
            }
            Err(fault) => Err(fault),
        }
    }

    // Takes a database away.
    #[tactic(auto, unfolding(dlp_commands::specs::DatabaseFunctions::delete_db))]
    fn deleted(&mut self, card: u8, name: &[u8]) -> Result<Result<(), Refusal>, ServeFault>
        requires { self.old.sound ≡ true }
        ensures done { IfOk result (λ answer. Does (λ _. reply.DeleteDb) self.old.device
            self.new.device answer (databases.delete_db self.old.device card name.now)) }
        ensures handles { OnErr result (self.new.device.handles ≡ self.old.device.handles) }
        ensures keeps { Keeps F.contents F.moments F.paths F.faults
            (store_of self.old) (store_of self.new) result }
        ensures files { OnOk result (TouchesOne F.contents (store_of self.old)
            (store_of self.new)) }
    {
        let kept = match named(card, name) {
            Ok(kept) => kept,
            Err(refusal) => return Ok(Err(refusal)),
        };
        if self.store.database(&kept).is_none() {
            return Ok(Err(Refusal::NotFound));
        }
        if self.handles.is_open(name) {
            return Ok(Err(Refusal::AlreadyOpen));
        }
        match self.store.delete(&kept) {
            Ok(()) => Ok(Ok(())),
            Err(fault) => Err(ServeFault::from(fault)),
        }
    }

    // What a function writes into the database of a handle.
    #[tactic(auto, using(crate::proofs::WriteLaws::closed_acts))]
    pub(crate) fn write(
        &mut self,
        number: u8,
        handle: u8,
        writing: &Writing<'_>,
        out: &mut Message,
    ) -> Result<(), ServeFault>
        requires sound { self.old.sound ≡ true }
        requires short { IsShortWriting (writing_value writing.now) }
        ensures acts { OnOk result (ActsAt self.old.device number handle
            (writing_value writing.now) out.new self.new.device) }
        ensures handles { OnErr result (self.new.device.handles ≡ self.old.device.handles) }
        ensures keeps { Keeps F.contents F.moments F.paths F.faults
            (store_of self.old) (store_of self.new) result }
        ensures files { OnOk result (TouchesOne F.contents (store_of self.old)
            (store_of self.new)) }
    {
        let Some(opened) = self.handles.opened_at(handle) else {
            put_refusal(out, number, Refusal::NoneOpen);
            return Ok(());
        };
        match write_named(&mut self.store, &opened.name, opened.mode, writing) {
            Ok(Ok(given)) => {
                writing.put_done(given, out);
                Ok(())
            }
            Ok(Err(refusal)) => {
                put_refusal(out, number, refusal);
                Ok(())
            }
            Err(fault) => Err(fault),
        }
    }
}
