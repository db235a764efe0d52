// What changes no database and not the user.
ghost use Rattle.std.specs.Prelude.{◌≡◌, ◌<◌, IfSome, IsSome, MatchOption, None, OnErr, OnOk, Some, false, true};
ghost use Rattle.pdb_values.specs.Bounds.{most_entries};
ghost use Rattle.dlp_requests.specs.Views.{request_value};
ghost use Rattle.dlp_replies.specs.ReplyValues as reply;
ghost use Rattle.palm_device.specs.Handles.{base_at, opened_at};
ghost use Rattle.dlp_commands.specs.Answers.{Does, answer_text};
ghost use Rattle.dlp_commands.specs.Asked.{reading_forms};
ghost use Rattle.dlp_commands.specs.Changes.{is_among, is_change};
ghost use Rattle.dlp_commands.specs.DatabaseFunctions as databases;
ghost use Rattle.dlp_commands.specs.DeviceSteps.{function_number, outcome};
ghost use Rattle.dlp_commands.specs.Reached.{read_next_modified_rec, reads, reset_record_index, with_index};
ghost use Rattle.dlp_commands.specs.Readings.{next_in, read_in};
ghost use Rattle.handheld_server.specs.Acts.{Answers};
ghost use Rattle.handheld_server.specs.Next.{next_text, place_in};
ghost use Rattle.handheld_server.specs.Servers.{store_of};

use crate::server::Server;
use dlp_commands::{
    Holds, Message, Reading, Refusal, Reply, Request, listed, more_flag, named, next_record,
    put_done, put_listed, put_refusal, system_reply, user_reply, write_reply,
};
use hs_folders::Folder;
use palm_device::{Opened, has_bit};
use pdb_values::{Database, DbHead};
use std::alloc::AllocError;

// An index at which no record can stand.
const NOWHERE: u16 = 65_535;

impl<F: Folder> Server<F> {
    // Does what a request asks that changes neither; the number is the byte of its function. Want of memory changes nothing.
    pub(crate) fn quiet(
        &mut self,
        number: u8,
        asked: &Request<'_>,
        out: &mut Message,
    ) -> Result<(), AllocError>
        requires sound { self.old.sound ≡ true }
        requires number { number ≡ function_number (request_value asked.now) }
        requires quiet { is_change number ≡ false }
        ensures done { OnOk result (Answers self.old.device number (request_value asked.now) out.new
            self.new.device) }
        ensures store { store_of self.new ≡ store_of self.old }
        ensures stays { OnErr result (self.new ≡ self.old) }
    {
        match Reading::of(asked) {
            Some((handle, reading)) => self.read_placed(number, handle, &reading, out),
            None => {
                self.answer(number, asked, out);
                Ok(())
            }
        }
    }

    // The same of a request that is no reading of an open database.
    fn answer(&mut self, number: u8, asked: &Request<'_>, out: &mut Message)
        requires sound { self.old.sound ≡ true }
        requires number { number ≡ function_number (request_value asked.now) }
        requires quiet { is_change number ≡ false }
        requires reads_none { is_among reading_forms number ≡ false }
        ensures done { Answers self.old.device number (request_value asked.now) out.new
            self.new.device }
        ensures store { store_of self.new ≡ store_of self.old }
    {
        match *asked {
            Request::ReadUserInfo => write_reply(&user_reply(self.store.user()), out),
            Request::ReadSysInfo => write_reply(&system_reply(), out),
            Request::ReadSysInfoFor { .. } => write_reply(&system_reply(), out),
            Request::ReadDbList { flags, card, start } => {
                self.list(number, flags, card, start, out);
            }
            Request::OpenDb { card, mode, name } => {
                let answer = self.open(card, mode, name);
                put_handle(out, number, answer);
            }
            Request::CloseDb { handle } => {
                let answer = self.close(handle);
                put_done(out, number, Reply::CloseDb, answer);
            }
            Request::ReadNextModifiedRec { handle } => self.next(number, handle, out),
            Request::ResetRecordIndex { handle } => {
                let answer = self.reset_index(handle);
                put_done(out, number, Reply::ResetRecordIndex, answer);
            }
            Request::AddSyncLogEntry { .. } => write_reply(&Reply::AddSyncLogEntry, out),
            Request::OpenConduit => write_reply(&Reply::OpenConduit, out),
            Request::EndOfSync { .. } => {
                self.handles.close_all();
                write_reply(&Reply::EndOfSync, out);
            }
            _ => unreachable!(),
        }
    }

    #[tactic(auto, unfolding(dlp_commands::specs::DatabaseFunctions::read_db_list))]
    fn list(&self, number: u8, flags: u8, card: u8, start: u16, out: &mut Message)
        requires { self.now.sound ≡ true }
        ensures { outcome self.now.device number
            (databases.read_db_list self.now.device flags card start) ≡ (out.new, self.now.device) }
    {
        if card != 0 {
            return put_refusal(out, number, Refusal::Parameter);
        }
        if !has_bit(0x80, flags as u16) {
            return put_refusal(out, number, Refusal::NotFound);
        }
        let Some(head) = self.store.head(start as usize) else {
            return put_refusal(out, number, Refusal::NotFound);
        };
        let more = more_flag(start, self.store.len());
        put_listed(out, start, more, listed(head));
    }

    // Opens the database of a name under the least free handle.
    #[tactic(auto, unfolding(dlp_commands::specs::DatabaseFunctions::open_db))]
    fn open(&mut self, card: u8, mode: u8, name: &[u8]) -> Result<u8, Refusal>
        requires { self.old.sound ≡ true }
        ensures done { Does reply.OpenDb self.old.device self.new.device result
            (databases.open_db self.old.device card mode name.now) }
        ensures store { store_of self.new ≡ store_of self.old }
    {
        let kept = named(card, name)?;
        let Some(database) = self.store.database(&kept) else {
            return Err(Refusal::NotFound);
        };
        let attributes = database.head().attributes;
        if self.handles.is_open(name) {
            return Err(Refusal::AlreadyOpen);
        }
        let Some(handle) = self.handles.least_free() else {
            return Err(Refusal::TooManyOpen);
        };
        if has_bit(0x40, mode as u16) && has_bit(DbHead::READ_ONLY, attributes) {
            return Err(Refusal::ReadOnly);
        }
        let opened = Opened {
            name: kept,
            mode,
            next: 0,
        };
        self.handles.set(handle, Some(opened));
        Ok(handle)
    }

    #[tactic(auto, unfolding(dlp_commands::specs::DatabaseFunctions::close_db))]
    fn close(&mut self, handle: u8) -> Result<(), Refusal>
        ensures done { Does (λ _. reply.CloseDb) self.old.device self.new.device result
            (databases.close_db self.old.device handle) }
        ensures store { store_of self.new ≡ store_of self.old }
    {
        if self.handles.opened_at(handle).is_none() {
            return Err(Refusal::NoneOpen);
        }
        self.handles.set(handle, None);
        Ok(())
    }

    // The database that a handle leads to.
    #[tactic(auto, using(crate::proofs::HandleLaws::base_closed, crate::proofs::HandleLaws::base_nowhere, crate::proofs::HandleLaws::base_there))]
    fn database_at(&self, handle: u8) -> Option<(&Opened, &Database)>
        requires { self.now.sound ≡ true }
        ensures { MatchOption result (base_at self.now.device handle ≡ None) (λ found.
            base_at self.now.device handle
            ≡ Some (record { opened = found.0.now; database = found.1.now })) }
    {
        let Some(opened) = self.handles.opened_at(handle) else {
            return None;
        };
        let Some(database) = self.store.database(&opened.name) else {
            return None;
        };
        Some((opened, database))
    }

    // What a function reads of the database of a handle.
    #[tactic(auto, using(dlp_commands::proofs::ReachedLaws::reads_none, dlp_commands::proofs::ReachedLaws::reads_some))]
    fn read(
        &self,
        number: u8,
        handle: u8,
        reading: &Reading,
        out: &mut Message,
    ) -> Result<(), AllocError>
        requires { self.now.sound ≡ true }
        ensures { OnOk result (outcome self.now.device number
            (reads self.now.device handle reading.now) ≡ (out.new, self.now.device)) }
    {
        match self.database_at(handle) {
            Some((_, database)) => reading.answer(self.store.alloc(), database, number, out),
            None => {
                put_refusal(out, number, Refusal::NoneOpen);
                Ok(())
            }
        }
    }

    // The same, without a walk to a record that is read by its id.
    #[tactic(auto, using(crate::proofs::ReadLaws::reads_same))]
    fn read_placed(
        &mut self,
        number: u8,
        handle: u8,
        reading: &Reading,
        out: &mut Message,
    ) -> Result<(), AllocError>
        requires { self.old.sound ≡ true }
        ensures done { OnOk result (outcome self.old.device number
            (reads self.old.device handle reading.now) ≡ (out.new, self.old.device)) }
        ensures stays { self.new ≡ self.old }
    {
        let placed = self.placed(handle, reading);
        self.read(number, handle, &placed, out)
    }

    // The same reading, of a record at its place where it is one by its id.
    #[tactic(auto, using(crate::proofs::ReadLaws::placed_some, crate::proofs::ReadLaws::placed_none))]
    fn placed(&mut self, handle: u8, reading: &Reading) -> Reading
        requires { self.old.sound ≡ true }
        ensures same { IfSome (base_at self.old.device handle)
            (λ base. read_in result base.database ≡ read_in reading.now base.database) }
        ensures stays { self.new ≡ self.old }
    {
        let Reading::RecordOfId { id, offset, length } = *reading else {
            return *reading;
        };
        let Some(opened) = self.handles.opened_at(handle) else {
            return *reading;
        };
        match self.store.place_of(&opened.name, id) {
            Some(place) => Reading::RecordAt {
                index: place as u16,
                offset,
                length,
            },
            None => Reading::RecordAt {
                index: NOWHERE,
                offset,
                length,
            },
        }
    }

    // Replies the next changed record, and sets the record index behind it.
    #[tactic(auto, unfolding(dlp_commands::specs::Reached::read_next_modified_rec), using(dlp_commands::proofs::ReachedLaws::next_none, dlp_commands::proofs::ReachedLaws::next_some))]
    fn next(&mut self, number: u8, handle: u8, out: &mut Message)
        requires { self.old.sound ≡ true }
        ensures done { outcome self.old.device number
            (read_next_modified_rec self.old.device handle) ≡ (out.new, self.new.device) }
        ensures store { store_of self.new ≡ store_of self.old }
    {
        let place = match self.database_at(handle) {
            Some((opened, database)) => put_next(database, opened.next, number, out),
            None => return put_refusal(out, number, Refusal::NoneOpen),
        };
        if let Some(place) = place {
            self.set_index(handle, place + 1);
        }
    }

    // The search for changed records begins anew.
    #[tactic(auto, using(dlp_commands::proofs::ReachedLaws::reset_none, dlp_commands::proofs::ReachedLaws::reset_unfit, dlp_commands::proofs::ReachedLaws::reset_done))]
    fn reset_index(&mut self, handle: u8) -> Result<(), Refusal>
        requires { self.old.sound ≡ true }
        ensures done { Does (λ _. reply.ResetRecordIndex) self.old.device self.new.device result
            (reset_record_index self.old.device handle) }
        ensures store { store_of self.new ≡ store_of self.old }
    {
        match self.database_at(handle) {
            Some((_, database)) => {
                if !Holds::Records.fits(database) {
                    return Err(Refusal::NotSupported);
                }
            }
            None => return Err(Refusal::NoneOpen),
        }
        self.set_index(handle, 0);
        Ok(())
    }

    // Sets the record index of an open handle.
    fn set_index(&mut self, handle: u8, next: u16)
        requires { IsSome (opened_at handle self.old.device.handles) }
        ensures device { self.new.device ≡ with_index self.old.device handle next }
        ensures store { store_of self.new ≡ store_of self.old }
    {
        let Some(opened) = self.handles.opened_at(handle) else {
            return;
        };
        let opened = Opened {
            name: opened.name.copy(),
            mode: opened.mode,
            next,
        };
        self.handles.set(handle, Some(opened));
    }
}

// Replies the handle of a database that was opened, or the error.
fn put_handle(out: &mut Message, number: u8, answer: Result<u8, Refusal>)
    ensures { out.new ≡ answer_text number reply.OpenDb answer }
{
    match answer {
        Ok(handle) => write_reply(&Reply::OpenDb { handle }, out),
        Err(refusal) => put_refusal(out, number, refusal),
    }
}

// Replies the first changed record of a database, or the error. Gives the record's place.
fn put_next(database: &Database, next: u16, number: u8, out: &mut Message) -> Option<u16>
    ensures place { result ≡ place_in (next_in next database.now) }
    ensures reply { out.new ≡ next_text number (next_in next database.now) }
    ensures within { IfSome result (λ place. place < most_entries) }
{
    match next_record(database, next) {
        Ok((place, reply)) => {
            write_reply(&reply, out);
            Some(place)
        }
        Err(refusal) => {
            put_refusal(out, number, refusal);
            None
        }
    }
}
