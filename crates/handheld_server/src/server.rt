// The server.
ghost use Rattle.std.specs.Prelude.{◌≡◌, OnErr, OnOk, IsErrOf, false, true};
ghost use Rattle.hs_folders.specs.Moments.{OneChange};
ghost use Rattle.dlp_requests.specs.Views.{request_value};
ghost use Rattle.palm_device.specs.Handles.{no_handles};
ghost use Rattle.handheld_files.specs.Openings.{Stands};
ghost use Rattle.dlp_commands.specs.Changes.{changes, is_change};
ghost use Rattle.dlp_commands.specs.DeviceSteps.{DeviceStep, RequestFits, function_number};
ghost use Rattle.handheld_server.specs.Acts.{Acts};
ghost use Rattle.handheld_server.specs.Keeping.{Keeps, Touches, wrote_by, wrote_user};
ghost use Rattle.handheld_server.specs.Servers.{device_of, store_of};

use crate::fault::ServeFault;
use dlp_commands::{Message, Request, UserMarks, Writing, first_byte, put_fault, read_request};
use handheld_store::Store;
use hs_folders::Folder;
use palm_device::Handles;
use std::alloc::AllocError;
use std::marker::Model;

/// A handheld over a folder: what its store keeps, and the handles of open databases.
#[derive(Drop)]
pub struct Server<F: Folder> {
    pub(crate) store: Store<F>,
    pub(crate) handles: Handles,
}

impl<F: Folder> Model for Server<F> {
    ghost use Rattle.palm_device.specs.Devices.{Device};
    ghost use Rattle.handheld_server.specs.Servers.{ServerValue, device_of};

    ghost Value = { ServerValue F };

    ghost view = { λ server. record {
      folder = server.store.folder;
      device = device_of server.store server.handles;
      sound = server.store.sound;
    } };
}

impl<F: Folder> Server<F> {
    /// The server over a store, with no handle open.
    pub fn new(store: Store<F>) -> Server<F>
        ensures { result ≡ record {
          folder = store.folder;
          device = record { databases = store.databases; user = store.user; handles = no_handles };
          sound = store.sound;
        } }
    {
        Server {
            store,
            handles: Handles::new(),
        }
    }

    /// The server over a store, with these handles open. Where the store has no database of the name that is open under one,
    /// the device answers as if that handle were closed.
    pub fn with_handles(store: Store<F>, handles: Handles) -> Server<F>
        ensures { result ≡ record {
          folder = store.folder;
          device = device_of store handles;
          sound = store.sound;
        } }
    {
        Server { store, handles }
    }

    /// Whether the folder stands for the device: no request met the folder's failure or want of memory
    /// while a file was to be changed.
    pub fn is_sound(&self) -> bool
        ensures { result ≡ self.now.sound }
    {
        self.store.is_sound()
    }

    /// Hands the folder back.
    pub fn into_folder(self) -> F
        ensures { result ≡ self.folder }
    {
        let Server { store, handles: _ } = self;
        store.into_folder()
    }

    /// Hands the folder back, and the handles that are open.
    pub fn into_parts(self) -> (F, Handles)
        ensures folder { result.0 ≡ self.folder }
        ensures handles { result.1 ≡ self.device.handles }
    {
        let Server { store, handles } = self;
        (store.into_folder(), handles)
    }

    /// Does what the bytes of a request ask, and replaces the reply. What changes is kept in the folder
    /// first.
    pub fn serve(&mut self, request: &[u8], reply: &mut Message) -> Result<(), ServeFault>
        requires { self.old.sound ≡ true }
        // One step of the device, for which the folder stands afterwards.
        ensures step { OnOk result (
            DeviceStep self.old.device request.now reply.new self.new.device) }
        ensures stands { Stands (F.contents self.old.folder) self.old.device.databases
            self.old.device.user
            → OnOk result (Stands (F.contents self.new.folder) self.new.device.databases
            self.new.device.user) }
        ensures sound { OnOk result (self.new.sound ≡ true) }

        // After a fault the device is as before, and so is the whole server, or it is not sound.
        ensures device { OnErr result (self.new.device ≡ self.old.device) }
        ensures stays { OnErr result (self.new.sound ≡ true → self.new ≡ self.old) }

        // The folder changed once at most, whole or not at all.
        ensures change { OneChange F.contents F.moments F.paths F.faults
            self.old.folder self.new.folder result (IsErrOf result ServeFault.Keeper) }

        // Which file that is. Only requests that change something touch the folder.
        ensures files { OnOk result (Touches F.contents (wrote_user request.now reply.new)
            (store_of self.old) (store_of self.new)) }
        ensures quiet { changes request.now ≡ false → self.new.folder ≡ self.old.folder }
    {
        match read_request(request) {
            Ok(asked) => self.act(first_byte(request), &asked, reply),
            Err(fault) => {
                put_fault(reply, request, fault);
                Ok(())
            }
        }
    }

    // Does what a request asks; the number is the byte of its function.
    fn act(&mut self, number: u8, asked: &Request<'_>, out: &mut Message) -> Result<(), ServeFault>
        requires sound { self.old.sound ≡ true }
        requires number { number ≡ function_number (request_value asked.now) }
        requires fits { RequestFits (request_value asked.now) }
        ensures acts { OnOk result (Acts self.old.device number (request_value asked.now) out.new
            self.new.device) }
        ensures handles { OnErr result (self.new.device.handles ≡ self.old.device.handles) }
        ensures keeps { Keeps F.contents F.moments F.paths F.faults
            (store_of self.old) (store_of self.new) result }
        ensures files { OnOk result (Touches F.contents (wrote_by number out.new)
            (store_of self.old) (store_of self.new)) }
        ensures quiet { is_change number ≡ false → self.new.folder ≡ self.old.folder }
    {
        if let Some((handle, writing)) = Writing::of(asked) {
            return self.write(number, handle, &writing, out);
        }
        match *asked {
            Request::WriteUserInfo {
                user,
                viewer,
                pc,
                date,
                bits,
                name_len,
                name,
            } => {
                let marks = UserMarks {
                    user,
                    viewer,
                    pc,
                    date,
                    bits,
                    name_len,
                    name,
                };
                self.write_user(number, &marks, out)
            }
            Request::CreateDb {
                creator,
                kind,
                card,
                flags,
                version,
                name,
            } => self.create(number, creator, kind, card, flags, version, name, out),
            Request::DeleteDb { card, name } => self.delete(number, card, name, out),
            _ => match self.quiet(number, asked, out) {
                Ok(()) => Ok(()),
                Err(AllocError) => Err(ServeFault::NoMemory),
            },
        }
    }
}
