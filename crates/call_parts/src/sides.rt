// The folders of a session, opened.
ghost use Rattle.std.specs.Prelude.{◌≡◌, ◌≢◌, ◌⊎◌, ◌≤◌, IfErr, IfOk, IfSome, IsErrOf, OnErr, OnOk, bytes_eq, false, string_bytes, true};
ghost use Rattle.std.specs.FinMap as finmap;
ghost use Rattle.std.specs.List.{list_any};
ghost use Rattle.std.specs.Option.{option_map};
ghost use Rattle.hs_folders.specs.Causes.{HasCause, Rose};
ghost use Rattle.hs_folders.specs.Moments.{EachMomentSince};
ghost use Rattle.handheld_files.specs.Openings.{AreKept, HoldsAll, opened_device};
ghost use Rattle.palm_device.specs.Bounds.{IsBounded};
ghost use Rattle.desk_journal.specs.Overlays.{FinishesAs, finished};
ghost use Rattle.desk_store.specs.Bounds.{AreBounded};
ghost use Rattle.desk_store.specs.Desks.{IsDesk};
ghost use Rattle.desk_store.specs.Views.{folder_in as desk_in};
ghost use Rattle.cmd_status.specs.Opening.{Opens, OpensAtMost};
ghost use Rattle.call_parts.specs.Files.{FilesRefuse, StandsApart, is_synced, lists_synced};
ghost use Rattle.call_parts.specs.Refusals.{DesktopRefuses, DesktopShows, HandheldRefuses, HandheldShows, HasDesktop, HasHandheld, LeavesDesktopUnread, is_desktop, is_handheld};
ghost use Rattle.call_parts.specs.Views.{device_in, folder_in};

use cmd_status::Status;
use desk_store::Desk;
use folder_files::{DESKTOP_INFO, DEVICE_INFO, JOURNAL};
use handheld_store::Store;
use hs_folders::{Folder, FolderFault, FolderOpenFault};
use std::alloc::Global;
use trace_text::End;

/// Opens the handheld's folder at this path, and reads all that it holds. A refusal hands it back.
pub fn open_handheld<H: Folder>(
    alloc: Global,
    device: H,
    path: &str,
) -> Result<Store<H>, (Status, H)>
    ensures held { IfOk result (λ store. IfSome (H.contents device) (λ files.
        HoldsAll files store.databases store.user)) }
    ensures kept { IfOk result (λ store. AreKept store.databases) }
    ensures bounded { IfOk result (λ store. IsBounded (opened_device store.databases
        store.user)) }
    ensures sound { IfOk result (λ store. store.sound ≡ true) }
    ensures has { OnOk result (HasHandheld (H.contents device)) }
    ensures refused { IfErr result (λ refused. HandheldRefuses (H.contents device) refused.0) }
    ensures failed { IfErr result (λ refused. refused.0 ≡ Status.HandheldFolder
        → Rose (H.faults device) (H.faults refused.1)) }
    ensures in_use { IfErr result (λ refused. refused.0 ≡ Status.InUse End.Handheld
        → Rose (H.faults device) (H.faults refused.1)) }

    ensures contents { H.contents (device_in result) ≡ H.contents device }
    ensures moments { H.moments (device_in result) ≡ H.moments device }
    ensures later { H.faults device ≤ H.faults (device_in result) }
    ensures opened { OnOk result (Opens path.now (H.paths device) (H.paths (device_in result))) }
    ensures path { OpensAtMost path.now (H.paths device) (H.paths (device_in result)) }
{
    let mut device = device;
    match device.open(path) {
        Ok(()) => judge_handheld(alloc, device),
        Err(FolderOpenFault::InUse) => Err((Status::InUse(End::Handheld), device)),
        Err(FolderOpenFault::Failed) => Err((Status::HandheldFolder, device)),
        Err(FolderOpenFault::NoMemory) => Err((Status::NoMemory, device)),
    }
}

// Reads all that the handheld's folder holds, unless it is a desktop's.
fn judge_handheld<H: Folder>(alloc: Global, device: H) -> Result<Store<H>, (Status, H)>
    ensures held { IfOk result (λ store. IfSome (H.contents device) (λ files.
        HoldsAll files store.databases store.user)) }
    ensures kept { IfOk result (λ store. AreKept store.databases) }
    ensures bounded { IfOk result (λ store. IsBounded (opened_device store.databases
        store.user)) }
    ensures sound { IfOk result (λ store. store.sound ≡ true) }
    ensures has { OnOk result (HasHandheld (H.contents device)) }
    ensures refused { IfErr result (λ refused. HandheldRefuses (H.contents device) refused.0) }
    ensures failed { IfErr result (λ refused. refused.0 ≡ Status.HandheldFolder
        → Rose (H.faults device) (H.faults refused.1)) }
    ensures free { IfErr result (λ refused. refused.0 ≢ Status.InUse End.Handheld) }

    ensures contents { H.contents (device_in result) ≡ H.contents device }
    ensures moments { H.moments (device_in result) ≡ H.moments device }
    ensures later { H.faults device ≤ H.faults (device_in result) }
    ensures paths { H.paths (device_in result) ≡ H.paths device }
{
    let mut device = device;
    match has_file(alloc, &mut device, DESKTOP_INFO) {
        Ok(false) => open_store(alloc, device),
        Ok(true) => Err((Status::WrongSide(End::Handheld), device)),
        Err(FolderFault::Failed) => Err((Status::HandheldFolder, device)),
        Err(FolderFault::Missing | FolderFault::NoMemory) => Err((Status::NoMemory, device)),
    }
}

// Reads all that the handheld's folder holds, which is no desktop's.
fn open_store<H: Folder>(alloc: Global, device: H) -> Result<Store<H>, (Status, H)>
    requires { IfSome (H.contents device) (λ files. is_desktop files ≡ false) }
    ensures held { IfOk result (λ store. IfSome (H.contents device) (λ files.
        HoldsAll files store.databases store.user)) }
    ensures kept { IfOk result (λ store. AreKept store.databases) }
    ensures bounded { IfOk result (λ store. IsBounded (opened_device store.databases
        store.user)) }
    ensures sound { IfOk result (λ store. store.sound ≡ true) }
    ensures has { OnOk result (HasHandheld (H.contents device)) }
    ensures refused { IfErr result (λ refused. HandheldShows (H.contents device) refused.0) }
    ensures failed { IfErr result (λ refused. refused.0 ≡ Status.HandheldFolder
        → Rose (H.faults device) (H.faults refused.1)) }

    ensures contents { H.contents (device_in result) ≡ H.contents device }
    ensures moments { H.moments (device_in result) ≡ H.moments device }
    ensures later { H.faults device ≤ H.faults (device_in result) }
    ensures paths { H.paths (device_in result) ≡ H.paths device }
{
    match Store::open_folder(alloc, device) {
        Ok(store) => Ok(store),
        Err((fault, device)) => Err((Status::from(fault), device)),
    }
}

/// Opens the desktop's folder at this path: finishes a journal that was left, and reads all that it
/// holds. A refusal hands it back.
pub fn open_desktop<D: Folder>(alloc: Global, desk: D, path: &str) -> Result<Desk<D>, (Status, D)>
    ensures desktop { OnOk result (HasDesktop (D.contents desk)) }
    ensures finished { IfOk result (λ opened. D.contents opened.folder
        ≡ option_map finished (D.contents desk)) }
    ensures slots { IfOk result (λ opened. IsDesk
        (option_map finished (D.contents desk)) opened.slots) }
    ensures bounded { IfOk result (λ opened. AreBounded opened.slots) }
    ensures refused { IfErr result (λ refused. DesktopRefuses (D.contents desk) refused.0) }
    ensures failed { IfErr result (λ refused. refused.0 ≡ Status.DesktopFolder
        → Rose (D.faults desk) (D.faults refused.1)) }
    ensures in_use { IfErr result (λ refused. refused.0 ≡ Status.InUse End.Desktop
        → Rose (D.faults desk) (D.faults refused.1)) }
    ensures unread { IfErr result (λ refused. LeavesDesktopUnread refused.0
        → (D.contents refused.1 ≡ D.contents desk) × (D.moments refused.1 ≡ D.moments desk)) }

    ensures stands { FinishesAs (D.contents desk) (D.contents (desk_in result)) }
    ensures each_moment { EachMomentSince (FinishesAs (D.contents desk)) (D.moments desk)
        (D.moments (desk_in result)) }
    ensures later { D.faults desk ≤ D.faults (desk_in result) }
    ensures opened { OnOk result (Opens path.now (D.paths desk) (D.paths (desk_in result))) }
    ensures path { OpensAtMost path.now (D.paths desk) (D.paths (desk_in result)) }
{
    let mut desk = desk;
    match desk.open(path) {
        Ok(()) => judge_desktop(alloc, desk),
        Err(FolderOpenFault::InUse) => Err((Status::InUse(End::Desktop), desk)),
        Err(FolderOpenFault::Failed) => Err((Status::DesktopFolder, desk)),
        Err(FolderOpenFault::NoMemory) => Err((Status::NoMemory, desk)),
    }
}

// Opens what the desktop's folder holds, unless it is a handheld's, in which nothing is finished.
fn judge_desktop<D: Folder>(alloc: Global, desk: D) -> Result<Desk<D>, (Status, D)>
    ensures desktop { OnOk result (HasDesktop (D.contents desk)) }
    ensures finished { IfOk result (λ opened. D.contents opened.folder
        ≡ option_map finished (D.contents desk)) }
    ensures slots { IfOk result (λ opened. IsDesk
        (option_map finished (D.contents desk)) opened.slots) }
    ensures bounded { IfOk result (λ opened. AreBounded opened.slots) }
    ensures refused { IfErr result (λ refused. DesktopRefuses (D.contents desk) refused.0) }
    ensures failed { IfErr result (λ refused. refused.0 ≡ Status.DesktopFolder
        → Rose (D.faults desk) (D.faults refused.1)) }
    ensures free { IfErr result (λ refused. refused.0 ≢ Status.InUse End.Desktop) }
    ensures unread { IfErr result (λ refused. LeavesDesktopUnread refused.0
        → (D.contents refused.1 ≡ D.contents desk) × (D.moments refused.1 ≡ D.moments desk)) }

    ensures stands { FinishesAs (D.contents desk) (D.contents (desk_in result)) }
    ensures each_moment { EachMomentSince (FinishesAs (D.contents desk)) (D.moments desk)
        (D.moments (desk_in result)) }
    ensures later { D.faults desk ≤ D.faults (desk_in result) }
    ensures paths { D.paths (desk_in result) ≡ D.paths desk }
{
    let mut desk = desk;
    match has_file(alloc, &mut desk, DEVICE_INFO) {
        Ok(false) => open_desk(alloc, desk),
        Ok(true) => Err((Status::WrongSide(End::Desktop), desk)),
        Err(FolderFault::Failed) => Err((Status::DesktopFolder, desk)),
        Err(FolderFault::Missing | FolderFault::NoMemory) => Err((Status::NoMemory, desk)),
    }
}

// Finishes a journal that was left in the desktop's folder, which is no handheld's, and reads all that it holds.
fn open_desk<D: Folder>(alloc: Global, desk: D) -> Result<Desk<D>, (Status, D)>
    requires { IfSome (D.contents desk) (λ files. is_handheld files ≡ false) }
    ensures desktop { OnOk result (HasDesktop (D.contents desk)) }
    ensures finished { IfOk result (λ opened. D.contents opened.folder
        ≡ option_map finished (D.contents desk)) }
    ensures slots { IfOk result (λ opened. IsDesk
        (option_map finished (D.contents desk)) opened.slots) }
    ensures bounded { IfOk result (λ opened. AreBounded opened.slots) }
    ensures refused { IfErr result (λ refused. DesktopShows (D.contents desk) refused.0) }
    ensures failed { IfErr result (λ refused. refused.0 ≡ Status.DesktopFolder
        → Rose (D.faults desk) (D.faults refused.1)) }

    ensures stands { FinishesAs (D.contents desk) (D.contents (desk_in result)) }
    ensures each_moment { EachMomentSince (FinishesAs (D.contents desk)) (D.moments desk)
        (D.moments (desk_in result)) }
    ensures later { D.faults desk ≤ D.faults (desk_in result) }
    ensures paths { D.paths (desk_in result) ≡ D.paths desk }
{
    match Desk::open(alloc, desk) {
        Ok(desk) => Ok(desk),
        Err((fault, desk)) => Err((Status::from(fault), desk)),
    }
}

/// Opens the folder for the files of a backup at this path, of which no file is read. One that is synchronised is no such
/// folder. A refusal hands it back.
pub fn open_files<D: Folder>(alloc: Global, files: D, path: &str) -> Result<D, (Status, D)>
    ensures apart { OnOk result (StandsApart (D.contents files)) }
    ensures refused { IfErr result (λ refused. FilesRefuse (D.contents files) refused.0) }
    ensures failed { IfErr result (λ refused. refused.0 ≡ Status.DesktopFolder
        → Rose (D.faults files) (D.faults refused.1)) }
    ensures in_use { IfErr result (λ refused. refused.0 ≡ Status.InUse End.Desktop
        → Rose (D.faults files) (D.faults refused.1)) }

    ensures contents { D.contents (folder_in result) ≡ D.contents files }
    ensures moments { D.moments (folder_in result) ≡ D.moments files }
    ensures later { D.faults files ≤ D.faults (folder_in result) }
    ensures opened { OnOk result (Opens path.now (D.paths files) (D.paths (folder_in result))) }
    ensures path { OpensAtMost path.now (D.paths files) (D.paths (folder_in result)) }
{
    let mut files = files;
    match files.open(path) {
        Ok(()) => judge_files(alloc, files),
        Err(FolderOpenFault::InUse) => Err((Status::InUse(End::Desktop), files)),
        Err(FolderOpenFault::Failed) => Err((Status::DesktopFolder, files)),
        Err(FolderOpenFault::NoMemory) => Err((Status::NoMemory, files)),
    }
}

// Whether this folder may get the files of a backup.
fn judge_files<D: Folder>(alloc: Global, files: D) -> Result<D, (Status, D)>
    ensures apart { OnOk result (StandsApart (D.contents files)) }
    ensures refused { IfErr result (λ refused. FilesRefuse (D.contents files) refused.0) }
    ensures failed { IfErr result (λ refused. refused.0 ≡ Status.DesktopFolder
        → Rose (D.faults files) (D.faults refused.1)) }
    ensures free { IfErr result (λ refused. refused.0 ≢ Status.InUse End.Desktop) }

    ensures contents { D.contents (folder_in result) ≡ D.contents files }
    ensures moments { D.moments (folder_in result) ≡ D.moments files }
    ensures later { D.faults files ≤ D.faults (folder_in result) }
    ensures paths { D.paths (folder_in result) ≡ D.paths files }
{
    let mut files = files;
    match is_kept_synced(alloc, &mut files) {
        Ok(false) => Ok(files),
        Ok(true) => Err((Status::NotBackupFolder, files)),
        Err(FolderFault::Failed) => Err((Status::DesktopFolder, files)),
        Err(FolderFault::Missing | FolderFault::NoMemory) => Err((Status::NoMemory, files)),
    }
}

// Whether the folder lists a file of one that is synchronised.
fn is_kept_synced<F: Folder>(alloc: Global, folder: &mut F) -> Result<bool, FolderFault>
    ensures listed { IfOk result (λ found. IfSome (F.contents folder.old) (λ files.
        is_synced files ≡ found)) }
    ensures contents { F.contents folder.new ≡ F.contents folder.old }
    ensures moments { F.moments folder.new ≡ F.moments folder.old }
    ensures paths { F.paths folder.new ≡ F.paths folder.old }
    ensures cause { HasCause (F.faults folder.old) (F.faults folder.new)
        (IsErrOf result FolderFault.Failed) }
{
    let names = folder.list(alloc)?;
    Ok(has_synced(&names))
}

// Whether one of these names is that of such a file.
fn has_synced(names: &[String]) -> bool
    ensures { result ≡ lists_synced names.now }
{
    is_among(names, DESKTOP_INFO) || is_among(names, DEVICE_INFO) || is_among(names, JOURNAL)
}

// Whether the folder lists a file of this name.
fn has_file<F: Folder>(alloc: Global, folder: &mut F, name: &str) -> Result<bool, FolderFault>
    ensures listed { IfOk result (λ found. IfSome (F.contents folder.old) (λ files.
        finmap.contains_key files name.now ≡ found)) }
    ensures contents { F.contents folder.new ≡ F.contents folder.old }
    ensures moments { F.moments folder.new ≡ F.moments folder.old }
    ensures paths { F.paths folder.new ≡ F.paths folder.old }
    ensures cause { HasCause (F.faults folder.old) (F.faults folder.new)
        (IsErrOf result FolderFault.Failed) }
{
    let names = folder.list(alloc)?;
    Ok(is_among(&names, name))
}

// Whether one of these is this name.
fn is_among(names: &[String], name: &str) -> bool
    ensures { result ≡ list_any (λ other. bytes_eq name.now (string_bytes other)) names.now }
{
    names.iter().any(|other| name == other.as_str())
}
