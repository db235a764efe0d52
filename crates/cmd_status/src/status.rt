// How a call ended.
ghost use Rattle.std.specs.Prelude.{◌≡◌};
ghost use Rattle.cmd_status.specs.FolderFaults.{backup_status, desktop_status, handheld_status};
ghost use Rattle.cmd_status.specs.declared.status.Status.TheVariants as status;

use backup_files::BackupFault;
use desk_store::DeskOpenFault;
use dlp_replies::ErrorCode;
use handheld_store::OpenFault;
use memo_texts::LineFlaw;
use pdb_files::BadKind;
use pdb_values::DbName;
use run_words::{CommandWord, ExportForm, FaultKind};
use std::alloc::AllocError;
use trace_check::Rule;
use trace_text::End;

/// Where a bad file lies.
#[derive(Clone, Copy, PartialEq, Eq)]
pub enum FileSide {
    Handheld,
    Desktop,
    Source,
}

/// What a text has too many of.
#[derive(Clone, Copy, PartialEq, Eq)]
pub enum Surplus {
    Categories,
    Records,
}

/// How a call of the program ended.
#[derive(Drop)]
pub enum Status {
    /// The command was done whole.
    Done,
    /// The words ask for nothing that this program does.
    Usage,
    /// The same, and this word is at fault: the command, where one is named, what is wrong with the word, and the word.
    BadWord {
        command: Option<CommandWord>,
        kind: FaultKind,
        word: String,
    },
    /// The first line of the script that is out of its form, from 1 on.
    BadScript(u32),
    /// The source has more than 67,108,864 bytes, or the script more than 100,000 lines.
    TooLong,
    /// A file breaks the rules of its format: its name, its first failing test, and the place of
    /// that in the file, or the number of the block.
    BadFile {
        side: FileSide,
        name: String,
        kind: BadKind,
        place: u64,
    },
    /// The source's database of this name holds nothing that has this form.
    CannotExport {
        name: DbName,
        form: ExportForm,
    },
    /// The source's database of this name is read-only, and can't be written to a handheld.
    CannotInstall(DbName),
    /// The source's record of this number, from 0 on, is out of its form at this place in it.
    BadRecord {
        index: u64,
        place: u64,
    },
    /// The first line of the source, from 1 on, that is none of a text of memos, and what is wrong with it.
    BadText {
        line: u64,
        flaw: LineFlaw,
    },
    /// The source has more of these than a database holds.
    Overfull(Surplus),
    /// The app block of the database of this name is not one of categories.
    BadCategories(DbName),
    /// The first line of the source, from 1 on, that is none of a trace.
    BadTrace(u32),
    /// The trace breaks this rule, and keeps those before it.
    NotProper(Rule),
    /// A side has more than 200 databases.
    TooMany(End),
    /// The handheld's folder failed.
    HandheldFolder,
    /// The desktop's folder failed.
    DesktopFolder,
    /// Somebody else has the folder of this end open.
    InUse(End),
    /// The source failed.
    SourceRead,
    /// The trace failed.
    TraceWrite,
    /// Standard output failed.
    OutWrite,
    /// Memory ran out.
    NoMemory,
    /// A fragment of this end was sent ten times and never answered.
    LineDown(End),
    /// The line was unplugged where the frame of this number was to be sent.
    Unplugged(u64),
    /// The session was aborted in place of the frame of this number.
    Aborted(u64),
    /// The frame of this number, as the line would have damaged it, holds a packet.
    Undetected(u64),
    /// The handheld's user and that of the desktop are not the same.
    OtherUser {
        handheld: u32,
        desktop: u32,
    },
    /// The desktop has no room for one more user.
    TooManyUsers,
    /// The session would make more of this database than a side can hold.
    Limit(DbName),
    /// By a handheld that is a stranger to the desktop's slot, or lost this database, the session would cost the desktop live rows of it.
    NewHandheld(DbName),
    /// The folder of this end has the information file of the other one.
    WrongSide(End),
    /// The folder for a backup is one that is synchronised.
    NotBackupFolder,
    /// Two files of a folder of backups hold databases of one name: the first in byte order of file names, and the one behind it.
    SameDatabase {
        first: String,
        second: String,
    },
    /// The bytes ended before the talk was over.
    StreamEnded,
    /// The other end aborted the talk.
    StreamAborted,
    /// The first message of the other end is no init.
    BadHello,
    /// The port failed.
    PortFailed,
    /// No handheld woke the port.
    NoHandheld,
    /// All that was said over the port was acknowledged, and nothing came.
    LineSilent,
    /// What came over the port never ended.
    LineEndless,
    /// The handheld behind the port ended the connection.
    PeerAborted,
    /// The handheld behind the port greeted once more while a reply was awaited.
    PeerBeganAnew,
    /// The handheld refused a request of this function with this error.
    Refused {
        function: u8,
        code: ErrorCode,
    },
    /// The reply to a request of this function can't be read, or says less than it must.
    BadReply(u8),
}

impl From<AllocError> for Status {
    ghost from_gives = { λ _ outcome. outcome ≡ status.NoMemory };

    fn from(_: AllocError) -> Self {
        Status::NoMemory
    }
}

/// What it makes of a run that the handheld's folder was not opened.
impl From<OpenFault> for Status {
    ghost from_gives = { λ fault outcome. outcome ≡ handheld_status fault };

    fn from(fault: OpenFault) -> Self {
        match fault {
            OpenFault::Keeper => Status::HandheldFolder,
            OpenFault::TooMany => Status::TooMany(End::Handheld),
            OpenFault::BadFile { name, kind, place } => Status::BadFile {
                side: FileSide::Handheld,
                name,
                kind,
                place,
            },
            OpenFault::NoMemory => Status::NoMemory,
        }
    }
}

/// What it makes of a run that the desktop's folder was not opened.
impl From<DeskOpenFault> for Status {
    ghost from_gives = { λ fault outcome. outcome ≡ desktop_status fault };

    fn from(fault: DeskOpenFault) -> Self {
        match fault {
            DeskOpenFault::DeskFault => Status::DesktopFolder,
            DeskOpenFault::TooMany => Status::TooMany(End::Desktop),
            DeskOpenFault::BadFile { name, kind, place } => Status::BadFile {
                side: FileSide::Desktop,
                name,
                kind,
                place,
            },
            DeskOpenFault::NoMemory => Status::NoMemory,
        }
    }
}

/// What it makes of a restore that its folder of backups was not read.
impl From<BackupFault> for Status {
    ghost from_gives = { λ fault outcome. outcome ≡ backup_status fault };

    fn from(fault: BackupFault) -> Self {
        match fault {
            BackupFault::Failed => Status::DesktopFolder,
            BackupFault::TooMany => Status::TooMany(End::Desktop),
            BackupFault::BadFile { name, kind, place } => Status::BadFile {
                side: FileSide::Desktop,
                name,
                kind,
                place,
            },
            BackupFault::SameDatabase { first, second } => Status::SameDatabase { first, second },
            BackupFault::NoMemory => Status::NoMemory,
        }
    }
}

impl FileSide {
    ghost use Rattle.cmd_status.specs.Lines.{side_word};

    /// The word that stands for the side in a printed line.
    pub fn word(self) -> &'static str
        ensures { result.now ≡ side_word self }
    {
        match self {
            FileSide::Handheld => "handheld",
            FileSide::Desktop => "desktop",
            FileSide::Source => "source",
        }
    }
}

impl Status {
    ghost use Rattle.cmd_status.specs.Codes.{code_of};

    /// The exit status of the program.
    pub fn code(&self) -> u8
        ensures { result ≡ code_of self.now }
    {
        match self {
            Status::Done => 0,
            Status::NotProper(_) => 1,
            Status::Usage | Status::BadWord { .. } => 2,
            Status::BadScript(_)
            | Status::TooLong
            | Status::BadFile { .. }
            | Status::CannotExport { .. }
            | Status::BadRecord { .. }
            | Status::BadText { .. }
            | Status::Overfull(_)
            | Status::BadCategories(_)
            | Status::BadTrace(_)
            | Status::TooMany(_) => 3,
            Status::HandheldFolder
            | Status::DesktopFolder
            | Status::InUse(_)
            | Status::SourceRead
            | Status::TraceWrite
            | Status::OutWrite
            | Status::PortFailed => 4,
            Status::NoMemory => 5,
            Status::LineDown(_)
            | Status::Unplugged(_)
            | Status::Aborted(_)
            | Status::Undetected(_)
            | Status::StreamEnded
            | Status::StreamAborted
            | Status::BadHello
            | Status::NoHandheld
            | Status::LineSilent
            | Status::LineEndless
            | Status::PeerAborted
            | Status::PeerBeganAnew
            | Status::Refused { .. }
            | Status::BadReply(_) => 6,
            Status::OtherUser { .. }
            | Status::TooManyUsers
            | Status::Limit(_)
            | Status::NewHandheld(_)
            | Status::WrongSide(_)
            | Status::CannotInstall(_)
            | Status::NotBackupFolder
            | Status::SameDatabase { .. } => 7,
        }
    }
}
