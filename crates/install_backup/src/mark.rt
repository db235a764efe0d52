// What an install says of itself in a handheld's marks.
ghost use Rattle.std.specs.Prelude.{◌≡◌, IfErr, false};
ghost use Rattle.std.specs.List.{list_any};
ghost use Rattle.mirrors.specs.Asks.{Asks};
ghost use Rattle.session_parts.specs.Causes.{IsLater};
ghost use Rattle.install_backup.specs.InstallActs as acts;
ghost use Rattle.install_backup.specs.Marks as marks;
ghost use Rattle.install_backup.specs.Marks.{marks_before};
ghost use Rattle.install_backup.specs.Rooms.{IsNoLimit};

use desktop_session::{Linked, SessionFault};
use dlp_commands::Link;
use pdb_values::{Database, PalmDate, Password, UserInfo, UserName};

/// What a session that installs says in the handheld's marks before its first write, where they don't say so already.
#[derive(Clone, Copy)]
pub enum Mark {
    /// Nothing.
    Unchanged,
    /// That its last desktop is none: the next session reads every record.
    NoDesktop,
    /// That another life begins: it has no user's number, no desktop and no date.
    NewLife,
}

/// The mark of a session that installs this database. Programs write none, since no session reads them.
pub fn install_mark(database: &Database) -> Mark
    ensures { result ≡ acts.install_mark database.now }
{
    if database.head().holds_resources() {
        Mark::Unchanged
    } else {
        Mark::NoDesktop
    }
}

/// The mark of a session that restores these databases. Where all are read-only none is installed, and the life goes on.
pub fn restore_mark(databases: &[Database]) -> Mark
    ensures { result ≡ acts.restore_mark databases.now }
{
    if installs_some(databases) {
        Mark::NewLife
    } else {
        Mark::Unchanged
    }
}

// Whether one of these databases is installed.
fn installs_some(databases: &[Database]) -> bool
    ensures { result ≡ list_any acts.is_installable databases.now }
{
    databases
        .iter()
        .any(|database| !database.head().is_read_only())
}

// Whether the handheld's marks say so already.
fn is_marked(mark: Mark, user: &UserInfo) -> bool
    ensures { result ≡ marks.is_marked mark user.now }
{
    match mark {
        Mark::Unchanged => true,
        Mark::NoDesktop => user.pc == 0,
        Mark::NewLife => {
            user.user == 0 && user.pc == 0 && user.good.seconds() == 0 && user.last.seconds() == 0
        }
    }
}

// Which numbers a mark sets.
fn bits_of(mark: Mark) -> u8
    ensures { result ≡ marks.mark_bits mark }
{
    match mark {
        Mark::Unchanged => 0,
        Mark::NoDesktop => 0x40,
        Mark::NewLife => 0xE0,
    }
}

// No user, no desktop, no date.
fn nobody() -> UserInfo
    ensures { result ≡ marks.nobody }
{
    let Some(name) = UserName::new(b"") else {
        unreachable!();
    };
    let Some(password) = Password::new(b"") else {
        unreachable!();
    };
    UserInfo {
        user: 0,
        viewer: 0,
        pc: 0,
        good: PalmDate::of_seconds(0),
        last: PalmDate::of_seconds(0),
        name,
        password,
    }
}

// Says what a mark says, unless the handheld's marks say so already.
pub(crate) fn say_mark<L: Link>(linked: &mut Linked<L>, mark: Mark) -> Result<(), SessionFault>
    requires { linked.old.abandoned ≡ false }
    ensures asks { Asks L.talk L.since L.fault L.downs (marks_before mark linked.old.user) linked.old
        linked.new result }
    ensures cause { IfErr result (IsLater (L.talk linked.new.link) (L.fault linked.new.link)) }
    ensures others { IfErr result IsNoLimit }
{
    if is_marked(mark, linked.user()) {
        return Ok(());
    }
    linked.mark(&nobody(), bits_of(mark))
}
