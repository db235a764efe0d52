// Several databases of files, installed one after another.
ghost use Rattle.std.specs.Prelude.{◌≡◌, ◌++◌, ◌∷◌, [], IfErr, OnErr, OnOk, false, true};
ghost use Rattle.session_parts.specs.Spans.{Spans};
ghost use Rattle.session_parts.specs.Stretches.{SpansEach};
ghost use Rattle.session_parts.specs.declared.stop.Stop.TheVariants as stops;
ghost use Rattle.desktop_session.specs.declared.fault.SessionFault.TheVariants as session;
ghost use Rattle.install_backup.specs.InstallActs.{installs_under, is_installable};
ghost use Rattle.install_backup.specs.Installs.{IsLimit, SaysMoved, StopsWithin, making_acts};
ghost use Rattle.install_backup.specs.Rooms.{IsUnmade, IsWithin, RestsFor, fault_in};

use crate::installing::install_one;
use crate::moved::Moved;
use desktop_session::Linked;
use dlp_commands::Link;
use pdb_values::Database;
use session_parts::Stop;
use std::alloc::{AllocError, Global};

// Installs a database, unless it is read-only.
fn install_writable<L: Link>(
    alloc: Global,
    linked: &mut Linked<L>,
    database: &Database,
) -> Result<Moved, Stop>
    requires { linked.old.abandoned ≡ false }
    ensures spans { Spans L.talk L.since L.fault L.downs
        (installs_under (L.talk linked.old.link) database.now)
        (SaysMoved (L.talk linked.old.link) database.now) linked.old linked.new (fault_in result) }
    ensures full { IfErr result (IsUnmade L.talk (RestsFor database.now) (making_acts database.now)
        database.now.head.name linked.old.link linked.new.link) }
    ensures within { OnErr result (IsWithin L.talk L.since L.fault L.downs
        (RestsFor database.now) (making_acts database.now)
        database.now.head.name linked.old.link linked.new.link) }
    ensures writable { IfErr result (λ why. is_installable database.now ≡ true) }
{
    let name = database.head().name.copy();
    if database.head().is_read_only() {
        return Ok(Moved {
            name,
            entries: None,
        });
    }
    let count = install_one(alloc, linked, database)?;
    Ok(Moved {
        name,
        entries: Some(count),
    })
}

// Puts what was done with one database behind the others.
pub(crate) fn push_moved(moved: &mut Vec<Moved>, one: Moved) -> Result<(), Stop>
    ensures moved { OnOk result (moved.new.items ≡ moved.old.items ++ one ∷ []) }
    ensures memory { IfErr result (λ why. why ≡ stops.Session session.NoMemory) }
{
    moved.push(one).map_err(AllocError::from)?;
    Ok(())
}

/// Installs each of these databases, one after another, as `install` does. A read-only one is passed over. The first one that the
/// handheld has no room for is the limit at which it stops. After a refusal a database may be left open, and only `halt` may follow.
pub fn install_all<L: Link>(
    alloc: Global,
    linked: &mut Linked<L>,
    databases: &[Database],
) -> Result<Vec<Moved>, Stop>
    requires { linked.old.abandoned ≡ false }
    ensures installs { SpansEach L.talk L.since L.fault L.downs installs_under SaysMoved
        databases.now (λ made. made.items) linked.old linked.new (fault_in result) }
    ensures full { IfErr result (IsLimit L.talk databases.now linked.old
        linked.new.link) }
    ensures within { OnErr result (StopsWithin L.talk L.since L.fault L.downs databases.now
        linked.old linked.new.link) }
{
    let mut moved = Vec::new(alloc);
    for database in databases {
        let one = install_writable(alloc, linked, database)?;
        push_moved(&mut moved, one)?;
    }
    Ok(moved)
}
