// One database of a handheld, read whole.
ghost use Rattle.std.specs.Prelude.{◌≡◌, false};
ghost use Rattle.session_parts.specs.Spans.{Spans};
ghost use Rattle.install_backup.specs.Backups.{SaysCopied, backups_under};

use crate::copying::read_whole;
use desktop_session::{Linked, SessionFault};
use dlp_commands::Link;
use pdb_values::{Database, DbHead};
use std::alloc::Global;

/// Reads one database of the handheld whole: head, blocks and entries, deleted and archived records with their marks. It is opened to
/// be read, and closed. After a refusal it may be left open, and only `halt` may follow.
pub fn backup_one<L: Link>(
    alloc: Global,
    linked: &mut Linked<L>,
    head: &DbHead,
) -> Result<Database, SessionFault>
    requires { linked.old.abandoned ≡ false }
    ensures spans { let told = L.talk linked.old.link in
        Spans L.talk L.since L.fault L.downs (backups_under told head.now)
        (SaysCopied told head.now) linked.old linked.new result }
{
    let mut opened = linked.open_read(&head.name)?;
    let whole = match read_whole(alloc, &mut opened, head) {
        Ok(whole) => whole,
        Err(fault) => {
            opened.abandon();
            return Err(fault);
        }
    };
    opened.close()?;
    Ok(whole)
}
