// The blocks of a database that a session makes on the handheld.
ghost use Rattle.std.specs.Prelude.{◌≡◌, ◌≤◌, IfErr, IfSome, length};
ghost use Rattle.std.specs.Option.{option_copied};
ghost use Rattle.desktop_session.specs.Asking as asking;
ghost use Rattle.desktop_session.specs.Following.{Follows};
ghost use Rattle.desktop_session.specs.Requests.{writing_app, writing_sort};
ghost use Rattle.mirrors.specs.Asks.{Asks};
ghost use Rattle.session_parts.specs.Causes.{IsLater};
ghost use Rattle.session_plan.specs.Blocks.{block_with_bytes, blocks_of};
ghost use Rattle.sync_session.specs.Inquiries.{writes_block, writes_blocks};
ghost use Rattle.sync_session.specs.News.{block_act, block_acts};

use desktop_session::{OpenDb, SessionFault};
use dlp_commands::Link;
use pdb_values::Database;

// Writes the app block, where it has bytes.
fn write_app<L: Link>(db: &mut OpenDb<'_, L>, block: Option<&[u8]>) -> Result<(), SessionFault>
    requires { IfSome block (λ bytes. length bytes.now ≤ 65500) }
    ensures same_reference { db.new.linked.ghost_name ≡ db.old.linked.ghost_name }
    ensures same_handle { db.new.handle ≡ db.old.handle }
    ensures asks { Asks L.talk L.since L.fault L.downs
        (block_act writing_app db.old.handle (block_with_bytes (option_copied block.entry)))
        db.old.linked.now db.new.linked.now result }
    ensures follows { Follows L.Link
        (writes_block asking.writes_app db.old.handle (block_with_bytes (option_copied block.entry)))
        db.old.linked.now.link db.new.linked.now.link result }
    ensures cause { IfErr result (IsLater (L.talk db.new.linked.now.link)
        (L.fault db.new.linked.now.link)) }
{
    let Some(bytes) = block else {
        return Ok(());
    };
    if bytes.is_empty() {
        return Ok(());
    }
    db.write_app(bytes)
}

// Writes the sort block, where it has bytes.
fn write_sort<L: Link>(db: &mut OpenDb<'_, L>, block: Option<&[u8]>) -> Result<(), SessionFault>
    requires { IfSome block (λ bytes. length bytes.now ≤ 65500) }
    ensures same_reference { db.new.linked.ghost_name ≡ db.old.linked.ghost_name }
    ensures same_handle { db.new.handle ≡ db.old.handle }
    ensures asks { Asks L.talk L.since L.fault L.downs
        (block_act writing_sort db.old.handle (block_with_bytes (option_copied block.entry)))
        db.old.linked.now db.new.linked.now result }
    ensures follows { Follows L.Link
        (writes_block asking.writes_sort db.old.handle (block_with_bytes (option_copied block.entry)))
        db.old.linked.now.link db.new.linked.now.link result }
    ensures cause { IfErr result (IsLater (L.talk db.new.linked.now.link)
        (L.fault db.new.linked.now.link)) }
{
    let Some(bytes) = block else {
        return Ok(());
    };
    if bytes.is_empty() {
        return Ok(());
    }
    db.write_sort(bytes)
}

/// Writes the blocks of the desktop's rows that have bytes into a database that was just made: the app block, and then the sort
/// block.
pub(crate) fn write_blocks<L: Link>(
    db: &mut OpenDb<'_, L>,
    rows: Option<&Database>,
) -> Result<(), SessionFault>
    ensures same_reference { db.new.linked.ghost_name ≡ db.old.linked.ghost_name }
    ensures same_handle { db.new.handle ≡ db.old.handle }
    ensures asks { Asks L.talk L.since L.fault L.downs
        (block_acts db.old.handle (blocks_of (option_copied rows.entry)))
        db.old.linked.now db.new.linked.now result }
    ensures follows { Follows L.Link
        (writes_blocks db.old.handle (blocks_of (option_copied rows.entry)))
        db.old.linked.now.link db.new.linked.now.link result }
    ensures cause { IfErr result (IsLater (L.talk db.new.linked.now.link)
        (L.fault db.new.linked.now.link)) }
{
    let Some(rows) = rows else {
        return Ok(());
    };
    write_app(db, rows.app())?;
    write_sort(db, rows.sort())
}
