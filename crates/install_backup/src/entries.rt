// What is written into a database that was just made.
ghost use Rattle.std.specs.Prelude.{◌≡◌, ◌≤◌, ◌<◌, IfErr, IfSome, length, map};
ghost use Rattle.std.specs.List.{AllByRecursion};
ghost use Rattle.std.specs.Option.{option_copied};
ghost use Rattle.pdb_values.specs.Databases.{IsShortResource};
ghost use Rattle.pdb_values.specs.declared.record.Record.{Record};
ghost use Rattle.desktop_session.specs.Requests.{writing_app, writing_sort};
ghost use Rattle.mirrors.specs.Asks.{Asks};
ghost use Rattle.session_parts.specs.Causes.{IsLater};
ghost use Rattle.install_backup.specs.InstallActs as acts;
ghost use Rattle.install_backup.specs.InstallActs.{block_acts, record_acts};
ghost use Rattle.install_backup.specs.Rooms.{IsNoLimit};

use desktop_session::{OpenDb, SessionFault};
use dlp_commands::Link;
use pdb_values::{Record, Resource};

// Writes the app block, where it has bytes.
pub(crate) fn write_app<L: Link>(
    db: &mut OpenDb<'_, L>,
    block: Option<&[u8]>,
) -> Result<(), SessionFault>
    requires { IfSome block (λ bytes. length bytes.now ≤ 65500) }
    ensures same_reference { db.new.linked.ghost_name ≡ db.old.linked.ghost_name }
    ensures same_handle { db.new.handle ≡ db.old.handle }
    ensures asks { Asks L.talk L.since L.fault L.downs
        (block_acts writing_app db.old.handle (option_copied block.entry))
        db.old.linked.now db.new.linked.now result }
    ensures cause { IfErr result (IsLater (L.talk db.new.linked.now.link)
        (L.fault db.new.linked.now.link)) }
    ensures others { IfErr result IsNoLimit }
{
    let Some(bytes) = block else {
        return Ok(());
    };
    if bytes.is_empty() {
        return Ok(());
    }
    db.write_app(bytes)
}

// Writes the sort block, where it has bytes.
pub(crate) fn write_sort<L: Link>(
    db: &mut OpenDb<'_, L>,
    block: Option<&[u8]>,
) -> Result<(), SessionFault>
    requires { IfSome block (λ bytes. length bytes.now ≤ 65500) }
    ensures same_reference { db.new.linked.ghost_name ≡ db.old.linked.ghost_name }
    ensures same_handle { db.new.handle ≡ db.old.handle }
    ensures asks { Asks L.talk L.since L.fault L.downs
        (block_acts writing_sort db.old.handle (option_copied block.entry))
        db.old.linked.now db.new.linked.now result }
    ensures cause { IfErr result (IsLater (L.talk db.new.linked.now.link)
        (L.fault db.new.linked.now.link)) }
    ensures others { IfErr result IsNoLimit }
{
    let Some(bytes) = block else {
        return Ok(());
    };
    if bytes.is_empty() {
        return Ok(());
    }
    db.write_sort(bytes)
}

// Puts records under their ids.
fn put_records<L: Link>(db: &mut OpenDb<'_, L>, records: &[Record]) -> Result<(), SessionFault>
    requires { AllByRecursion (λ (item : Record). 0 < item.id) records.now }
    ensures same_reference { db.new.linked.ghost_name ≡ db.old.linked.ghost_name }
    ensures same_handle { db.new.handle ≡ db.old.handle }
    ensures asks { Asks L.talk L.since L.fault L.downs
        (map (acts.put_record db.old.handle) records.now)
        db.old.linked.now db.new.linked.now result }
    ensures cause { IfErr result (IsLater (L.talk db.new.linked.now.link)
        (L.fault db.new.linked.now.link)) }
    ensures others { IfErr result IsNoLimit }
{
    for item in records {
        db.put(item.id, &item.content)?;
    }
    Ok(())
}

// Puts records under their ids, which then count as unchanged.
pub(crate) fn write_records<L: Link>(
    db: &mut OpenDb<'_, L>,
    records: &[Record],
) -> Result<(), SessionFault>
    requires { AllByRecursion (λ (item : Record). 0 < item.id) records.now }
    ensures same_reference { db.new.linked.ghost_name ≡ db.old.linked.ghost_name }
    ensures same_handle { db.new.handle ≡ db.old.handle }
    ensures asks { Asks L.talk L.since L.fault L.downs (record_acts db.old.handle records.now)
        db.old.linked.now db.new.linked.now result }
    ensures cause { IfErr result (IsLater (L.talk db.new.linked.now.link)
        (L.fault db.new.linked.now.link)) }
    ensures others { IfErr result IsNoLimit }
{
    put_records(db, records)?;
    db.reset_flags()
}

// Puts resources in their order.
pub(crate) fn write_resources<L: Link>(
    db: &mut OpenDb<'_, L>,
    resources: &[Resource],
) -> Result<(), SessionFault>
    requires { AllByRecursion IsShortResource resources.now }
    ensures same_reference { db.new.linked.ghost_name ≡ db.old.linked.ghost_name }
    ensures same_handle { db.new.handle ≡ db.old.handle }
    ensures asks { Asks L.talk L.since L.fault L.downs
        (map (acts.put_resource db.old.handle) resources.now)
        db.old.linked.now db.new.linked.now result }
    ensures cause { IfErr result (IsLater (L.talk db.new.linked.now.link)
        (L.fault db.new.linked.now.link)) }
    ensures others { IfErr result IsNoLimit }
{
    for resource in resources {
        db.put_resource(resource)?;
    }
    Ok(())
}
