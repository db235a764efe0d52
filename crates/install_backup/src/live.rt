// The records of a file that are installed.
ghost use Rattle.std.specs.Prelude.{◌≡◌, ◌<◌, ◌++◌, ◌∷◌, [], IfOk, OnOk, false, filter, length, map};
ghost use Rattle.pdb_values.specs.Heads.{holds_resources};
ghost use Rattle.pdb_values.specs.Records.{is_live};
ghost use Rattle.install_backup.specs.Installed as made;
ghost use Rattle.install_backup.specs.Installed.{installed_records};

use handheld_files::settle;
use pdb_values::{Database, PushFault, Record};
use std::alloc::{AllocError, Global};

// A record once more, which counts as unchanged and on which no application is at work.
fn untouched(alloc: Global, item: &Record) -> Result<Record, AllocError>
    ensures { IfOk result (λ copy. copy ≡ made.untouched item.now) }
{
    Ok(Record {
        id: item.id,
        deleted: item.deleted,
        dirty: false,
        busy: false,
        content: item.content.copy(alloc)?,
    })
}

// Puts a record behind the others, where there are fewer than 65,535.
fn push(database: &mut Database, item: Record) -> Result<(), AllocError>
    requires sort { holds_resources database.old.head.attributes ≡ false }
    requires room { length database.old.records < 65535 }
    ensures { OnOk result (
        database.new ≡ record database.old { records = database.old.records ++ item ∷ [] }) }
{
    match database.push_record(item) {
        Ok(()) => Ok(()),
        Err(PushFault::NoMemory(_)) => Err(AllocError),
        Err(PushFault::Full(_) | PushFault::TooLarge(_)) => unreachable!(),
    }
}

// Those of the records that have no delete bit, in order.
fn live(alloc: Global, database: &Database) -> Result<Database, AllocError>
    requires { holds_resources database.now.head.attributes ≡ false }
    ensures { IfOk result (λ live.
        live.records ≡ map made.untouched (filter is_live database.now.records)) }
{
    let mut live = Database::new(alloc, database.head().copy());
    for item in database.records() {
        if !item.deleted {
            let copy = untouched(alloc, item)?;
            push(&mut live, copy)?;
        }
    }
    Ok(live)
}

// The records that are to be installed, in a database of their own: live ones, each under an id that no other has.
pub(crate) fn to_install(alloc: Global, database: &Database) -> Result<Database, AllocError>
    ensures { IfOk result (λ live. live.records ≡ installed_records database.now.records) }
{
    if database.head().holds_resources() {
        return Ok(Database::new(alloc, database.head().copy()));
    }
    let mut live = live(alloc, database)?;
    settle(alloc, &mut live)?;
    Ok(live)
}
