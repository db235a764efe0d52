// Databases that are built.
ghost use Rattle.std.specs.Prelude.{◌≡◌, ◌+◌, ◌≤◌, ◌++◌, [], IfOk, OnOk, false, length};
ghost use Rattle.std.specs.Option.{option_copied};
ghost use Rattle.pdb_values.specs.Blocks.{block_of};
ghost use Rattle.pdb_values.specs.Heads.{holds_resources};
ghost use Rattle.palm_device.specs.Blocks.{empty_database};
ghost use Rattle.palm_device.specs.Records.{with_records};
ghost use Rattle.session_plan.specs.Merges.{beside as beside_rows};

use pdb_values::{Database, PushFault, Record};
use std::alloc::{AllocError, Global};

// Puts records behind those of a database.
fn fill(database: &mut Database, records: Vec<Record>) -> Result<(), AllocError>
    requires { holds_resources database.old.head.attributes ≡ false }
    ensures { OnOk result (database.new
        ≡ record database.old { records = database.old.records ++ records.items }) }
{
    for item in records {
        match database.push_record(item) {
            Ok(()) => {}
            Err(PushFault::NoMemory(_) | PushFault::Full(_) | PushFault::TooLarge(_)) => {
                return Err(AllocError);
            }
        }
    }
    Ok(())
}

/// A database of these records, with the head of another one and no blocks.
pub fn beside(alloc: Global, rows: &Database, records: Vec<Record>) -> Result<Database, AllocError>
    requires { holds_resources rows.now.head.attributes ≡ false }
    ensures { IfOk result (λ database. database ≡ beside_rows rows.now records.items) }
{
    let mut database = Database::new(alloc, rows.head().copy());
    fill(&mut database, records)?;
    Ok(database)
}

// A block once more.
fn same_block(alloc: Global, block: Option<&[u8]>) -> Result<Option<Vec<u8>>, AllocError>
    ensures { IfOk result (λ same. block_of same ≡ option_copied block.entry) }
{
    match block {
        Some(bytes) => Ok(Some(Vec::from_slice(alloc, bytes)?)),
        None => Ok(None),
    }
}

// A database of records once more, without its records.
fn emptied(alloc: Global, rows: &Database) -> Result<Database, AllocError>
    requires { holds_resources rows.now.head.attributes ≡ false }
    ensures { IfOk result (λ database. database ≡ with_records [] rows.now) }
{
    let app = same_block(alloc, rows.app())?;
    let sort = same_block(alloc, rows.sort())?;
    let mut database = Database::new(alloc, rows.head().copy());
    database.set_app(app).unwrap();
    database.set_sort(sort).unwrap();
    Ok(database)
}

/// A database of records once more, with these in place of its own.
pub fn refilled(
    alloc: Global,
    rows: &Database,
    records: Vec<Record>,
) -> Result<Database, AllocError>
    requires { holds_resources rows.now.head.attributes ≡ false }
    ensures { IfOk result (λ database. database ≡ with_records records.items rows.now) }
{
    let mut database = emptied(alloc, rows)?;
    fill(&mut database, records)?;
    Ok(database)
}
