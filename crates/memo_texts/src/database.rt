// The database of memos.
ghost use Rattle.std.specs.Prelude.{◌≡◌, ◌++◌, ◌∷◌, [], ◌⊎◌, ◌≤◌, Err, IfErr, IfOk, Ok, OnOk, false, length};
ghost use Rattle.memo_texts.specs.Databases.{database_of, memo_head, record_of};
ghost use Rattle.pdb_values.specs.Heads.{holds_resources};

use crate::app_block::memo_block;
use crate::category::{category_of, labels_of};
use crate::fault::ImportFault;
use crate::label::Label;
use crate::memo::Memo;
use pdb_values::{Content, Database, DbHead, DbName, FourCc, PalmDate, Record};
use std::alloc::{AllocError, Global};

/// The memo database of memos.
pub fn database_of(alloc: Global, memos: &[Memo]) -> Result<Database, ImportFault>
    ensures database { IfOk result (λ database. database_of memos.now ≡ Ok database) }
    ensures fault { IfErr result (λ fault. (fault ≡ ImportFault.NoMemory)
        ⊎ (database_of memos.now ≡ Err fault)) }
{
    let labels = labels_of(alloc, memos)?;
    if memos.len() > Database::GREATEST_COUNT {
        return Err(ImportFault::TooManyRecords);
    }
    let mut database = Database::new(alloc, memo_head());
    let block = memo_block(alloc, &labels)?;
    if database.set_app(Some(block)).is_err() {
        unreachable!()
    }
    for memo in memos {
        let item = record_of(alloc, &labels, memo)?;
        push_record(&mut database, item)?;
    }
    Ok(database)
}

// Puts a record behind the others.
fn push_record(database: &mut Database, item: Record) -> Result<(), AllocError>
    requires { holds_resources database.old.head.attributes ≡ false }
    ensures { OnOk result (database.new
        ≡ record database.old { records = database.old.records ++ item ∷ [] }) }
{
    match database.push_record(item) {
        Ok(()) => Ok(()),
        Err(_) => Err(AllocError),
    }
}

// The head of a memo database.
fn memo_head() -> DbHead
    ensures { result ≡ memo_head }
{
    let Ok(name) = DbName::new(b"MemoDB") else {
        unreachable!()
    };
    let never = PalmDate::of_seconds(0);
    DbHead {
        name,
        attributes: 0x0008,
        version: 0,
        created: never,
        modified: never,
        backup: never,
        modnum: 0,
        seed: 0,
        kind: FourCc(*b"DATA"),
        creator: FourCc(*b"memo"),
    }
}

// The record of a memo: its text and a zero byte.
fn record_of(alloc: Global, labels: &[Label], memo: &Memo) -> Result<Record, AllocError>
    requires { length labels.now ≤ 15 }
    ensures { IfOk result (λ item. item ≡ record_of labels.now memo.now) }
{
    let mut bytes = Vec::from_slice(alloc, memo.text())?;
    bytes.push(0)?;
    let category = category_of(labels, memo.label());
    let Ok(content) = Content::new(category, memo.secret(), bytes) else {
        unreachable!()
    };
    Ok(Record {
        id: memo.id(),
        deleted: false,
        dirty: false,
        busy: false,
        content,
    })
}
