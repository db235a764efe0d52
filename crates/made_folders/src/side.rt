// What a side holds of the items.
ghost use Rattle.std.specs.Prelude.{◌≡◌, ◌≤◌, ◌<◌, ◌++◌, ◌∷◌, [], All, IfOk, OnOk, false, length};
ghost use Rattle.made_folders.specs.Drawn.{IsDrawn};
ghost use Rattle.made_folders.specs.Sides.{letter_on, made_database, made_head as head_of_made};
ghost use Rattle.pdb_values.specs.Heads.{holds_resources};

use crate::item::Item;
use crate::record::record_of;
use pdb_values::{Database, DbHead, DbName, FourCc, PalmDate, PushFault, Record};
use std::alloc::{AllocError, Global};

/// A side, or what both had after the last synchronization.
#[derive(Clone, Copy, PartialEq, Eq)]
pub enum MadeSide {
    Handheld,
    Base,
    Desktop,
}

/// The database of a side: the records that it has of at most 5,000 items, in their order.
pub fn make_database(alloc: Global, side: MadeSide, items: &[Item]) -> Result<Database, AllocError>
    requires drawn { All IsDrawn items.now }
    requires count { length items.now ≤ 5000 }
    ensures { IfOk result (λ database. database ≡ made_database side items.now) }
{
    let mut database = Database::new(alloc, made_head());
    for item in items {
        if let Some(letter) = letter_of(side, item.kind) {
            let made = record_of(alloc, item, letter)?;
            push_record(&mut database, made)?;
        }
    }
    Ok(database)
}

// Appends a record, where there are fewer than 65,535.
fn push_record(database: &mut Database, made: Record) -> Result<(), AllocError>
    requires records { holds_resources database.old.head.attributes ≡ false }
    requires room { length database.old.records < 65535 }
    ensures { OnOk result (database.new
        ≡ record database.old { records = database.old.records ++ made ∷ [] }) }
{
    match database.push_record(made) {
        Ok(()) => Ok(()),
        Err(PushFault::NoMemory(_)) => Err(AllocError),
        Err(_) => unreachable!(),
    }
}

// The head of the one database.
fn made_head() -> DbHead
    ensures { result ≡ head_of_made }
{
    let Ok(name) = DbName::new(b"MadeDB") else {
        unreachable!()
    };
    let never = PalmDate::of_seconds(0);
    DbHead {
        name,
        attributes: 0,
        version: 0,
        created: never,
        modified: never,
        backup: never,
        modnum: 0,
        seed: 0,
        kind: FourCc(*b"DATA"),
        creator: FourCc(*b"made"),
    }
}

// The letter that the text of an item of this kind begins with, where the side has it.
fn letter_of(side: MadeSide, kind: u32) -> Option<u8>
    ensures { result ≡ letter_on side kind }
{
    match side {
        MadeSide::Handheld => {
            if kind == 5 || kind == 8 {
                Some(b'h')
            } else if kind < 8 {
                Some(b'r')
            } else {
                None
            }
        }
        MadeSide::Base => { if kind < 8 { Some(b'r') } else { None } }
        MadeSide::Desktop => {
            if kind == 6 || kind == 9 {
                Some(b'd')
            } else if kind < 6 {
                Some(b'r')
            } else {
                None
            }
        }
    }
}
