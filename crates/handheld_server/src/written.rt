// What a command writes into the one database that the store lends it.
ghost use Rattle.std.specs.Prelude.{◌≡◌, IfOk, IfSome, OnOk, true};
ghost use Rattle.pdb_values.specs.NamedDatabases.{database_of, replaced};
ghost use Rattle.palm_device.specs.Edits.{IsFor, edit_given, edited, gives_free};
ghost use Rattle.palm_device.specs.Records.{IsFree};
ghost use Rattle.dlp_commands.specs.Writings.{IsShortWriting, writing_value};
ghost use Rattle.handheld_server.specs.Keeping.{Keeps, TouchesOne};
ghost use Rattle.handheld_server.specs.Writing.{Writes};

use crate::fault::ServeFault;
use dlp_commands::{Edit, Refusal, Writing, is_writable};
use handheld_store::Store;
use hs_folders::Folder;
use pdb_values::{DbName, RecordId};

/// Writes into the database of a name that is open in this mode, and keeps its file. Gives the id of
/// the record that was written, or 0.
pub fn write_named<F: Folder>(
    store: &mut Store<F>,
    name: &DbName,
    mode: u8,
    writing: &Writing<'_>,
) -> Result<Result<RecordId, Refusal>, ServeFault>
    requires sound { store.old.sound ≡ true }
    requires short { IsShortWriting (writing_value writing.now) }
    ensures writes { IfOk result (λ answer. Writes mode (writing_value writing.now) name.now
        store.old.databases answer store.new.databases) }
    ensures user { OnOk result (store.new.user ≡ store.old.user) }
    ensures keeps { Keeps F.contents F.moments F.paths F.faults store.old store.new result }
    ensures files { OnOk result (TouchesOne F.contents store.old store.new) }
{
    let Some(database) = store.database(name) else {
        return Ok(Err(Refusal::NoneOpen));
    };
    if !is_writable(mode, database.head()) {
        return Ok(Err(Refusal::ReadOnly));
    }
    match writing.plan(database) {
        Ok(edit) => match edit_named(store, name, &edit) {
            Ok(given) => Ok(Ok(given)),
            Err(fault) => Err(fault),
        },
        Err(refusal) => Ok(Err(refusal)),
    }
}

// Does an edit of the database of a name, and keeps its file. Gives the id of the record that was
// written, or 0.
fn edit_named<F: Folder>(
    store: &mut Store<F>,
    name: &DbName,
    edit: &Edit<'_>,
) -> Result<RecordId, ServeFault>
    requires sound { store.old.sound ≡ true }
    requires possible { IfSome (database_of name.now store.old.databases)
        (λ database. IsFor database edit.now) }
    ensures edited { IfOk result (λ given. IfSome (database_of name.now store.old.databases)
        (λ database. store.new.databases
        ≡ replaced (edited given edit.now database) store.old.databases)) }
    ensures given { IfOk result (λ given. edit_given given edit.now ≡ given) }
    ensures free { IfOk result (λ given. gives_free edit.now ≡ true
        → IfSome (database_of name.now store.old.databases)
        (λ database. IsFree given database.records)) }
    ensures user { OnOk result (store.new.user ≡ store.old.user) }
    ensures keeps { Keeps F.contents F.moments F.paths F.faults store.old store.new result }
    ensures files { OnOk result (TouchesOne F.contents store.old store.new) }
{
    match *edit {
        Edit::Record {
            id,
            category,
            secret,
            bytes,
        } => match store.write_record(name, id, category, secret, bytes) {
            Ok(given) => Ok(given),
            Err(refused) => Err(ServeFault::from(refused)),
        },
        _ => edit_copied(store, name, edit),
    }
}

// The same, on a copy of the database that takes its place.
#[tactic(auto, using(crate::proofs::KeepLaws::keeps_same))]
fn edit_copied<F: Folder>(
    store: &mut Store<F>,
    name: &DbName,
    edit: &Edit<'_>,
) -> Result<RecordId, ServeFault>
    requires sound { store.old.sound ≡ true }
    requires possible { IfSome (database_of name.now store.old.databases)
        (λ database. IsFor database edit.now) }
    ensures edited { IfOk result (λ given. IfSome (database_of name.now store.old.databases)
        (λ database. store.new.databases
        ≡ replaced (edited given edit.now database) store.old.databases)) }
    ensures given { IfOk result (λ given. edit_given given edit.now ≡ given) }
    ensures free { IfOk result (λ given. gives_free edit.now ≡ true
        → IfSome (database_of name.now store.old.databases)
        (λ database. IsFree given database.records)) }
    ensures user { OnOk result (store.new.user ≡ store.old.user) }
    ensures keeps { Keeps F.contents F.moments F.paths F.faults store.old store.new result }
    ensures files { OnOk result (TouchesOne F.contents store.old store.new) }
{
    let mut base = match store.open(name, true) {
        Ok(base) => base,
        Err(_) => return Err(ServeFault::NoMemory),
    };
    match base.apply(edit) {
        Ok(given) => match base.keep() {
            Ok(()) => Ok(given),
            Err(fault) => Err(ServeFault::from(fault)),
        },
        Err(_) => {
            base.close();
            Err(ServeFault::NoMemory)
        }
    }
}
