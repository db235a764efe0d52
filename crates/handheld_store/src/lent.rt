// A database while it is lent, with one of its records selected.
ghost use Rattle.std.specs.Prelude.{◌≡◌, ◌<◌, IfSome, Some, false, is_some, length, slice_get, true};
ghost use Rattle.palm_device.specs.Entries.{change_at};
ghost use Rattle.palm_device.specs.Records as records;
ghost use Rattle.palm_device.specs.Records.{with_records};
ghost use Rattle.handheld_store.specs.Lents.{flagged, moved_to, with_selected};

use palm_device::{place_of_id, set_record};
use pdb_values::{Category, Content, Database, RecordId};
use std::marker::Model;

/// One record of an open database, lent for a change.
pub type RecordMut<'r> = &'r mut LentDatabase;

/// A database that is lent, with one of its records selected for a change.
#[derive(Drop)]
pub struct LentDatabase {
    pub(crate) database: Database,
    place: usize,
}

impl Model for LentDatabase {
    ghost use Rattle.std.specs.Prelude.{◌≡◌, true};
    ghost use Rattle.handheld_files.specs.Settled.{are_settled};
    ghost use Rattle.handheld_store.specs.Lents.{LentValue};

    ghost Value = { LentValue };

    ghost view = { λ lent. record { database = lent.database; place = lent.place } };

    ghost invariant = { λ lent. are_settled lent.database.records ≡ true };
}

impl LentDatabase {
    ghost use Rattle.handheld_files.specs.Settled.{are_settled};

    // A database of which no record is selected yet.
    pub(crate) fn new(database: Database) -> LentDatabase
        requires { are_settled database.records ≡ true }
        ensures { result ≡ record { database = database; place = 0 } }
    {
        LentDatabase { database, place: 0 }
    }

    // The database.
    pub(crate) fn database(&self) -> &Database
        ensures database { result.now ≡ self.now.database }
        ensures settled { are_settled self.now.database.records ≡ true }
    {
        &self.database
    }

    // The database again.
    pub(crate) fn into_database(self) -> Database
        ensures database { result ≡ self.database }
        ensures settled { are_settled result.records ≡ true }
    {
        let LentDatabase { database, place: _ } = self;
        database
    }

    // Selects the record of an id, if there is one.
    pub(crate) fn select(&mut self, id: RecordId) -> bool
        ensures found { result ≡ is_some (records.place_of_id id self.old.database.records) }
        ensures none { result ≡ false → self.new ≡ self.old }
        ensures database { self.new.database ≡ self.old.database }
        ensures place { result ≡ true
            → records.place_of_id id self.old.database.records ≡ Some self.new.place }
        ensures within { result ≡ true → self.new.place < length self.new.database.records }
    {
        match place_of_id(self.database.records(), id.number()) {
            Some(place) => {
                self.place = place;
                true
            }
            None => false,
        }
    }

    /// The content of the record.
    pub fn content(&self) -> &Content
        requires { self.now.place < length self.now.database.records }
        ensures { IfSome (slice_get self.now.database.records self.now.place)
            (λ item. result.now ≡ item.content) }
    {
        &self.database.records()[self.place].content
    }

    /// Makes the record live and dirty with this content. All else stays.
    #[tactic(auto, using(crate::proofs::SettledLaws::settled_rewritten))]
    pub fn set(&mut self, content: Content)
        ensures { self.new ≡ with_selected (records.rewritten content) self.old }
    {
        let _differs = set_record(&mut self.database, self.place, content);
    }

    /// Puts the record into a category and makes it dirty. Its delete bit stays, and all else.
    #[tactic(auto, using(crate::proofs::SettledLaws::settled_moved))]
    pub fn move_to(&mut self, category: Category)
        ensures { self.new ≡ with_selected (moved_to category) self.old }
    {
        move_record(&mut self.database, self.place, category);
    }

    /// Sets or clears the dirty bit of the record. All else stays.
    #[tactic(auto, using(crate::proofs::SettledLaws::settled_flagged))]
    pub fn flag(&mut self, dirty: bool)
        ensures { self.new ≡ with_selected (flagged dirty) self.old }
    {
        flag_record(&mut self.database, self.place, dirty);
    }
}

// Puts the record at a place into a category and makes it dirty.
fn move_record(database: &mut Database, place: usize, category: Category)
    ensures { database.new
        ≡ with_records (change_at (moved_to category) place database.old.records) database.old }
{
    if let Some(item) = database.record_mut(place) {
        item.dirty = true;
        item.content.set_category(category);
    }
}

// Sets or clears the dirty bit of the record at a place.
fn flag_record(database: &mut Database, place: usize, dirty: bool)
    ensures { database.new
        ≡ with_records (change_at (flagged dirty) place database.old.records) database.old }
{
    if let Some(item) = database.record_mut(place) {
        item.dirty = dirty;
    }
}
