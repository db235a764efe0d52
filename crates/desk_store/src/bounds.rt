// Values within the bounds of their types. Each call looks at the parts of a value, and says what their types keep.
ghost use Rattle.std.specs.Prelude.{◌≡◌, All, length};
ghost use Rattle.std.specs.List.{AllByRecursion};
ghost use Rattle.pdb_values.specs.Databases.{IsShortResource};
ghost use Rattle.palm_device.specs.Bounds.{IsBoundedDatabase, IsBoundedHead, IsBoundedRecord, IsBoundedResource};
ghost use Rattle.desk_store.specs.Bounds.{AreBoundedMarks};

use pdb_values::{Database, DbHead, FourCc, Marks, Record, Resource};

// A database.
pub(crate) fn see_database(database: &Database)
    ensures { IsBoundedDatabase database.now }
{
    see_head(database.head());
    see_records(database.records());
    see_resources(database.resources());
}

// A head.
fn see_head(head: &DbHead)
    ensures { IsBoundedHead head.now }
{
    let _name = head.name.as_bytes();
    let _attributes = head.attributes;
    let _version = head.version;
    let _created = head.created.seconds();
    let _modified = head.modified.seconds();
    let _backup = head.backup.seconds();
    let _modnum = head.modnum;
    let _seed = head.seed;
    see_code(head.kind);
    see_code(head.creator);
}

// The four bytes of a type or a creator.
fn see_code(code: FourCc)
    ensures { length code.0 ≡ 4 }
{
    let FourCc(_bytes) = code;
}

// Records.
fn see_records(records: &[Record])
    ensures { AllByRecursion IsBoundedRecord records.now }
{
    for item in records {
        see_record(item);
    }
}

// A record.
fn see_record(item: &Record)
    ensures { IsBoundedRecord item.now }
{
    let _id = item.id.number();
    let _category = item.content.category().number();
    let _bytes = item.content.bytes();
}

// Resources of at most 65,500 bytes.
fn see_resources(resources: &[Resource])
    requires { All IsShortResource resources.now }
    ensures { AllByRecursion IsBoundedResource resources.now }
{
    for resource in resources {
        see_resource(resource);
    }
}

// A resource of at most 65,500 bytes.
fn see_resource(resource: &Resource)
    requires { IsShortResource resource.now }
    ensures { IsBoundedResource resource.now }
{
    see_code(resource.kind);
    let _id = resource.id;
}

// What is known of a user.
pub(crate) fn see_marks(marks: &Marks)
    ensures { AreBoundedMarks marks.now }
{
    let _pc = marks.pc;
    let _user = marks.user;
    let _last = marks.last.seconds();
    let _name = marks.name.as_bytes();
}
