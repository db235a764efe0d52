// Databases and records that have no text.
ghost use Rattle.std.specs.Prelude.{◌≡◌, ℕ, List, Option};
ghost use Rattle.palm_records.specs.Choices.{first_bad};
ghost use Rattle.palm_records.specs.declared.choice.BrokenRecords.TheVariants.{Refused};
ghost use Rattle.content_lines.specs.Refusals as refusals;
ghost use Rattle.content_lines.specs.Refusals.{address_place, fault_by, fault_seen, refusal, refusal_at, task_place};

use palm_records::{BrokenRecords, ExportFault, Privacy, is_exported, read_address, read_task};
use pdb_values::{DbHead, Record};

/// Whether a database holds records of type `DATA` and of this creator.
pub fn holds(head: &DbHead, creator: [u8; 4]) -> bool
    ensures { result ≡ refusals.holds creator head.now }
{
    !head.holds_resources() && head.kind.0 == *b"DATA" && head.creator.0 == creator
}

/// A form of records.
pub trait Form {
    /// The place where bytes are out of the form, if they are.
    ghost fault: { List ℕ → Option ℕ };

    /// That place.
    fn place(bytes: &[u8]) -> Option<usize>
        ensures { result ≡ fault bytes.now };
}

/// The form of addresses.
pub struct AddressForm;

impl Form for AddressForm {
    ghost fault = { address_place };

    fn place(bytes: &[u8]) -> Option<usize> {
        match read_address(bytes) {
            Ok(_) => None,
            Err(bad) => Some(bad.place),
        }
    }
}

/// The form of tasks.
pub struct TaskForm;

impl Form for TaskForm {
    ghost fault = { task_place };

    fn place(bytes: &[u8]) -> Option<usize> {
        match read_task(bytes) {
            Ok(_) => None,
            Err(bad) => Some(bad.place),
        }
    }
}

/// There is no text, where a record that is exported is out of its form and such records are not kept.
pub fn refuse_broken<F: Form>(
    records: &[Record],
    privacy: Privacy,
    broken: BrokenRecords,
) -> Result<(), ExportFault>
    ensures { result ≡ refusal broken (first_bad (fault_by F.fault) privacy 0 records.now) }
{
    match broken {
        BrokenRecords::Kept => Ok(()),
        BrokenRecords::Refused => refuse_first_bad::<F>(records, privacy),
    }
}

// There is no text, where a record that is exported is out of its form.
fn refuse_first_bad<F: Form>(records: &[Record], privacy: Privacy) -> Result<(), ExportFault>
    ensures { result ≡ refusal Refused (first_bad (fault_by F.fault) privacy 0 records.now) }
{
    for (index, item) in records.iter().enumerate() {
        check_item::<F>(privacy, index, item)?;
    }
    Ok(())
}

// The fault of a record with this number that is exported and out of its form.
fn check_item<F: Form>(privacy: Privacy, index: usize, item: &Record) -> Result<(), ExportFault>
    ensures { result ≡ refusal_at index (fault_seen (fault_by F.fault) privacy item.now) }
{
    if !is_exported(privacy, item) {
        return Ok(());
    }
    match F::place(item.content.bytes()) {
        None => Ok(()),
        Some(place) => Err(ExportFault::BadRecord { index, place }),
    }
}
