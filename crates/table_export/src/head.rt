// The head row.
ghost use Rattle.std.specs.Prelude.{◌≡◌, ◌<◌, ◌++◌, ◌∷◌, [], IfOk, OnOk, map};
ghost use Rattle.csv.specs.Records.{fields_of};
ghost use Rattle.table_export.specs.Addresses as spec;
ghost use Rattle.table_export.specs.Addresses.{address_names, custom_name, person_names};
ghost use Rattle.table_export.specs.Exports.{content_names, head_row};
ghost use Rattle.table_export.specs.Tasks.{task_names};

use crate::field::push_palm;
use crate::kind::Kind;
use card_export::custom_label;
use csv::StringRecord;
use std::alloc::{AllocError, Global};

/// The head row of a table, with the labels of an app block.
#[tactic(auto, unfolding(crate::specs::Exports::head_row))]
pub fn head_row(alloc: Global, kind: Kind, block: &[u8]) -> Result<StringRecord, AllocError>
    ensures { IfOk result (λ row. fields_of row ≡ head_row kind block.now) }
{
    let mut row = StringRecord::from_fields(alloc, &["id", "private", "category"])?;
    push_names(alloc, &mut row, kind, block)?;
    row.push_field("record")?;
    Ok(row)
}

// Appends the names of the columns of a kind.
fn push_names(
    alloc: Global,
    row: &mut StringRecord,
    kind: Kind,
    block: &[u8],
) -> Result<(), AllocError>
    ensures { OnOk result (fields_of row.new ≡ fields_of row.old ++ content_names kind block.now) }
{
    match kind {
        Kind::Addresses => push_address_names(alloc, row, block),
        Kind::Tasks => push_task_names(row),
    }
}

// Appends the names of the columns of addresses.
fn push_address_names(alloc: Global, row: &mut StringRecord, block: &[u8]) -> Result<(), AllocError>
    ensures { OnOk result (fields_of row.new ≡ fields_of row.old ++ address_names block.now) }
{
    push_person_names(row)?;
    push_custom_name(alloc, row, block, 0)?;
    push_custom_name(alloc, row, block, 1)?;
    push_custom_name(alloc, row, block, 2)?;
    push_custom_name(alloc, row, block, 3)?;
    row.push_field("note")?;
    Ok(())
}

// Appends the names of the columns between the category and the custom fields.
fn push_person_names(row: &mut StringRecord) -> Result<(), AllocError>
    ensures { OnOk result (fields_of row.new ≡ fields_of row.old ++ person_names) }
{
    push_all(
        row,
        &[
            "last name",
            "first name",
            "company",
            "phone 1 kind",
            "phone 1",
            "phone 2 kind",
            "phone 2",
            "phone 3 kind",
            "phone 3",
            "phone 4 kind",
            "phone 4",
            "phone 5 kind",
            "phone 5",
            "address",
            "city",
            "state",
            "zip code",
            "country",
            "title",
        ],
    )
}

// Appends the names of the columns of tasks.
fn push_task_names(row: &mut StringRecord) -> Result<(), AllocError>
    ensures { OnOk result (fields_of row.new ≡ fields_of row.old ++ task_names) }
{
    push_all(row, &["due", "done", "priority", "description", "note"])
}

// Appends fields.
fn push_all(row: &mut StringRecord, names: &[&str]) -> Result<(), AllocError>
    ensures { OnOk result (fields_of row.new ≡ fields_of row.old ++ map (λ name. name.now) names.now) }
{
    for name in names {
        row.push_field(*name)?;
    }
    Ok(())
}

// Appends the name of a custom field.
fn push_custom_name(
    alloc: Global,
    row: &mut StringRecord,
    block: &[u8],
    number: usize,
) -> Result<(), AllocError>
    requires { number < 4 }
    ensures { OnOk result (fields_of row.new
        ≡ fields_of row.old ++ custom_name block.now number ∷ []) }
{
    let label = custom_label(block, number);
    if label.is_empty() {
        row.push_field(plain_name(number))?;
        return Ok(());
    }
    push_palm(alloc, row, label)?;
    Ok(())
}

// The name of a custom field that has no label.
fn plain_name(number: usize) -> &'static str
    requires { number < 4 }
    ensures { result.now ≡ spec.plain_name number }
{
    match number {
        0 => "custom 1",
        1 => "custom 2",
        2 => "custom 3",
        _ => "custom 4",
    }
}
