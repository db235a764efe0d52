// The entries of a database, a line each.
ghost use Rattle.std.specs.Prelude.{◌≡◌, ◌++◌, OnOk, string_bytes};
ghost use Rattle.file_text.specs.Entries.{bytes_text, full_record_line, full_record_lines, full_resource_line, full_resource_lines, record_fields, record_line, record_lines, resource_fields, resource_line, resource_lines};

use crate::escaped::push_escaped;
use crate::field::{push_hex, push_number};
use pdb_files::attributes_of;
use pdb_values::{Record, Resource};
use std::alloc::{AllocError, Global};

/// Appends a line for each record.
pub fn push_records(alloc: Global, text: &mut String, records: &[Record]) -> Result<(), AllocError>
    ensures { OnOk result (
        string_bytes text.new ≡ string_bytes text.old ++ record_lines records.now) }
{
    for (place, item) in records.iter().enumerate() {
        push_record(alloc, text, place, item)?;
    }
    Ok(())
}

/// Appends a line for each record, with its bytes.
pub fn push_full_records(
    alloc: Global,
    text: &mut String,
    records: &[Record],
) -> Result<(), AllocError>
    ensures { OnOk result (
        string_bytes text.new ≡ string_bytes text.old ++ full_record_lines records.now) }
{
    for (place, item) in records.iter().enumerate() {
        push_full_record(alloc, text, place, item)?;
    }
    Ok(())
}

// Appends the line of one record.
fn push_record(
    alloc: Global,
    text: &mut String,
    place: usize,
    item: &Record,
) -> Result<(), AllocError>
    ensures { OnOk result (
        string_bytes text.new ≡ string_bytes text.old ++ record_line place item.now) }
{
    push_record_fields(alloc, text, place, item)?;
    text.push_str("\n")?;
    Ok(())
}

// Appends the line of one record with its bytes.
fn push_full_record(
    alloc: Global,
    text: &mut String,
    place: usize,
    item: &Record,
) -> Result<(), AllocError>
    ensures { OnOk result (
        string_bytes text.new ≡ string_bytes text.old ++ full_record_line place item.now) }
{
    push_record_fields(alloc, text, place, item)?;
    push_bytes(text, item.content.bytes())?;
    Ok(())
}

// Appends two spaces, bytes as text, and the end of the line.
fn push_bytes(text: &mut String, bytes: &[u8]) -> Result<(), AllocError>
    ensures { OnOk result (string_bytes text.new ≡ string_bytes text.old ++ bytes_text bytes.now) }
{
    text.push_str("  ")?;
    push_escaped(text, bytes)?;
    text.push_str("\n")?;
    Ok(())
}

// Appends what is told of one record.
#[tactic(auto, unfolding(crate::specs::Entries::record_fields))]
fn push_record_fields(
    alloc: Global,
    text: &mut String,
    place: usize,
    item: &Record,
) -> Result<(), AllocError>
    ensures { OnOk result (
        string_bytes text.new ≡ string_bytes text.old ++ record_fields place item.now) }
{
    push_number(text, "", place as u64)?;
    push_hex(alloc, text, " id ", &item.id.number().to_be_bytes()[1..])?;
    push_hex(alloc, text, " attr ", &[attributes_of(item)])?;
    push_number(text, " size ", item.content.bytes().len() as u64)?;
    Ok(())
}

/// Appends a line for each resource.
pub fn push_resources(
    alloc: Global,
    text: &mut String,
    resources: &[Resource],
) -> Result<(), AllocError>
    ensures { OnOk result (
        string_bytes text.new ≡ string_bytes text.old ++ resource_lines resources.now) }
{
    for (place, resource) in resources.iter().enumerate() {
        push_resource(alloc, text, place, resource)?;
    }
    Ok(())
}

/// Appends a line for each resource, with its bytes.
pub fn push_full_resources(
    alloc: Global,
    text: &mut String,
    resources: &[Resource],
) -> Result<(), AllocError>
    ensures { OnOk result (
        string_bytes text.new ≡ string_bytes text.old ++ full_resource_lines resources.now) }
{
    for (place, resource) in resources.iter().enumerate() {
        push_full_resource(alloc, text, place, resource)?;
    }
    Ok(())
}

// Appends the line of one resource.
fn push_resource(
    alloc: Global,
    text: &mut String,
    place: usize,
    resource: &Resource,
) -> Result<(), AllocError>
    ensures { OnOk result (
        string_bytes text.new ≡ string_bytes text.old ++ resource_line place resource.now) }
{
    push_resource_fields(alloc, text, place, resource)?;
    text.push_str("\n")?;
    Ok(())
}

// Appends the line of one resource with its bytes.
fn push_full_resource(
    alloc: Global,
    text: &mut String,
    place: usize,
    resource: &Resource,
) -> Result<(), AllocError>
    ensures { OnOk result (string_bytes text.new
        ≡ string_bytes text.old ++ full_resource_line place resource.now) }
{
    push_resource_fields(alloc, text, place, resource)?;
    push_bytes(text, resource.bytes.as_slice())?;
    Ok(())
}

// Appends what is told of one resource.
#[tactic(auto, unfolding(crate::specs::Entries::resource_fields))]
fn push_resource_fields(
    alloc: Global,
    text: &mut String,
    place: usize,
    resource: &Resource,
) -> Result<(), AllocError>
    ensures { OnOk result (
        string_bytes text.new ≡ string_bytes text.old ++ resource_fields place resource.now) }
{
    push_number(text, "", place as u64)?;
    push_hex(alloc, text, " type ", &resource.kind.0)?;
    push_number(text, " id ", u64::from(resource.id))?;
    push_number(text, " size ", resource.bytes.as_slice().len() as u64)?;
    Ok(())
}
