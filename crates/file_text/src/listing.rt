// All lines of a database.
ghost use Rattle.std.specs.Prelude.{◌≡◌, ◌++◌, IfOk, OnOk, string_bytes};
ghost use Rattle.file_text.specs.Heads.{head_lines as lines_of_head};
ghost use Rattle.file_text.specs.Entries.{entry_lines, full_entry_lines};
ghost use Rattle.file_text.specs.Listings.{full_text as text_in_full, show_text};

use crate::entries::{push_full_records, push_full_resources, push_records, push_resources};
use crate::head::{name_line, push_blocks_line, push_dates_line, push_type_line};
use pdb_values::{Database, DbHead};
use std::alloc::{AllocError, Global};

/// What a database holds: four lines of its head and its blocks, and a line for each entry.
pub fn show_text(alloc: Global, database: &Database) -> Result<String, AllocError>
    ensures { IfOk result (λ text. string_bytes text ≡ show_text database.now) }
{
    let mut text = head_lines(alloc, database.head())?;
    push_blocks_line(&mut text, database)?;
    push_entries(alloc, &mut text, database)?;
    Ok(text)
}

/// The same lines, those of its entries with their bytes.
pub fn full_text(alloc: Global, database: &Database) -> Result<String, AllocError>
    ensures { IfOk result (λ text. string_bytes text ≡ text_in_full database.now) }
{
    let mut text = head_lines(alloc, database.head())?;
    push_blocks_line(&mut text, database)?;
    push_full_entries(alloc, &mut text, database)?;
    Ok(text)
}

// The lines of the head.
fn head_lines(alloc: Global, head: &DbHead) -> Result<String, AllocError>
    ensures { IfOk result (λ text. string_bytes text ≡ lines_of_head head.now) }
{
    let mut text = name_line(alloc, head)?;
    push_type_line(alloc, &mut text, head)?;
    push_dates_line(&mut text, head)?;
    Ok(text)
}

// Appends the lines of the entries.
fn push_entries(alloc: Global, text: &mut String, database: &Database) -> Result<(), AllocError>
    ensures { OnOk result (
        string_bytes text.new ≡ string_bytes text.old ++ entry_lines database.now) }
{
    if database.head().holds_resources() {
        push_resources(alloc, text, database.resources())
    } else {
        push_records(alloc, text, database.records())
    }
}

// Appends the lines of the entries with their bytes.
fn push_full_entries(
    alloc: Global,
    text: &mut String,
    database: &Database,
) -> Result<(), AllocError>
    ensures { OnOk result (
        string_bytes text.new ≡ string_bytes text.old ++ full_entry_lines database.now) }
{
    if database.head().holds_resources() {
        push_full_resources(alloc, text, database.resources())
    } else {
        push_full_records(alloc, text, database.records())
    }
}
