// How many entries a database has, in words.
ghost use Rattle.std.specs.Prelude.{◌≡◌, IfOk, string_bytes};
ghost use Rattle.file_text.specs.Counts.{check_text, counted_text, entries_word};

use crate::field::push_number;
use pdb_files::{FileCount, entry_count};
use pdb_values::Database;
use std::alloc::{AllocError, Global};

/// `ok N records`, or `ok N resources`, with its end.
pub fn check_text(alloc: Global, database: &Database) -> Result<String, AllocError>
    ensures { IfOk result (λ text. string_bytes text ≡ check_text database.now) }
{
    counted_text(
        alloc,
        FileCount {
            of_resources: database.head().holds_resources(),
            entries: entry_count(database) as u16,
        },
    )
}

/// The same of a database whose entries were counted in its file.
pub fn counted_text(alloc: Global, count: FileCount) -> Result<String, AllocError>
    ensures { IfOk result (λ text. string_bytes text ≡ counted_text count) }
{
    let mut text = String::new(alloc);
    push_number(&mut text, "ok ", u64::from(count.entries))?;
    text.push_str(entries_word(count.of_resources))?;
    Ok(text)
}

// What the entries are.
fn entries_word(of_resources: bool) -> &'static str
    ensures { result.now ≡ entries_word of_resources }
{
    if of_resources {
        " resources\n"
    } else {
        " records\n"
    }
}
