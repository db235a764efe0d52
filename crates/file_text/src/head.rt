// The head and the blocks of a database as lines.
ghost use Rattle.std.specs.Prelude.{◌≡◌, ◌++◌, IfOk, OnOk, string_bytes};
ghost use Rattle.std.specs.Option.{option_copied};
ghost use Rattle.file_text.specs.Heads.{absent_text, block_text, blocks_line, codes_text, dates_line, name_line, type_line, version_text};

use crate::field::{push_hex, push_number};
use pdb_values::{Database, DbHead};
use std::alloc::{AllocError, Global};

/// The line of the name.
#[tactic(auto, unfolding(crate::specs::Heads::name_line))]
pub fn name_line(alloc: Global, head: &DbHead) -> Result<String, AllocError>
    ensures { IfOk result (λ text. string_bytes text ≡ name_line head.now) }
{
    let stem = head.name.file_stem(alloc)?;
    let mut text = String::from_str(alloc, "name ")?;
    text.push_str(stem.as_str())?;
    text.push_str("\n")?;
    Ok(text)
}

/// Appends the line of type, creator, version and attributes.
pub fn push_type_line(alloc: Global, text: &mut String, head: &DbHead) -> Result<(), AllocError>
    ensures { OnOk result (string_bytes text.new ≡ string_bytes text.old ++ type_line head.now) }
{
    push_codes(alloc, text, head)?;
    push_version(alloc, text, head)?;
    Ok(())
}

fn push_codes(alloc: Global, text: &mut String, head: &DbHead) -> Result<(), AllocError>
    ensures { OnOk result (string_bytes text.new ≡ string_bytes text.old ++ codes_text head.now) }
{
    push_hex(alloc, text, "type ", &head.kind.0)?;
    push_hex(alloc, text, " creator ", &head.creator.0)?;
    Ok(())
}

fn push_version(alloc: Global, text: &mut String, head: &DbHead) -> Result<(), AllocError>
    ensures { OnOk result (string_bytes text.new ≡ string_bytes text.old ++ version_text head.now) }
{
    push_number(text, " version ", u64::from(head.version))?;
    push_hex(alloc, text, " attributes ", &head.attributes.to_be_bytes())?;
    text.push_str("\n")?;
    Ok(())
}

/// Appends the line of the dates, in seconds.
#[tactic(auto, unfolding(crate::specs::Heads::dates_line))]
pub fn push_dates_line(text: &mut String, head: &DbHead) -> Result<(), AllocError>
    ensures { OnOk result (string_bytes text.new ≡ string_bytes text.old ++ dates_line head.now) }
{
    push_number(text, "created ", u64::from(head.created.seconds()))?;
    push_number(text, " modified ", u64::from(head.modified.seconds()))?;
    push_number(text, " backup ", u64::from(head.backup.seconds()))?;
    text.push_str("\n")?;
    Ok(())
}

/// Appends the line of the app block and the sort block.
#[tactic(auto, unfolding(crate::specs::Heads::blocks_line))]
pub fn push_blocks_line(text: &mut String, database: &Database) -> Result<(), AllocError>
    ensures { OnOk result (string_bytes text.new ≡ string_bytes text.old
        ++ blocks_line database.now.app database.now.sort) }
{
    push_block(text, "app ", database.app())?;
    push_block(text, " sort ", database.sort())?;
    text.push_str("\n")?;
    Ok(())
}

// Appends a word and the length of a block, or `-` where it is absent.
fn push_block(text: &mut String, word: &str, block: Option<&[u8]>) -> Result<(), AllocError>
    ensures { OnOk result (string_bytes text.new ≡ string_bytes text.old
        ++ block_text word.now (option_copied block.entry)) }
{
    match block {
        Some(block) => push_number(text, word, block.len() as u64),
        None => push_absent(text, word),
    }
}

fn push_absent(text: &mut String, word: &str) -> Result<(), AllocError>
    ensures { OnOk result (string_bytes text.new ≡ string_bytes text.old ++ absent_text word.now) }
{
    text.push_str(word)?;
    text.push_str("-")?;
    Ok(())
}
