// One record of a memo database.
ghost use Rattle.std.specs.Prelude.{◌≡◌, ◌++◌, OnOk, string_bytes};
ghost use Rattle.std.specs.Option.{option_copied};
ghost use Rattle.memo_texts.specs.Exports.{IsItem, item_text, memo_of};
ghost use Rattle.memo_texts.specs.Memos.{IsMemo, memo_text};

use crate::export_head::push_head;
use crate::export_lines::push_lines;
use palm_records::{Privacy, is_exported, shown_label, until_zero};
use pdb_values::Record;
use std::alloc::{AllocError, Global};

/// Appends the memo of a record, where it is exported.
pub fn push_item(
    alloc: Global,
    text: &mut String,
    app: Option<&[u8]>,
    privacy: Privacy,
    item: &Record,
) -> Result<(), AllocError>
    ensures text { OnOk result (string_bytes text.new
        ≡ string_bytes text.old ++ item_text (option_copied app.entry) privacy item.now) }
    ensures memo { OnOk result (IsItem (option_copied app.entry) privacy item.now) }
{
    if is_exported(privacy, item) {
        push_memo(alloc, text, app, item)?;
    }
    Ok(())
}

// Appends the memo of a record.
fn push_memo(
    alloc: Global,
    text: &mut String,
    app: Option<&[u8]>,
    item: &Record,
) -> Result<(), AllocError>
    ensures text { OnOk result (string_bytes text.new
        ≡ string_bytes text.old ++ memo_text (memo_of (option_copied app.entry) item.now)) }
    ensures memo { OnOk result (IsMemo (memo_of (option_copied app.entry) item.now)) }
{
    let label = shown_label(app, item.content.category());
    push_head(alloc, text, item.id, item.content.secret(), label)?;
    let memo = until_zero(item.content.bytes());
    push_lines(text, memo)?;
    Ok(())
}
