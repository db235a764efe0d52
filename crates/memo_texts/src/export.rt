// The memos of a database as a text.
ghost use Rattle.std.specs.Prelude.{◌≡◌, ◌↔◌, All, IfOk, IsErrOf, List, OnOk, false, string_bytes, true, ℕ};
ghost use Rattle.std.specs.Option.{option_copied};
ghost use Rattle.memo_texts.specs.Exports.{IsItem, exported_memos, holds_memos, items_text};
ghost use Rattle.memo_texts.specs.Memos.{IsMemo, MemoValue, memos_text};

use crate::export_memo::push_item;
use palm_records::{ExportFault, Privacy};
use pdb_values::{Database, DbHead};
use std::alloc::{AllocError, Global};

/// The text of the memos of a database, in UTF-8: those that are exported, in the order of their records. It is the text
/// of no other memos. Each record is a memo, so none is out of its form.
pub fn memos_text(
    alloc: Global,
    database: &Database,
    privacy: Privacy,
) -> Result<String, ExportFault>
    ensures text { IfOk result (λ text. string_bytes text
        ≡ memos_text (exported_memos privacy database.now)) }
    ensures alone { IfOk result (λ text. (memos : List MemoValue) → All IsMemo memos
        → memos_text memos ≡ string_bytes text → memos ≡ exported_memos privacy database.now) }
    ensures kind { IsErrOf result ExportFault.CannotExport
        ↔ (holds_memos database.now.head ≡ false) }
    ensures whole { (index place : ℕ) → ¬ IsErrOf result (ExportFault.BadRecord index place) }
{
    if !holds_memos(database.head()) {
        return Err(ExportFault::CannotExport);
    }
    let text = items_text(alloc, database, privacy)?;
    Ok(text)
}

// Whether it is a memo database: type `DATA`, creator `memo`, or `PMem` on later handhelds.
fn holds_memos(head: &DbHead) -> bool
    ensures { result ≡ holds_memos head.now }
{
    let is_memo = head.creator.0 == *b"memo" || head.creator.0 == *b"PMem";
    !head.holds_resources() && head.kind.0 == *b"DATA" && is_memo
}

// The text of all records that are exported.
fn items_text(alloc: Global, database: &Database, privacy: Privacy) -> Result<String, AllocError>
    ensures text { IfOk result (λ text. string_bytes text
        ≡ items_text database.now.app privacy database.now.records) }
    ensures memos { OnOk result (All (IsItem database.now.app privacy) database.now.records) }
{
    let mut text = String::new(alloc);
    for item in database.records() {
        push_item(alloc, &mut text, database.app(), privacy, item)?;
    }
    Ok(text)
}
