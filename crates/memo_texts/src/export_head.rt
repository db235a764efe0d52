// The head line of a memo.
ghost use Rattle.std.specs.Prelude.{◌≡◌, ◌<◌, ◌++◌, OnOk, string_bytes};
ghost use Rattle.memo_texts.specs.Memos.{IsBytes};
ghost use Rattle.memo_texts.specs.ExportHeads.{gap, head_line, id_limit, id_text, is_doubtful, label_char, label_chars, label_text, mark};

use palm_records::char_of;
use pdb_values::RecordId;
use std::alloc::{AllocError, Global};

/// Appends the head line of a record: its id, whether it is private, the label of its category.
pub fn push_head(
    alloc: Global,
    text: &mut String,
    id: RecordId,
    secret: bool,
    label: &[u8],
) -> Result<(), AllocError>
    ensures text { OnOk result (string_bytes text.new
        ≡ string_bytes text.old ++ head_line id secret label.now) }
    ensures id { OnOk result (id < id_limit) }
    ensures label { IsBytes label.now }
{
    push_id(alloc, text, id)?;
    text.push_str(mark(secret))?;
    push_label(text, secret, label)?;
    text.push_str("\n")?;
    Ok(())
}

// Appends three dashes and an id.
fn push_id(alloc: Global, text: &mut String, id: RecordId) -> Result<(), AllocError>
    ensures text { OnOk result (string_bytes text.new ≡ string_bytes text.old ++ id_text id) }
    ensures id { OnOk result (id < id_limit) }
{
    let digits = hex::encode(alloc, &id.number().to_be_bytes()[1..])?;
    text.push_str("--- ")?;
    text.push_str(digits.as_str())?;
    Ok(())
}

// The mark of a private record.
fn mark(secret: bool) -> &'static str
    ensures { result.now ≡ mark secret }
{
    if secret { " private" } else { "" }
}

// Appends a label, where there is one.
fn push_label(text: &mut String, secret: bool, label: &[u8]) -> Result<(), AllocError>
    ensures { OnOk result (string_bytes text.new
        ≡ string_bytes text.old ++ label_text secret label.now) }
{
    if label.is_empty() {
        return Ok(());
    }
    text.push_str(gap(secret, label))?;
    push_label_chars(text, label)?;
    Ok(())
}

// What stands in front of a label: a space, and one more where it could be taken for the mark of a private record.
fn gap(secret: bool, label: &[u8]) -> &'static str
    ensures { result.now ≡ gap secret label.now }
{
    if !secret && is_doubtful(label) {
        "  "
    } else {
        " "
    }
}

// Whether a label could be taken for the mark of a private record, or for one with a second space.
fn is_doubtful(label: &[u8]) -> bool
    ensures { result ≡ is_doubtful label.now }
{
    label.starts_with(b" ") || label.starts_with(b"private")
}

// Appends the characters of a label.
fn push_label_chars(text: &mut String, label: &[u8]) -> Result<(), AllocError>
    ensures { OnOk result (string_bytes text.new ≡ string_bytes text.old ++ label_chars label.now) }
{
    for byte in label {
        text.push(label_char(*byte))?;
    }
    Ok(())
}

// The character of a byte of a label, which has to stay in its line.
fn label_char(byte: u8) -> char
    ensures { result ≡ label_char byte }
{
    if byte == b'\n' {
        '\u{240A}'
    } else {
        char_of(byte)
    }
}
