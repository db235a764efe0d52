// The lines of a memo.
ghost use Rattle.std.specs.Prelude.{◌≡◌, ◌++◌, OnOk, string_bytes};
ghost use Rattle.palm_records.specs.Characters.{char_text};
ghost use Rattle.memo_texts.specs.Memos.{IsBytes, guard, guard_behind, lines_from, memo_lines};

use palm_records::char_of;
use std::alloc::AllocError;

/// Appends the lines of a memo.
pub fn push_lines(text: &mut String, memo: &[u8]) -> Result<(), AllocError>
    ensures text { OnOk result (string_bytes text.new
        ≡ string_bytes text.old ++ memo_lines memo.now) }
    ensures memo { IsBytes memo.now }
{
    push_guard(text, memo)?;
    push_from(text, memo)?;
    Ok(())
}

// Appends the rest of a memo, from inside a line.
fn push_from(text: &mut String, memo: &[u8]) -> Result<(), AllocError>
    ensures { OnOk result (string_bytes text.new ≡ string_bytes text.old ++ lines_from memo.now) }
{
    for (place, byte) in memo.iter().enumerate() {
        push_byte(text, *byte, &memo[place + 1..])?;
    }
    text.push_str("\n")?;
    Ok(())
}

// Appends one byte of a memo, and what stands in front of the line that it begins.
fn push_byte(text: &mut String, byte: u8, rest: &[u8]) -> Result<(), AllocError>
    ensures { OnOk result (string_bytes text.new
        ≡ string_bytes text.old ++ (char_text byte ++ guard_behind byte rest.now)) }
{
    text.push(char_of(byte))?;
    if byte == b'\n' {
        push_guard(text, rest)?;
    }
    Ok(())
}

// Appends a dash in front of a line that begins with three.
fn push_guard(text: &mut String, line: &[u8]) -> Result<(), AllocError>
    ensures { OnOk result (string_bytes text.new ≡ string_bytes text.old ++ guard line.now) }
{
    if line.starts_with(b"---") {
        text.push_str("-")?;
    }
    Ok(())
}
