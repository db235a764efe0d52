// The line of a text of memos that is out of its form.
ghost use Rattle.std.specs.Prelude.{◌≡◌, IfOk, string_bytes};
ghost use Rattle.cmd_status.specs.FlawLines.{flaw_line as line_of_flaw, flaw_text as text_of_flaw};

use memo_texts::{Flaw, LineFlaw};
use std::alloc::{AllocError, Global};
use std::fmt::Write;

/// The line of the line of a text that has this number and this flaw.
#[tactic(auto, unfolding(crate::specs::FlawLines::flaw_line))]
pub(crate) fn flaw_line(alloc: Global, number: u64, flaw: LineFlaw) -> Result<String, AllocError>
    ensures { IfOk result (λ line. string_bytes line ≡ line_of_flaw number flaw) }
{
    let cause = flaw_text(alloc, flaw.flaw)?;
    let column = flaw.column;
    let mut line = String::from_str(alloc, "bad text line ")?;
    write!(line, "{number} column {column}: ")?;
    line.push_str(cause.as_str())?;
    line.push_str("\n")?;
    Ok(line)
}

// What is wrong.
fn flaw_text(alloc: Global, flaw: Flaw) -> Result<String, AllocError>
    ensures { IfOk result (λ text. string_bytes text ≡ text_of_flaw flaw) }
{
    match flaw {
        Flaw::NotUtf8 => String::from_str(alloc, "not UTF-8"),
        Flaw::NoByte(character) => missing_text(alloc, character),
        Flaw::BadHead => String::from_str(alloc, "bad head line"),
        Flaw::LongLabel => String::from_str(alloc, "label too long"),
        Flaw::NoHead => String::from_str(alloc, "no head line above it"),
        Flaw::LongMemo => String::from_str(alloc, "memo too long"),
    }
}

// What is wrong with a character of which a Palm has none.
fn missing_text(alloc: Global, character: char) -> Result<String, AllocError>
    ensures { IfOk result (λ text. string_bytes text ≡ text_of_flaw (Flaw.NoByte character)) }
{
    let bytes = u32::from(character).to_be_bytes();
    let digits = hex::encode_upper(alloc, &bytes[1..])?;
    let mut text = String::from_str(alloc, "no byte for U+")?;
    text.push_str(digits.as_str())?;
    Ok(text)
}
