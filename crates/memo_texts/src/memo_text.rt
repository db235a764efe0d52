// The memos of a text.
ghost use Rattle.std.specs.Prelude.{◌≡◌, ◌⊎◌, Err, IfErr, IfOk, Ok};
ghost use Rattle.memo_texts.specs.Readings.{memos_in};

use crate::fault::ImportFault;
use crate::line::{split_line, without_mark};
use crate::memo::Memo;
use crate::reading::Reading;
use std::alloc::Global;

/// The memos of a text, or its first line that is out of its form, with its number and its flaw.
pub fn memos_in(alloc: Global, text: &[u8]) -> Result<Vec<Memo>, ImportFault>
    ensures memos { IfOk result (λ memos. memos_in text.now ≡ Ok memos.items) }
    ensures fault { IfErr result (λ fault. (fault ≡ ImportFault.NoMemory)
        ⊎ (memos_in text.now ≡ Err fault)) }
{
    let mut reading = Reading::new(alloc);
    let mut rest = without_mark(text);
    let mut number = 0;
    while !rest.is_empty() {
        let (line, behind) = split_line(rest);
        number += 1;
        reading = match reading.with_line(alloc, line) {
            Ok(longer) => longer,
            Err(fault) => return Err(fault.at(number)),
        };
        rest = behind;
    }
    let memos = reading.memos()?;
    Ok(memos)
}
