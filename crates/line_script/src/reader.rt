// Reading a script.
ghost use Rattle.std.specs.Prelude.{◌≡◌, IfErr, IfOk, Ok, Err, length, nat_lt};
ghost use Rattle.line_script.specs.Lines.{lines_of};
ghost use Rattle.line_script.specs.Scripts.{IsReading};

use crate::fault::ScriptFault;
use crate::line::{line_in, split_line};
use crate::script::Script;
use std::alloc::Global;

/// How many lines a script has at most.
pub const MOST_LINES: usize = 100_000;

/// Reads a script, which is all of the bytes. `TooLong` comes before `BadLine`.
pub fn read_script(alloc: Global, bytes: &[u8]) -> Result<Script, ScriptFault>
    ensures read { IfOk result (λ script. IsReading bytes.now (Ok script)) }
    ensures refused { IfErr result (λ fault. IsReading bytes.now (Err fault)) }
{
    if has_more_lines(bytes) {
        return Err(ScriptFault::TooLong);
    }
    let mut rules = Vec::new(alloc);
    let mut before = 0;
    let mut rest = bytes;
    while let Some((line, behind)) = split_line(rest) {
        let Some(rule) = line_in(before, line) else {
            return Err(ScriptFault::BadLine(rules.len() as u32 + 1));
        };
        before = rule.number;
        rules.push(rule)?;
        rest = behind;
    }
    Ok(Script::of(rules))
}

// Whether there are more lines than a script has.
fn has_more_lines(bytes: &[u8]) -> bool
    ensures { result ≡ nat_lt 100000 (length (lines_of bytes.now)) }
{
    let mut count = 0;
    let mut rest = bytes;
    while let Some((_, behind)) = split_line(rest) {
        if count == MOST_LINES {
            return true;
        }
        count += 1;
        rest = behind;
    }
    false
}
