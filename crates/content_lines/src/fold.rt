// A line in physical lines.
ghost use Rattle.std.specs.Prelude.{◌≡◌, ◌≤◌, ◌++◌, ◌∷◌, IfOk, List, OnOk, chars, encode_utf8_all, string_bytes, ℕ};
ghost use Rattle.content_lines.specs.Lines.{folded};

use std::alloc::AllocError;

/// Appends a line in physical lines of at most 75 octets, each ended by CR LF and the later ones begun by a space.
pub fn push_line(text: &mut String, line: &str) -> Result<(), AllocError>
    ensures { OnOk result (string_bytes text.new
        ≡ string_bytes text.old ++ encode_utf8_all (folded 0 (chars line.now))) }
{
    let mut used = 0;
    for ch in line.chars() {
        used = push_char(text, used, ch)?;
    }
    text.push_str("\r\n")?;
    Ok(())
}

// Appends one more character of a line, and answers how many octets of its physical line are used then.
fn push_char(text: &mut String, used: usize, ch: char) -> Result<usize, AllocError>
    requires { used ≤ 75 }
    ensures room { IfOk result (λ now. now ≤ 75) }
    ensures text { IfOk result (λ now. (cs : List ℕ) → string_bytes text.new ++ encode_utf8_all (folded now cs)
        ≡ string_bytes text.old ++ encode_utf8_all (folded used (ch ∷ cs))) }
{
    let width = ch.len_utf8();
    if 75 < used + width {
        text.push_str("\r\n ")?;
        text.push(ch)?;
        return Ok(1 + width);
    }
    text.push(ch)?;
    Ok(used + width)
}
