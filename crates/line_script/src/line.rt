// A line of a script.
ghost use Rattle.std.specs.Prelude.{◌≡◌, ◌∷◌, ◌<◌, [], IfNone, IfSome, length};
ghost use Rattle.std.specs.Option.{option_map};
ghost use Rattle.line_script.specs.Rules.{rule_value};
ghost use Rattle.line_script.specs.Lines.{lines_of};
ghost use Rattle.line_script.specs.Fates.{line_in as line_by};

use crate::fate::fate_in;
use crate::script::Rule;
use crate::word::{number_in, place_of, split_at_space};

// The line at the front, without its end, and what stands behind it.
pub(crate) fn split_line(bytes: &[u8]) -> Option<(&[u8], &[u8])>
    ensures none { IfNone result (bytes.now ≡ []) }
    ensures line { IfSome result (λ parts. lines_of bytes.now
        ≡ parts.0.now ∷ lines_of parts.1.now) }
    ensures shorter { IfSome result (λ parts. length parts.1.now < length bytes.now) }
{
    if bytes.is_empty() {
        return None;
    }
    match place_of(b'\n', bytes) {
        Some(end) => Some((&bytes[..end], &bytes[end + 1..])),
        None => Some((bytes, &bytes[bytes.len()..])),
    }
}

// What a line says, where the line before it named this frame.
#[tactic(auto, unfolding(crate::specs::Fates::line_in))]
pub(crate) fn line_in(before: u32, line: &[u8]) -> Option<Rule>
    ensures { option_map rule_value result ≡ line_by before line.now }
{
    let (number, words) = split_at_space(line)?;
    let number = number_in(number)?;
    let fate = fate_in(words)?;
    if number <= before {
        return None;
    }
    Some(Rule { number, fate })
}
