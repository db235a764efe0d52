// The words of a fate.
ghost use Rattle.std.specs.Prelude.{◌≡◌};
ghost use Rattle.std.specs.Option.{option_map};
ghost use Rattle.trace_text.specs.Fates.{fate_value};
ghost use Rattle.line_script.specs.Fates as fates;

use crate::word::{bytes_in, short_in, split_at_space};
use trace_text::Fate;

// The fate that words are.
pub(crate) fn fate_in(words: &[u8]) -> Option<Fate>
    ensures { option_map fate_value result ≡ fates.fate_in words.now }
{
    if words == b"lost".as_slice() {
        Some(Fate::Lost)
    } else if words == b"late".as_slice() {
        Some(Fate::Late)
    } else if words == b"unplug".as_slice() {
        Some(Fate::Unplug)
    } else if words == b"abort".as_slice() {
        Some(Fate::Abort)
    } else {
        harm_in(words)
    }
}

// The fate that has a number or bytes.
fn harm_in(words: &[u8]) -> Option<Fate>
    ensures { option_map fate_value result ≡ fates.harm_in words.now }
{
    if words.starts_with(b"cut ") {
        cut_in(&words[4..])
    } else if words.starts_with(b"hit ") {
        hit_in(&words[4..])
    } else if words.starts_with(b"noise ") {
        noise_in(&words[6..])
    } else {
        None
    }
}

fn cut_in(word: &[u8]) -> Option<Fate>
    ensures { option_map fate_value result ≡ fates.cut_in word.now }
{
    let count = short_in(word)?;
    Some(Fate::Cut(count))
}

fn hit_in(words: &[u8]) -> Option<Fate>
    ensures { option_map fate_value result ≡ fates.hit_in words.now }
{
    let (place, bytes) = split_at_space(words)?;
    let place = short_in(place)?;
    let bytes = bytes_in::<8>(bytes)?;
    if bytes.first().copied().unwrap_or(0) == 0 {
        return None;
    }
    Some(Fate::Hit(place, bytes))
}

fn noise_in(word: &[u8]) -> Option<Fate>
    ensures { option_map fate_value result ≡ fates.noise_in word.now }
{
    let bytes = bytes_in::<1040>(word)?;
    Some(Fate::Noise(bytes))
}
