// Data up to the end, and the end.
ghost use Rattle.std.specs.Prelude.{◌≡◌, ◌==◌, length, Some, None, if◌then◌else◌};
ghost use Rattle.std.specs.Option.{option_map};
ghost use Rattle.dlp_args.specs.CellReading.{counted_in, at_most_65500};

use crate::number::take_u16;

/// The bytes, where they are at most 65,500.
pub fn rest_of(bytes: &[u8]) -> Option<&[u8]>
    ensures { option_map (λ rest. rest.now) result ≡ at_most_65500 bytes.now }
{
    if bytes.len() > 65_500 {
        return None;
    }
    Some(bytes)
}

/// At most 65,500 bytes behind their number, two bytes, or None where the number is another.
#[tactic(auto, unfolding(crate::specs::CellReading::counted_in))]
pub fn counted_of(bytes: &[u8]) -> Option<&[u8]>
    ensures { option_map (λ rest. rest.now) result ≡ counted_in bytes.now }
{
    let (size, rest) = take_u16(bytes)?;
    if size as usize != rest.len() {
        return None;
    }
    rest_of(rest)
}

/// `Some` where no byte is left.
pub fn end_of(bytes: &[u8]) -> Option<()>
    ensures { result ≡ (if length bytes.now == 0 then Some tt else None) }
{
    if bytes.is_empty() { Some(()) } else { None }
}
