// Strings in records.
ghost use Rattle.std.specs.Prelude.{◌≡◌, ◌≤◌, IfNone, IfSome, None, length, Some};
ghost use Rattle.palm_records.specs.Strings.{behind_string, first_zero, until_zero};

// The place of the first zero byte.
fn first_zero(bytes: &[u8]) -> Option<usize>
    ensures { result ≡ first_zero bytes.now }
{
    bytes.iter().position(|byte| *byte == 0)
}

/// The bytes before the first zero byte, or all where none is there. So is a memo's text in its record.
pub fn until_zero(bytes: &[u8]) -> &[u8]
    ensures { result.now ≡ until_zero bytes.now }
{
    match first_zero(bytes) {
        Some(place) => &bytes[..place],
        None => bytes,
    }
}

// The string at the head of these bytes, which a zero byte ends, and the bytes behind that, if there is a zero byte.
pub fn split_string(bytes: &[u8]) -> Option<(&[u8], &[u8])>
    ensures string { IfSome result (λ parts. parts.0.now ≡ until_zero bytes.now) }
    ensures rest { IfSome result (λ parts. parts.1.now ≡ behind_string bytes.now) }
    ensures place { IfSome result (λ parts. first_zero bytes.now ≡ Some (length parts.0.now)) }
    ensures shorter { IfSome result (λ parts. length parts.1.now ≤ length bytes.now) }
    ensures none { IfNone result (first_zero bytes.now ≡ None) }
{
    let place = first_zero(bytes)?;
    Some((&bytes[..place], &bytes[place + 1..]))
}
