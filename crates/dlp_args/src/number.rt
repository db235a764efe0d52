// Cells of a fixed length, taken from the front of bytes.
ghost use Rattle.std.specs.Prelude.{◌≡◌};
ghost use Rattle.std.specs.Int.{w8, w16, w32};
ghost use Rattle.std.specs.Option.{option_map};
ghost use Rattle.dlp_args.specs.CellReading.{number_at, some_at};

/// A byte and the bytes behind it, or None where there is none.
#[tactic(auto, unfolding(crate::specs::CellReading::number_at))]
pub fn take_u8(bytes: &[u8]) -> Option<(u8, &[u8])>
    ensures { option_map (λ found. (found.0, found.1.now)) result ≡ number_at w8 bytes.now }
{
    let [first, rest @ ..] = bytes else {
        return None;
    };
    Some((*first, rest))
}

/// A number of two bytes and the bytes behind it, or None where there are fewer.
#[tactic(auto, unfolding(crate::specs::CellReading::number_at))]
pub fn take_u16(bytes: &[u8]) -> Option<(u16, &[u8])>
    ensures { option_map (λ found. (found.0, found.1.now)) result ≡ number_at w16 bytes.now }
{
    if bytes.len() < 2 {
        return None;
    }
    let (front, rest) = bytes.split_at(2);
    Some((u16::from_be_bytes([front[0], front[1]]), rest))
}

/// A number of four bytes and the bytes behind it, or None where there are fewer.
#[tactic(auto, unfolding(crate::specs::CellReading::number_at))]
pub fn take_u32(bytes: &[u8]) -> Option<(u32, &[u8])>
    ensures { option_map (λ found. (found.0, found.1.now)) result ≡ number_at w32 bytes.now }
{
    if bytes.len() < 4 {
        return None;
    }
    let (front, rest) = bytes.split_at(4);
    let number = u32::from_be_bytes([front[0], front[1], front[2], front[3]]);
    Some((number, rest))
}

/// Four bytes and the bytes behind them, or None where there are fewer.
#[tactic(auto, unfolding(crate::specs::CellReading::some_at))]
pub fn take_4(bytes: &[u8]) -> Option<([u8; 4], &[u8])>
    ensures { option_map (λ found. (found.0, found.1.now)) result ≡ some_at 4 bytes.now }
{
    let [a, b, c, d, rest @ ..] = bytes else {
        return None;
    };
    Some(([*a, *b, *c, *d], rest))
}

/// Eight bytes and the bytes behind them, or None where there are fewer.
#[tactic(auto, unfolding(crate::specs::CellReading::some_at))]
pub fn take_8(bytes: &[u8]) -> Option<([u8; 8], &[u8])>
    ensures { option_map (λ found. (found.0, found.1.now)) result ≡ some_at 8 bytes.now }
{
    let [a, b, c, d, e, f, g, h, rest @ ..] = bytes else {
        return None;
    };
    Some(([*a, *b, *c, *d, *e, *f, *g, *h], rest))
}
