// The argument at the front of bytes.
ghost use Rattle.std.specs.Prelude.{◌≡◌, ◌+◌, ◌≤◌, ◌<◌, ◌^◌, length, IfOk};
ghost use Rattle.dlp_args.specs.Reading.{short_at, long_at, header_at, argument_at};
ghost use Rattle.dlp_args.specs.Views.{Gives, arg_view, header_view};

use crate::args::Arg;
use crate::fault::ArgFault;

// A header that was found, and the bytes behind it.
#[derive(Clone, Copy)]
struct Found<'a> {
    id: u8,
    size: usize,
    rest: &'a [u8],
}

// A short header, by its first byte and the bytes behind its second one.
#[tactic(auto, unfolding(crate::specs::Reading::short_at))]
fn find_short(place: usize, first: u8, rest: &[u8]) -> Result<Found<'_>, ArgFault>
    requires { 0x80 ≤ first }
    ensures gives { Gives header_view result (short_at place first rest.now) }
    ensures shorter { IfOk result (λ found. length found.rest.now ≤ length rest.now) }
{
    if rest.len() < 2 {
        return Err(ArgFault::Wrapper(place));
    }
    if first < 0xA0 {
        return Err(ArgFault::BadId(place));
    }
    let (size, rest) = rest.split_at(2);
    Ok(Found {
        id: first - 0x80,
        size: u16::from_be_bytes([size[0], size[1]]) as usize,
        rest,
    })
}

// A long header, by its first byte and the bytes behind its second one.
#[tactic(auto, unfolding(crate::specs::Reading::long_at))]
fn find_long(place: usize, first: u8, rest: &[u8]) -> Result<Found<'_>, ArgFault>
    requires first { 0x40 ≤ first }
    requires place { place + length rest.now < 2 ^ 64 }
    ensures gives { Gives header_view result (long_at place first rest.now) }
    ensures shorter { IfOk result (λ found. length found.rest.now ≤ length rest.now) }
{
    if rest.len() < 4 {
        return Err(ArgFault::Wrapper(place));
    }
    if first < 0x60 {
        return Err(ArgFault::BadId(place));
    }
    let (size, rest) = rest.split_at(4);
    let size = u32::from_be_bytes([size[0], size[1], size[2], size[3]]) as usize;
    if size > 65_535 {
        return Err(ArgFault::BadSize(place + 1));
    }
    Ok(Found {
        id: first - 0x40,
        size,
        rest,
    })
}

#[tactic(auto, unfolding(crate::specs::Reading::header_at))]
fn find_header(place: usize, bytes: &[u8]) -> Result<Found<'_>, ArgFault>
    requires { place + length bytes.now < 2 ^ 64 }
    ensures gives { Gives header_view result (header_at place bytes.now) }
    ensures shorter { IfOk result (λ found. length found.rest.now ≤ length bytes.now) }
{
    let [first, second, rest @ ..] = bytes else {
        return Err(ArgFault::Wrapper(place));
    };
    let first = *first;
    if first < 0x20 {
        return Err(ArgFault::BadId(place));
    }
    if first < 0x40 {
        return Ok(Found {
            id: first,
            size: *second as usize,
            rest,
        });
    }
    if first < 0x80 {
        return find_long(place, first, rest);
    }
    if first < 0xC0 {
        return find_short(place, first, rest);
    }
    Err(ArgFault::BadId(place))
}

// The argument at the front, and the bytes behind it.
#[tactic(auto, unfolding(crate::specs::Reading::argument_at))]
pub(crate) fn find_argument(place: usize, bytes: &[u8]) -> Result<(Arg<'_>, &[u8]), ArgFault>
    requires { place + length bytes.now < 2 ^ 64 }
    ensures gives { Gives (λ found. (arg_view found.0, found.1.now)) result
        (argument_at place bytes.now) }
    ensures shorter { IfOk result (λ found. length found.1.now ≤ length bytes.now) }
{
    let found = find_header(place, bytes)?;
    if found.rest.len() < found.size {
        return Err(ArgFault::Wrapper(place));
    }
    let (bytes, rest) = found.rest.split_at(found.size);

    Ok((
        Arg {
            id: found.id,
            bytes,
        },
        rest,
    ))
}
