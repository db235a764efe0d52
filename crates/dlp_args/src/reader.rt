// Reading arguments up to the end of a message.
ghost use Rattle.std.specs.Prelude.{◌≡◌, ◌+◌, ◌<◌, ◌^◌, List, drop, length, IfOk, Ok};
ghost use Rattle.dlp_args.specs.Arguments.{Argument, ArgTexts};
ghost use Rattle.dlp_args.specs.Reading.{arguments_at};

use crate::args::Args;
use crate::argument::find_argument;
use crate::fault::ArgFault;

/// Reads `count` arguments, which stand from `start` to the end of the message. Each of the three forms is taken at any
/// size, and the second byte of a short or long header is not looked at. It takes no memory.
///
/// The arguments are tested in order, each in this one:
/// - `Wrapper` at the first byte of an argument whose header is not there. A header whose first byte has both 0x80 and
///   0x40 counts as two bytes.
/// - `BadId` at a first byte that has both 0x80 and 0x40, or whose other bits are no id from 0x20 to 0x3F.
/// - `BadSize` at the second byte of an argument with a long size above 65,535.
/// - `Wrapper` at the first byte of an argument whose data is not all there.
///
/// Bytes after the last argument are `Wrapper` at the first of them.
pub fn read_args(bytes: &[u8], count: u8, start: usize) -> Result<Args<'_>, ArgFault>
    // What is read is there, up to the end.
    ensures found { IfOk result (λ args. (length args ≡ count)
        × ArgTexts args (drop start bytes.now)) }
    // What is there is read.
    ensures only { (args : List Argument) → length args ≡ count
        → ArgTexts args (drop start bytes.now)
        → result ≡ Ok args }
    // Which rule is the first that is broken.
    ensures exact { result ≡ arguments_at count start (drop start bytes.now) }
{
    take_args(bytes, count, start)
}

fn take_args(bytes: &[u8], count: u8, start: usize) -> Result<Args<'_>, ArgFault>
    ensures { result ≡ arguments_at count start (drop start bytes.now) }
{
    let mut place = start;
    let mut rest = bytes_from(bytes, start);
    let args = Args::of(count, rest);
    for _ in 0..count {
        let (_, after) = find_argument(place, rest)?;
        place += rest.len() - after.len();
        rest = after;
    }
    if !rest.is_empty() {
        return Err(ArgFault::Wrapper(place));
    }
    Ok(args)
}

// The bytes from a place on. Past the end there are none.
fn bytes_from(bytes: &[u8], start: usize) -> &[u8]
    ensures bytes { result.now ≡ drop start bytes.now }
    ensures bound { start + length result.now < 2 ^ 64 }
{
    bytes.get(start..).unwrap_or(&[])
}
