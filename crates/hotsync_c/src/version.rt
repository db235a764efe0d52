//! Which version this is.

ghost use Rattle.std.specs.Prelude.{◌≡◌};

/// The version of this library, as 0x00MMmmpp of the numbers in MAJOR.MINOR.PATCH.
#[unsafe(no_mangle)]
pub extern "C" fn hs_version() -> u32
    ensures { result ≡ 2304 }
{
    0x0000_0900
}
