//! Numbers at places of a file, and at the end of what is written.

ghost use Rattle.std.specs.Prelude.{◌≡◌, ◌+◌, ◌≤◌, ◌<◌, ◌^◌, ◌++◌, OnOk, length};
ghost use Rattle.byteorder.specs.Endian.{big_bytes};
ghost use Rattle.pdb_files.specs.Fields.{code_at, number_at};

use byteorder::{BigEndian, ByteOrder};
use pdb_values::FourCc;
use std::alloc::AllocError;

/// The number in the two bytes from a place on.
#[tactic(auto, unfolding(crate::specs::Fields::number_at))]
pub fn u16_at(bytes: &[u8], place: usize) -> u16
    requires { place + 2 ≤ length bytes.now }
    ensures { result ≡ number_at 2 place bytes.now }
{
    BigEndian::read_u16(&bytes[place..])
}

/// The number in the four bytes from a place on.
#[tactic(auto, unfolding(crate::specs::Fields::number_at))]
pub fn u32_at(bytes: &[u8], place: usize) -> u32
    requires { place + 4 ≤ length bytes.now }
    ensures { result ≡ number_at 4 place bytes.now }
{
    BigEndian::read_u32(&bytes[place..])
}

/// The code of four characters at a place.
#[tactic(auto, unfolding(crate::specs::Fields::code_at))]
pub fn code_at(bytes: &[u8], place: usize) -> FourCc
    requires { place + 4 ≤ length bytes.now }
    ensures { result.0 ≡ code_at place bytes.now }
{
    FourCc([
        bytes[place],
        bytes[place + 1],
        bytes[place + 2],
        bytes[place + 3],
    ])
}

/// Writes a number of two bytes at the end.
pub fn push_u16(out: &mut Vec<u8>, number: u16) -> Result<(), AllocError>
    ensures { OnOk result (out.new.items ≡ out.old.items ++ big_bytes 2 number) }
{
    out.extend_from_slice(&number.to_be_bytes())
}

/// Writes a number of four bytes at the end.
pub fn push_u32(out: &mut Vec<u8>, number: u32) -> Result<(), AllocError>
    ensures { OnOk result (out.new.items ≡ out.old.items ++ big_bytes 4 number) }
{
    out.extend_from_slice(&number.to_be_bytes())
}

/// The number in the three bytes from a place on.
#[tactic(auto, unfolding(crate::specs::Fields::number_at))]
pub fn u24_at(bytes: &[u8], place: usize) -> u32
    requires { place + 3 ≤ length bytes.now }
    ensures number { result ≡ number_at 3 place bytes.now }
    ensures bound { result < 2 ^ 24 }
{
    BigEndian::read_u24(&bytes[place..])
}
