//! The pieces of a message and their keys.
ghost use Rattle.std.specs.Prelude.{◌≡◌, ◌<◌};
ghost use Rattle.padp_link.specs.Pieces.{piece_count, piece_flags, piece_size, piece_of};

use crate::fragment::{FIRST, LAST, MAX_DATA};

/// What tells the fragments of an end from each other: the transaction, the flags and the size. An
/// acknowledgement bears the key of its fragment.
#[derive(Clone, Copy, PartialEq, Eq)]
pub struct Key {
    pub id: u8,
    pub flags: u8,
    pub size: u16,
}

/// A piece of a message: its key, the place where it begins and how many bytes it has.
#[derive(Clone, Copy)]
pub struct Piece {
    pub key: Key,
    pub place: u16,
    pub length: u16,
}

/// How many pieces a message of this length has.
pub(crate) fn piece_count(length: u16) -> u8
    ensures { result ≡ piece_count length }
{
    usize::from(length).div_ceil(MAX_DATA).max(1) as u8
}

/// The piece of this number, from 0 on.
pub(crate) fn piece_at(id: u8, length: u16, number: u8) -> Piece
    requires { number < piece_count length }
    ensures { result ≡ piece_of id length number }
{
    let place = usize::from(number) * MAX_DATA;
    let rest = usize::from(length) - place;
    Piece {
        key: Key {
            id,
            flags: flags_at(length, number),
            size: if number == 0 { length } else { place as u16 },
        },
        place: place as u16,
        length: rest.min(MAX_DATA) as u16,
    }
}

fn flags_at(length: u16, number: u8) -> u8
    requires { number < piece_count length }
    ensures { result ≡ piece_flags length number }
{
    let first = if number == 0 { FIRST } else { 0 };
    let last = if number + 1 == piece_count(length) {
        LAST
    } else {
        0
    };
    first + last
}
