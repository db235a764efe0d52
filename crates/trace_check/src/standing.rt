// Where an end stands in its messages.
ghost use Rattle.std.specs.Prelude.{◌≡◌, ◌↔◌, ◌+◌, ◌-◌, ◌*◌, ◌<◌, min, IsTrue, length};
ghost use Rattle.padp_link.specs.Neighbours.{session_id as id_of_message};
ghost use Rattle.padp_link.specs.Pieces.{piece_count as count_of_pieces, piece_flags, piece_size};
ghost use Rattle.trace_check.specs.Messages.{IsGreeting};
ghost use Rattle.trace_check.specs.Standings.{GoesOnBy, GreetsBy, IsPiece, MaySay, next, start, wholes_at, part_with};

use cmp_hello::{HelloKind, read_hello};
use padp_link::{FIRST, Key, LAST, MAX_DATA};

// Where an end stands in its messages.
#[derive(Clone, Copy)]
pub(crate) struct Standing {
    // How many messages it began.
    pub(crate) begun: u32,
    // The size of the last one of them.
    pub(crate) size: u16,
    // How many parts of that one are still to come.
    pub(crate) wanted: u8,
}

impl Standing {
    pub(crate) fn new() -> Standing
        ensures { result ≡ start }
    {
        Standing {
            begun: 0,
            size: 0,
            wanted: 0,
        }
    }

    // Whether a part of this key and with these bytes may be said here.
    pub(crate) fn may_say(&self, greeting: HelloKind, key: Key, bytes: &[u8]) -> bool
        ensures { IsTrue result ↔ MaySay greeting self.now
            (part_with key bytes.now) }
    {
        self.goes_on(key, bytes) && self.greets(greeting, key, bytes)
    }

    fn goes_on(&self, key: Key, bytes: &[u8]) -> bool
        ensures { IsTrue result ↔ GoesOnBy self.now.wanted self.now
            (part_with key bytes.now) }
    {
        if self.wanted == 0 {
            return is_piece(session_id(self.begun), key.size, 0, key, bytes);
        }
        let number = piece_count(self.size).saturating_sub(self.wanted);
        is_piece(
            session_id(self.begun.saturating_sub(1)),
            self.size,
            number,
            key,
            bytes,
        )
    }

    // Whether the first message, where it ends with this part, is a greeting of this kind.
    fn greets(&self, greeting: HelloKind, key: Key, bytes: &[u8]) -> bool
        ensures { IsTrue result ↔ GreetsBy greeting self.now.begun self.now.wanted
            (part_with key bytes.now) }
    {
        match (self.begun, self.wanted) {
            (0, _) => piece_count(key.size) > 1 || is_greeting(greeting, bytes),
            (1, 1) => false,
            _ => true,
        }
    }

    // Goes on behind a part of this size.
    pub(crate) fn add(&mut self, key: Key, bytes: &[u8])
        requires { self.old.begun < 4294967295 }
        ensures { self.new ≡ next self.old (part_with key bytes.now) }
    {
        if self.wanted == 0 {
            self.begun += 1;
            self.size = key.size;
            self.wanted = piece_count(key.size) - 1;
        } else {
            self.wanted -= 1;
        }
    }

    // How many whole messages were said.
    pub(crate) fn wholes(&self) -> u32
        ensures { result ≡ wholes_at self.now }
    {
        if self.wanted == 0 {
            self.begun
        } else {
            self.begun.saturating_sub(1)
        }
    }
}

// Whether this is the piece of this number of a message of this size.
fn is_piece(id: u8, size: u16, number: u8, key: Key, bytes: &[u8]) -> bool
    ensures { IsTrue result ↔ IsPiece id size number (part_with key bytes.now) }
{
    key.id == id
        && key.flags == flags_at(size, number)
        && usize::from(key.size) == size_at(size, number)
        && bytes.len() == length_at(size, number)
}

fn flags_at(size: u16, number: u8) -> u8
    ensures { result ≡ piece_flags size number }
{
    let first = if number == 0 { FIRST } else { 0 };
    let last = if usize::from(number) + 1 == usize::from(piece_count(size)) {
        LAST
    } else {
        0
    };
    first + last
}

fn size_at(size: u16, number: u8) -> usize
    ensures { result ≡ piece_size size number }
{
    if number == 0 {
        usize::from(size)
    } else {
        MAX_DATA * usize::from(number)
    }
}

fn length_at(size: u16, number: u8) -> usize
    ensures { result ≡ min (size - 1024 * number) 1024 }
{
    usize::from(size)
        .saturating_sub(MAX_DATA * usize::from(number))
        .min(MAX_DATA)
}

// How many pieces a message of this size has.
fn piece_count(size: u16) -> u8
    ensures { result ≡ count_of_pieces size }
{
    usize::from(size).div_ceil(MAX_DATA).max(1) as u8
}

// The transaction of an end's message of this number.
fn session_id(number: u32) -> u8
    ensures { result ≡ id_of_message number }
{
    match number {
        0 => 0xFF,
        _ => ((number - 1) % 253 + 1) as u8,
    }
}

fn is_greeting(kind: HelloKind, bytes: &[u8]) -> bool
    ensures { IsTrue result ↔ IsGreeting kind bytes.now }
{
    match read_hello(bytes) {
        Ok(hello) => is_same(hello.kind, kind),
        Err(_) => false,
    }
}

fn is_same(kind: HelloKind, other: HelloKind) -> bool
    ensures { IsTrue result ↔ (kind ≡ other) }
{
    matches!(
        (kind, other),
        (HelloKind::Wake, HelloKind::Wake)
            | (HelloKind::Init, HelloKind::Init)
            | (HelloKind::Abort, HelloKind::Abort)
    )
}
