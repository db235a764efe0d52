//! A greeting and its bytes: its kind, its flags, the major and the minor version of the protocol, two
//! bytes that bear nothing, and a rate in four bytes. Numbers have their higher byte first.
ghost use Rattle.std.specs.Prelude.{◌≡◌, IfOk, IfSome, IfNone, Ok, false, [], ◌∷◌};
ghost use Rattle.std.specs.Result.{result_err};
ghost use Rattle.cmp_hello.specs.HelloText.{kind_code, hello_bytes, HelloText};
ghost use Rattle.cmp_hello.specs.HelloFaults.{is_kind, hello_fault};

use byteorder::{BigEndian, ByteOrder};

/// How many bytes a greeting has.
pub const HELLO_LEN: usize = 10;

/// The major version of the protocol that is spoken.
pub const MAJOR_VERSION: u8 = 1;

// The places of the fields.
pub(crate) const KIND: usize = 0;

pub(crate) const FLAGS: usize = 1;

pub(crate) const MAJOR: usize = 2;

pub(crate) const MINOR: usize = 3;

pub(crate) const RATE: usize = 6;

/// What a greeting is for.
#[derive(Clone, Copy, Debug)]
pub enum HelloKind {
    /// The handheld asks for a session.
    Wake,
    /// The desktop begins it.
    Init,
    /// The desktop refuses it.
    Abort,
}

/// A greeting.
#[derive(Clone, Copy)]
pub struct Hello {
    pub kind: HelloKind,
    /// 0x80: the rate changes to `rate` behind this greeting.
    pub flags: u8,
    /// The minor version of the protocol.
    pub minor: u8,
    /// Bits per second.
    pub rate: u32,
}

/// Why bytes are no greeting.
#[derive(Clone, Copy, Debug)]
pub enum HelloFault {
    /// They aren't ten.
    Length,
    /// Its kind is none of the three.
    Kind,
    /// Its major version isn't 1.
    Version,
}

/// The greeting that these bytes are, or the first rule that they break. The two bytes before the rate
/// may be anything.
pub fn read_hello(bytes: &[u8]) -> Result<Hello, HelloFault>
    ensures hello { IfOk result (λ hello. HelloText hello bytes.now) }
    ensures only { (hello : Hello) → HelloText hello bytes.now → result ≡ Ok hello }
    ensures fault { result_err result ≡ hello_fault bytes.now }
{
    read_fields(bytes)
}

fn read_fields(bytes: &[u8]) -> Result<Hello, HelloFault>
    ensures hello { IfOk result (λ hello. HelloText hello bytes.now) }
    ensures fault { result_err result ≡ hello_fault bytes.now }
{
    if bytes.len() != HELLO_LEN {
        return Err(HelloFault::Length);
    }
    let Some(kind) = kind_of(bytes[KIND]) else {
        return Err(HelloFault::Kind);
    };
    if bytes[MAJOR] != MAJOR_VERSION {
        return Err(HelloFault::Version);
    }
    Ok(Hello {
        kind,
        flags: bytes[FLAGS],
        minor: bytes[MINOR],
        rate: BigEndian::read_u32(&bytes[RATE..]),
    })
}

fn kind_of(code: u8) -> Option<HelloKind>
    ensures there { IfSome result (λ kind. kind_code kind ≡ code) }
    ensures none { IfNone result (is_kind code ≡ false) }
{
    match code {
        1 => Some(HelloKind::Wake),
        2 => Some(HelloKind::Init),
        3 => Some(HelloKind::Abort),
        _ => None,
    }
}

/// The bytes of a greeting, with zeros before the rate.
pub fn write_hello(hello: &Hello) -> [u8; HELLO_LEN]
    ensures bytes { result ≡ hello_bytes hello.now (0 ∷ 0 ∷ []) }
    ensures text { HelloText hello.now result }
{
    let rate = hello.rate;
    let mut bytes = [0; HELLO_LEN];
    bytes[KIND] = code_of(hello.kind);
    bytes[FLAGS] = hello.flags;
    bytes[MAJOR] = MAJOR_VERSION;
    bytes[MINOR] = hello.minor;
    BigEndian::write_u32(&mut bytes[RATE..], rate);
    bytes
}

fn code_of(kind: HelloKind) -> u8
    ensures { result ≡ kind_code kind }
{
    match kind {
        HelloKind::Wake => 1,
        HelloKind::Init => 2,
        HelloKind::Abort => 3,
    }
}
