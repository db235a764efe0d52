// Addresses.
ghost use Rattle.std.specs.Prelude.{◌≡◌, ◌≤◌, IfErr, IfSome, [], length, map, option_copied, option_map};
ghost use Rattle.palm_records.specs.Addresses as addresses;
ghost use Rattle.palm_records.specs.Addresses.{ReadsAddress, ReadsFields, address_in, are_kinds, field_in, fields_at, kinds_of};

use crate::bad_record::BadRecord;
use crate::text::split_string;
use byteorder::{BigEndian, ByteOrder};

/// The length of what stands before the strings.
const HEAD: usize = 9;

/// The place of the bits that say which fields are there.
const BITS: usize = 4;

/// How many fields an address has.
pub const FIELDS: usize = 19;

/// An address, whose texts lie in its record.
#[derive(Clone, Copy)]
pub struct Address<'a> {
    /// The number of the phone that a list shows, from 0.
    pub shown: u8,
    /// What each of the five phones is: 0 work, 1 home, 2 fax, 3 other, 4 e-mail, 5 main, 6 pager, 7 mobile.
    pub kinds: [u8; 5],
    /// Last name, first name, company, phones 1 to 5, address, city, state, zip code, country, title, custom 1 to 4, note.
    pub fields: [Option<&'a [u8]>; FIELDS],
}

// A field, and the bytes behind it.
#[derive(Clone, Copy)]
struct Lent<'a> {
    field: Option<&'a [u8]>,
    rest: &'a [u8],
}

// The fields of an address.
#[derive(Clone, Copy)]
pub(crate) struct Fields<'a> {
    all: [Option<&'a [u8]>; FIELDS],
}

// How many bytes are left from a string on that nothing ends.
#[derive(Clone, Copy)]
pub(crate) struct Unended {
    left: usize,
}

// The next field by the lowest bit of a word.
fn lend_field(bits: u32, bytes: &[u8]) -> Option<Lent<'_>>
    ensures field { option_map (λ lent. (option_copied lent.field, lent.rest.now)) result ≡ field_in bits bytes.now }
    ensures shorter { IfSome result (λ lent. length lent.rest.now ≤ length bytes.now) }
{
    if bits % 2 == 0 {
        return Some(Lent {
            field: None,
            rest: bytes,
        });
    }
    let (string, rest) = split_string(bytes)?;
    Some(Lent {
        field: Some(string),
        rest,
    })
}

// The fields of these bits.
pub(crate) fn read_fields(bits: u32, bytes: &[u8]) -> Result<Fields<'_>, Unended>
    ensures fields { ReadsFields result (fields_at 19 bits [] bytes.now) }
    ensures left { IfErr result (λ unended. unended.left ≤ length bytes.now) }
{
    let mut all = [None; FIELDS];
    let mut bits = bits;
    let mut rest = bytes;
    for number in 0..FIELDS {
        let Some(lent) = lend_field(bits, rest) else {
            return Err(Unended { left: rest.len() });
        };
        all[number] = lent.field;
        rest = lent.rest;
        bits /= 2;
    }
    Ok(Fields { all })
}

// What each of the five phones is.
fn kinds_of(word: u32) -> [u8; 5]
    ensures { result ≡ kinds_of word }
{
    [
        (word % 16) as u8,
        (word / 16 % 16) as u8,
        (word / 256 % 16) as u8,
        (word / 4096 % 16) as u8,
        (word / 65_536 % 16) as u8,
    ]
}

// Whether a phone has one of the eight kinds, if its field is there.
fn is_kind(bit: u32, kind: u32) -> bool
    ensures { result ≡ addresses.is_kind bit kind }
{
    bit % 2 == 0 || kind <= 7
}

// Whether all five do.
fn are_kinds(bits: u32, word: u32) -> bool
    ensures { result ≡ are_kinds bits word }
{
    is_kind(bits / 8, word % 16)
        && is_kind(bits / 16, word / 16 % 16)
        && is_kind(bits / 32, word / 256 % 16)
        && is_kind(bits / 64, word / 4096 % 16)
        && is_kind(bits / 128, word / 65_536 % 16)
}

/// The address of a record's bytes, or the place of the first rule that they break: their length where they are too few,
/// 4 where a bit is set that no field has, where a string begins that no zero byte ends, and 0 where a phone that is there
/// has none of the eight kinds.
pub fn read_address(bytes: &[u8]) -> Result<Address<'_>, BadRecord>
    ensures { ReadsAddress result (address_in bytes.now) }
{
    if bytes.len() < HEAD {
        return Err(BadRecord { place: bytes.len() });
    }
    let bits = BigEndian::read_u32(&bytes[BITS..]);
    if bits >= 524_288 {
        return Err(BadRecord { place: BITS });
    }
    let fields = match read_fields(bits, &bytes[HEAD..]) {
        Ok(fields) => fields,
        Err(unended) => return Err(BadRecord {
            place: bytes.len() - unended.left,
        }),
    };
    let word = BigEndian::read_u32(bytes);
    if !are_kinds(bits, word) {
        return Err(BadRecord { place: 0 });
    }
    Ok(Address {
        shown: (word / 1_048_576 % 16) as u8,
        kinds: kinds_of(word),
        fields: fields.all,
    })
}
