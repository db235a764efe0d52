//! A fragment and its bytes: its kind, its flags and a size in two bytes, the higher one first, and then
//! a part of a message.
ghost use Rattle.std.specs.Prelude.{◌≡◌, ◌≤◌, IfOk, IfSome, IfNone, true, false};
ghost use Rattle.std.specs.Result.{result_err, IsOkAnd};
ghost use Rattle.padp_link.specs.FragmentText.{FragmentValue, kind_code, is_kind, has_flag, are_flags, fits_first, fits_later, fits_size, IsFragment, fragment_text, FragmentText};
ghost use Rattle.padp_link.specs.FragmentFaults.{kind_said, fragment_fault};
ghost use Rattle.padp_link.specs.FragmentValues.{fragment_value};
ghost use Rattle.padp_link.specs.Pieces.{key_of};
ghost use Rattle.padp_link.specs.Receivers.{goes_on};

use crate::piece::Key;
use arrayvec::ArrayVec;
use byteorder::{BigEndian, ByteOrder};

/// How many bytes stand before the part of the message.
pub const HEADER_LEN: usize = 4;

/// How many bytes of a message a fragment has at most.
pub const MAX_DATA: usize = 1024;

/// How many bytes a fragment has at most.
pub const MAX_FRAGMENT: usize = 1028;

/// The flag of the first fragment of a message, whose size is that of the whole message. The size of
/// another one is the place where it stands in the message.
pub const FIRST: u8 = 0x80;

/// The flag of the last fragment of a message.
pub const LAST: u8 = 0x40;

/// The flag of an acknowledgement by an end that wants memory for the message.
pub const MEMORY_ERROR: u8 = 0x20;

/// The flag of a header with a size in four bytes, which isn't spoken here.
pub const LONG_HEADER: u8 = 0x10;

// The places of the fields in a header.
pub(crate) const KIND: usize = 0;

pub(crate) const FLAGS: usize = 1;

pub(crate) const SIZE: usize = 2;

/// What a fragment is for.
#[derive(Clone, Copy, Debug, PartialEq, Eq)]
pub enum PadpKind {
    /// A part of a message.
    Data,
    /// The acknowledgement of the data fragment with the same flags and size.
    Ack,
    /// A sign of life.
    Tickle,
    /// The end of the connection.
    Abort,
}

/// A fragment, whose part of a message lies in a buffer.
#[derive(Clone, Copy)]
pub struct Fragment<'a> {
    pub kind: PadpKind,
    pub flags: u8,
    pub size: u16,
    pub bytes: &'a [u8],
}

/// Why bytes are no fragment.
#[derive(Clone, Copy, Debug)]
pub enum FragmentFault {
    /// They are too few for a header.
    Short,
    /// Its kind is none of the four.
    BadType,
    /// It bears flags that its kind never bears.
    BadFlags,
    /// Its size, its flags and its length don't fit each other.
    BadSize,
}

impl<'a> Fragment<'a> {
    /// The key of this fragment in a packet of this transaction.
    pub fn key(&self, id: u8) -> Key
        ensures { result ≡ key_of id (fragment_value self.now) }
    {
        Key {
            id,
            flags: self.flags,
            size: self.size,
        }
    }

    /// Whether it bears the flag of a first one.
    pub(crate) fn is_first(&self) -> bool
        ensures { result ≡ has_flag 0x80 self.now.flags }
    {
        self.flags & FIRST != 0
    }

    /// Whether it bears the flag of a last one.
    pub(crate) fn is_last(&self) -> bool
        ensures { result ≡ has_flag 0x40 self.now.flags }
    {
        self.flags & LAST != 0
    }

    /// Whether it goes on where so many bytes of a message of this length were taken.
    pub(crate) fn goes_on(&self, length: usize, taken: usize) -> bool
        requires { taken ≤ length }
        ensures { result ≡ goes_on length taken (fragment_value self.now) }
    {
        let left = length - taken;
        let len = self.bytes.len();
        !self.is_first()
            && usize::from(self.size) == taken
            && len <= left
            && self.is_last() == (len == left)
    }
}

/// The fragment whose text these bytes are, or the first rule that they break.
pub fn read_fragment(body: &[u8]) -> Result<Fragment<'_>, FragmentFault>
    ensures fragment { IfOk result (λ fragment. FragmentText (fragment_value fragment) body.now) }
    ensures only { (fragment : FragmentValue) → FragmentText fragment body.now
        → IsOkAnd result (λ read. fragment_value read ≡ fragment) }
    ensures fault { result_err result ≡ fragment_fault body.now }
{
    read_fields(body)
}

fn read_fields(body: &[u8]) -> Result<Fragment<'_>, FragmentFault>
    ensures fragment { IfOk result (λ fragment. FragmentText (fragment_value fragment) body.now) }
    ensures fault { result_err result ≡ fragment_fault body.now }
{
    if body.len() < HEADER_LEN {
        return Err(FragmentFault::Short);
    }
    let Some(kind) = kind_of(body[KIND]) else {
        return Err(FragmentFault::BadType);
    };
    let flags = body[FLAGS];
    if !may_bear(kind, flags) {
        return Err(FragmentFault::BadFlags);
    }
    let size = BigEndian::read_u16(&body[SIZE..]);
    let bytes = &body[HEADER_LEN..];
    if !size_fits(kind, flags, size, bytes.len()) {
        return Err(FragmentFault::BadSize);
    }
    Ok(Fragment {
        kind,
        flags,
        size,
        bytes,
    })
}

fn kind_of(code: u8) -> Option<PadpKind>
    ensures there { IfSome result (λ kind. (kind_code kind ≡ code) × (is_kind code ≡ true)
        × (kind_said code ≡ kind)) }
    ensures none { IfNone result (is_kind code ≡ false) }
{
    match code {
        1 => Some(PadpKind::Data),
        2 => Some(PadpKind::Ack),
        4 => Some(PadpKind::Tickle),
        8 => Some(PadpKind::Abort),
        _ => None,
    }
}

/// Whether a fragment of this kind may bear these flags.
fn may_bear(kind: PadpKind, flags: u8) -> bool
    ensures { result ≡ are_flags kind flags }
{
    match kind {
        PadpKind::Ack => flags & 0x1F == 0,
        PadpKind::Data | PadpKind::Tickle | PadpKind::Abort => flags & 0x3F == 0,
    }
}

/// Whether a fragment with these fields may have so many bytes of a message.
fn size_fits(kind: PadpKind, flags: u8, size: u16, len: usize) -> bool
    ensures { result ≡ fits_size kind flags size len }
{
    if kind != PadpKind::Data {
        return len == 0;
    }
    let size = usize::from(size);
    let last = flags & LAST != 0;
    if flags & FIRST != 0 {
        first_fits(last, size, len)
    } else {
        later_fits(last, size, len)
    }
}

fn first_fits(last: bool, size: usize, len: usize) -> bool
    ensures { result ≡ fits_first last size len }
{
    len == size.min(MAX_DATA) && last == (size <= MAX_DATA)
}

fn later_fits(last: bool, size: usize, len: usize) -> bool
    ensures { result ≡ fits_later last size len }
{
    let full = if last {
        1 <= len && len <= MAX_DATA
    } else {
        len == MAX_DATA
    };
    size % MAX_DATA == 0 && size != 0 && full
}

/// Replaces `out` by the text of the fragment.
#[tactic(auto, using(crate::proofs::TextLaws::is_short))]
pub fn write_fragment(fragment: &Fragment<'_>, out: &mut ArrayVec<u8, MAX_FRAGMENT>)
    requires { IsFragment (fragment_value fragment.now) }
    ensures bytes { out.new.items ≡ fragment_text (fragment_value fragment.now) }
    ensures text { FragmentText (fragment_value fragment.now) out.new.items }
{
    let size = fragment.size;
    let mut header = [code_of(fragment.kind), fragment.flags, 0, 0];
    BigEndian::write_u16(&mut header[SIZE..], size);
    out.clear();
    let _header_fits = out.try_extend_from_slice(&header).is_ok();
    let _bytes_fit = out.try_extend_from_slice(fragment.bytes).is_ok();
}

fn code_of(kind: PadpKind) -> u8
    ensures { result ≡ kind_code kind }
{
    match kind {
        PadpKind::Data => 1,
        PadpKind::Ack => 2,
        PadpKind::Tickle => 4,
        PadpKind::Abort => 8,
    }
}
