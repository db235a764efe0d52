// Stems, read back to the names of databases.
ghost use Rattle.std.specs.Prelude.{◌≡◌, ◌∷◌, ◌<◌, [], IfNone, IfOk, IfSome, length};
ghost use Rattle.pdb_values.specs.Stems.{stem_of};
ghost use Rattle.folder_files.specs.Partings as partings;
ghost use Rattle.folder_files.specs.StemTexts as texts;
ghost use Rattle.folder_files.specs.StemTexts.{name_in, stem_bytes, stem_in};

use crate::parted::Parted;
use arrayvec::ArrayVec;
use pdb_values::DbName;
use std::alloc::{AllocError, Global};
use std::cmp::Ordering;

// The number of a hexadecimal digit.
fn digit_number(digit: u8) -> u8
    ensures number { result ≡ texts.digit_number digit }
    ensures bound { result < 16 }
{
    let number = if digit < 58 {
        digit.saturating_sub(48)
    } else {
        digit - 55
    };
    number % 16
}

// The byte that the front of a text stands for, and what stands behind.
#[tactic(auto, unfolding(crate::specs::StemTexts::stem_bytes))]
fn first_byte(text: &[u8]) -> Option<(u8, &[u8])>
    ensures some { IfSome result (λ first. stem_bytes text.now
        ≡ first.0 ∷ stem_bytes first.1.now) }
    ensures shorter { IfSome result (λ first. length first.1.now < length text.now) }
    ensures none { IfNone result (text.now ≡ []) }
{
    match text {
        [] => None,
        [b'%', high, low, rest @ ..] => {
            let byte = 16 * digit_number(*high) + digit_number(*low);
            Some((byte, rest))
        }
        [byte, rest @ ..] => Some((*byte, rest)),
    }
}

// The name of the bytes that a text stands for.
fn named_by(text: &[u8]) -> Option<DbName>
    ensures { result ≡ name_in (stem_bytes text.now) }
{
    let mut bytes = ArrayVec::<u8, 31>::new();
    let mut rest = text;
    while let Some((byte, behind)) = first_byte(rest) {
        bytes.try_push(byte).ok()?;
        rest = behind;
    }
    DbName::new(bytes.as_slice()).ok()
}

// The name that a text is the stem of.
#[tactic(auto, unfolding(crate::specs::StemTexts::stem_in))]
pub(crate) fn name_of_stem(alloc: Global, text: &[u8]) -> Result<Option<DbName>, AllocError>
    ensures { IfOk result (λ name. name ≡ stem_in text.now) }
{
    let found = named_by(text);
    let Some(name) = found else {
        return Ok(None);
    };
    let stem = name.file_stem(alloc)?;
    if stem.as_bytes() == text {
        Ok(Some(name))
    } else {
        Ok(None)
    }
}

// Whether the stem of a name stands before that of another in byte order.
pub(crate) fn stem_before(alloc: Global, name: &DbName, other: &DbName) -> Result<bool, AllocError>
    ensures { IfOk result (λ before. before ≡ partings.stem_before name.now other.now) }
{
    let stem = name.file_stem(alloc)?;
    let behind = other.file_stem(alloc)?;
    match stem.as_bytes().cmp(behind.as_bytes()) {
        Ordering::Less => Ok(true),
        _ => Ok(false),
    }
}

// Whether the stem of a name stands behind that of the last of these databases.
pub(crate) fn follows(alloc: Global, parted: &[Parted], name: &DbName) -> Result<bool, AllocError>
    ensures { IfOk result (λ follows. follows ≡ partings.follows parted.now name.now) }
{
    match parted.last() {
        Some(last) => stem_before(alloc, &last.name, name),
        None => Ok(true),
    }
}
