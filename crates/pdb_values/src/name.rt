// Names of databases.
ghost use Rattle.std.specs.Prelude.{◌≡◌, ◌==◌, IfOk, position, string_bytes};
ghost use Rattle.std.specs.Result.{result_err};
ghost use Rattle.pdb_values.specs.Names.{IsName, name_fault};
ghost use Rattle.pdb_values.specs.Stems.{stem_of};

use crate::short::short_bytes;
use crate::stem::push_byte;
use arrayvec::ArrayVec;
use std::alloc::{AllocError, Global};
use std::marker::Model;

/// What is wrong with the bytes of a name.
#[derive(Clone, Copy)]
pub enum NameFault {
    /// No byte.
    Empty,
    /// More than 31 bytes.
    TooLong,
    /// The first zero byte, at this place.
    BadByte(usize),
}

/// The name of a database: 1 to 31 bytes, none of them zero.
#[derive(Drop)]
pub struct DbName {
    bytes: ArrayVec<u8, 31>,
}

impl Model for DbName {
    ghost use Rattle.std.specs.Prelude.{ℕ, List};
    ghost use Rattle.pdb_values.specs.Names.{IsName};

    ghost Value = { List ℕ };

    ghost view = { λ name. name.bytes.items };

    ghost invariant = { λ name. IsName name.bytes.items };
}

// The place of the first zero byte.
fn first_zero(bytes: &[u8]) -> Option<usize>
    ensures { result ≡ position (λ byte. byte == 0) bytes.now }
{
    bytes.iter().position(|byte| *byte == 0)
}

impl DbName {
    /// The name of these bytes, or the first rule that they break: `Empty`, `TooLong`, then `BadByte`.
    pub fn new(bytes: &[u8]) -> Result<DbName, NameFault>
        ensures ok { IfOk result (λ name. name ≡ bytes.now) }
        ensures fault { result_err result ≡ name_fault bytes.now }
    {
        if bytes.is_empty() {
            return Err(NameFault::Empty);
        }
        let mut kept = ArrayVec::new();
        if kept.try_extend_from_slice(bytes).is_err() {
            return Err(NameFault::TooLong);
        }
        if let Some(place) = first_zero(bytes) {
            return Err(NameFault::BadByte(place));
        }
        Ok(DbName { bytes: kept })
    }

    /// The bytes of the name.
    pub fn as_bytes(&self) -> &[u8]
        ensures bytes { result.now ≡ self.now }
        ensures name { IsName self.now }
    {
        self.bytes.as_slice()
    }

    /// The same name once more. It takes no memory.
    pub fn copy(&self) -> DbName
        ensures { result ≡ self.now }
    {
        DbName {
            bytes: short_bytes(self.bytes.as_slice()),
        }
    }

    /// The name of the file that the database stands in, without its ending. Letters, digits, `_` and `-` stand for
    /// themselves, each other byte is `%` with two upper-case hexadecimal digits. No two names have one stem.
    pub fn file_stem(&self, alloc: Global) -> Result<String, AllocError>
        ensures { IfOk result (λ stem. string_bytes stem ≡ stem_of self.now) }
    {
        let mut stem = String::new(alloc);
        for byte in self.bytes.as_slice() {
            push_byte(&mut stem, *byte)?;
        }
        Ok(stem)
    }
}
