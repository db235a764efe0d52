// Stems of databases.
ghost use Rattle.std.specs.Prelude.{◌≡◌, IfOk, string_bytes, true};
ghost use Rattle.pdb_values.specs.Stems.{stem_of};
ghost use Rattle.content_lines.specs.Properties.{is_plain};

use pdb_values::DbName;
use std::alloc::{AllocError, Global};

/// The stem of a database's name. It has no other characters than those of ASCII.
pub fn plain_stem(alloc: Global, name: &DbName) -> Result<String, AllocError>
    ensures stem { IfOk result (λ stem. string_bytes stem ≡ stem_of name.now) }
    ensures plain { is_plain (stem_of name.now) ≡ true }
{
    stem_is_plain(name.as_bytes());
    name.file_stem(alloc)
}

// So is the stem of any bytes.
fn stem_is_plain(name: &[u8])
    ensures { is_plain (stem_of name.now) ≡ true }
{}
