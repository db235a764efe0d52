// The database of a text.
ghost use Rattle.std.specs.Prelude.{◌≡◌, ◌⊎◌, Err, IfErr, IfOk, Ok};
ghost use Rattle.memo_texts.specs.Databases.{import_in};

use crate::database::database_of;
use crate::fault::ImportFault;
use crate::memo_text::memos_in;
use pdb_values::Database;
use std::alloc::Global;

/// The memo database of the memos that a text gives, or why there is none: the first line that is out of its form; then
/// more than 15 labels; then more than 65,535 memos.
pub fn import_memos(alloc: Global, text: &[u8]) -> Result<Database, ImportFault>
    ensures database { IfOk result (λ database. import_in text.now ≡ Ok database) }
    ensures fault { IfErr result (λ fault. (fault ≡ ImportFault.NoMemory)
        ⊎ (import_in text.now ≡ Err fault)) }
{
    let memos = memos_in(alloc, text)?;
    database_of(alloc, &memos)
}
