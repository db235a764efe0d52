// The app block and the sort block of a database.
ghost use Rattle.std.specs.Prelude.{◌≡◌, ◌<◌, ◌≤◌, MatchResult, Some};
ghost use Rattle.pdb_values.specs.Blocks.{block_length, block_of};

use crate::content::{Content, TooLarge};

// A block, where it is short enough.
pub fn within_limit(block: Option<Vec<u8>>) -> Result<Option<Vec<u8>>, TooLarge>
    ensures { MatchResult result
        (λ kept. (kept ≡ block) × (block_length (block_of block) ≤ 65500))
        (λ refused. (block ≡ Some refused.0) × (65500 < block_length (block_of block))) }
{
    match block {
        Some(bytes) if bytes.len() > Content::LIMIT => Err(TooLarge(bytes)),
        block => Ok(block),
    }
}
