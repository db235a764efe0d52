// Parts of blocks, records and resources.
ghost use Rattle.std.specs.Prelude.{◌≡◌, ◌≤◌, IfOk, drop, length, take};
ghost use Rattle.std.specs.Option.{option_copied};
ghost use Rattle.pdb_values.specs.Blocks.{block_length};
ghost use Rattle.pdb_values.specs.Bounds.{most_bytes};
ghost use Rattle.dlp_commands.specs.Answers.{Finds};
ghost use Rattle.dlp_commands.specs.Readings as table;

use crate::refusal::Refusal;

// The bytes from an offset on, at most so many.
pub(crate) fn part_of(bytes: &[u8], offset: usize, count: usize) -> &[u8]
    requires { offset ≤ length bytes.now }
    ensures { result.now ≡ take count (drop offset bytes.now) }
{
    let rest = &bytes[offset..];
    &rest[..count.min(rest.len())]
}

// The bytes of a block from an offset on, at most so many.
pub(crate) fn block_part(block: Option<&[u8]>, offset: u16, count: u16) -> Result<&[u8], Refusal>
    requires { block_length (option_copied block) ≤ most_bytes }
    ensures part { Finds (λ bytes. bytes.now) result
        (table.block_part (option_copied block.entry) offset count) }
    ensures short { IfOk result (λ bytes. length bytes.now ≤ most_bytes) }
{
    let Some(bytes) = block else {
        return Err(Refusal::NotFound);
    };
    if offset as usize > bytes.len() {
        return Err(Refusal::Parameter);
    }
    Ok(part_of(bytes, offset as usize, count as usize))
}
