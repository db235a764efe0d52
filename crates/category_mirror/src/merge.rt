// How the categories of two blocks come together.
ghost use Rattle.std.specs.Prelude.{◌≡◌, ◌<◌, IfOk, drop, slice_index, take};
ghost use Rattle.std.specs.Option.{option_copied};
ghost use Rattle.category_tables.specs.Tables.{IsTable, table_value};
ghost use Rattle.category_tables.specs.Tables as tables;
ghost use Rattle.category_tables.specs.Merges.{merged_table, places_of};
ghost use Rattle.category_mirror.specs.Blocks as blocks;
ghost use Rattle.category_mirror.specs.Refiled as refiled;

use category_tables::{Table, merge, write_table};
use palm_records::until_zero;
use pdb_values::Category;
use std::alloc::{AllocError, Global};
use std::marker::Model;

/// How the categories of one database come together: the table that both sides have then, the number that each of the desktop's numbers
/// has in it, and what stands behind the table in the block of a side that had none.
#[derive(Drop)]
pub struct Merge {
    table: Table,
    numbers: [u8; 16],
    rest: Vec<u8>,
}

impl Model for Merge {
    ghost use Rattle.std.specs.Prelude.{◌<◌, ℕ, slice_index};
    ghost use Rattle.category_tables.specs.Tables.{table_value};
    ghost use Rattle.category_mirror.specs.Blocks.{AreNumbers, MergeValue};

    ghost Value = { MergeValue };

    ghost view = { λ merge. record {
      table = table_value merge.table;
      numbers = merge.numbers;
      rest = merge.rest.items;
    } };

    ghost invariant = { λ merge. AreNumbers merge.numbers };
}

// Whether a category of a table is used: number 0 always is, another one where it has a label.
fn is_used(table: &Table, number: usize) -> bool
    requires { number < 16 }
    ensures { result ≡ tables.is_used (table_value table.now).entries number }
{
    number == 0 || !until_zero(&table.entries[number].label).is_empty()
}

impl Merge {
    /// The merge of two tables, with what stands behind the table of a side that had no block.
    pub fn of(handheld: &Table, desktop: &Table, rest: Vec<u8>) -> Merge
        requires handheld { IsTable (table_value handheld.now) }
        requires desktop { IsTable (table_value desktop.now) }
        ensures { result ≡ record {
          table = merged_table (table_value handheld.now) (table_value desktop.now);
          numbers = places_of (table_value handheld.now) (table_value desktop.now);
          rest = rest.items;
        } }
    {
        let (table, numbers) = merge(handheld, desktop);
        Merge {
            table,
            numbers,
            rest,
        }
    }

    /// The number that a category of the desktop's has in the merged table.
    pub fn category_of(&self, category: Category) -> Category
        ensures { result ≡ slice_index self.now.numbers category }
    {
        let Some(found) = Category::new(self.numbers[category.number() as usize]) else {
            unreachable!();
        };
        found
    }

    /// How many categories of the merged table are used.
    pub fn used_count(&self) -> u32
        ensures { result ≡ refiled.used_count self.now.table }
    {
        let mut count = 0;
        for number in 0..16 {
            if is_used(&self.table, number) {
                count += 1;
            }
        }
        count
    }

    /// Whether a block has the merged table at its head.
    pub fn begins(&self, alloc: Global, block: &[u8]) -> Result<bool, AllocError>
        ensures { IfOk result (λ begins. begins ≡ blocks.begins_with self.now.table block.now) }
    {
        let mut text = Vec::new(alloc);
        write_table(&self.table, &mut text)?;
        Ok(head_of(block) == text.as_slice())
    }

    // What stands behind the table in a side's block then.
    fn rest_for<'m>(&'m self, block: Option<&'m [u8]>) -> &'m [u8]
        ensures { result.now ≡ blocks.rest_for self.now (option_copied block.entry) }
    {
        match block {
            Some(bytes) => rest_of(bytes),
            None => &self.rest,
        }
    }

    /// A side's block then: the merged table, and behind it what stood there, or what stands there on the other side where it had none.
    pub fn block(&self, alloc: Global, block: Option<&[u8]>) -> Result<Vec<u8>, AllocError>
        ensures { IfOk result (λ merged. merged.items
            ≡ blocks.side_block self.now (option_copied block.entry)) }
    {
        let mut merged = Vec::new(alloc);
        write_table(&self.table, &mut merged)?;
        merged.extend_from_slice(self.rest_for(block))?;
        Ok(merged)
    }
}

// The first 276 bytes of a block.
pub(crate) fn head_of(block: &[u8]) -> &[u8]
    ensures { result.now ≡ take 276 block.now }
{
    if block.len() < 276 {
        block
    } else {
        &block[..276]
    }
}

// What stands behind the first 276 bytes of a block.
pub(crate) fn rest_of(block: &[u8]) -> &[u8]
    ensures { result.now ≡ drop 276 block.now }
{
    if block.len() < 276 {
        &[]
    } else {
        &block[276..]
    }
}
