// What holds of merged tables, and of a database in the categories of another file.
ghost use Rattle.std.specs.Prelude.{◌≡◌, ◌<◌, All, List, Some, slice_index, take, true, ℕ};
ghost use Rattle.category_tables.specs.Tables.{AreTables, IsTable, TableValue, UsesNumber, entry_at, is_used};
ghost use Rattle.category_tables.specs.Likes.{AreKnown, block_like, liking};
ghost use Rattle.category_tables.specs.Merges.{StaysOwn, goes_to, merged_table, of_label, own_place, places_of};
ghost use Rattle.category_tables.specs.Texts.{AreFilled, HasText, HoldsTable, table_in, table_text};
ghost use Rattle.category_tables.specs.Swaps.{AreSwapped, swapped};

/// The merge of two tables is a table, and each of the desktop's numbers goes to one that is used in it.
pub fn a_merged_table_is_a_table()
    ensures table { (handheld desktop : TableValue) → IsTable handheld → IsTable desktop
        → IsTable (merged_table handheld desktop) }
    ensures places { (handheld desktop : TableValue) (number : ℕ) → IsTable handheld → IsTable desktop
        → number < 16
        → is_used (merged_table handheld desktop).entries (goes_to handheld desktop number)
        ≡ true }
{}

/// A table that was merged with a desktop's is left as it is by that one, and each number goes where it went.
pub fn a_table_is_merged_once()
    ensures table { (handheld desktop : TableValue) → IsTable handheld → IsTable desktop
        → merged_table (merged_table handheld desktop) desktop ≡ merged_table handheld desktop }
    ensures places { (handheld desktop : TableValue) → IsTable handheld → IsTable desktop
        → places_of (merged_table handheld desktop) desktop ≡ places_of handheld desktop }
{}

/// A merged table is left as it is by itself, and each number that is used in it stays.
pub fn a_merged_table_stays()
    ensures table { (handheld desktop : TableValue) → IsTable handheld → IsTable desktop
        → merged_table (merged_table handheld desktop) (merged_table handheld desktop)
        ≡ merged_table handheld desktop }
    ensures places { (handheld desktop : TableValue) (number : ℕ) → AreTables handheld desktop
        → number < 16 → StaysOwn (merged_table handheld desktop) number }
{}

/// A number of the desktop's goes where the handheld has its id. So two numbers that were exchanged are exchanged back.
pub fn a_number_goes_where_its_id_is()
    ensures known { (handheld desktop : TableValue) (number place : ℕ)
        → AreTables handheld desktop → UsesNumber desktop number
        → own_place handheld desktop number ≡ Some place
        → goes_to handheld desktop number ≡ place }
    ensures swapped { (handheld desktop : TableValue) (i j number : ℕ)
        → AreSwapped i j handheld desktop → UsesNumber desktop number
        → goes_to handheld desktop number ≡ swapped i j number }
{}

/// The text of a table is read as that table.
pub fn a_table_is_read_again()
    ensures holds { (table : TableValue) → HasText table → HoldsTable (table_text table) }
    ensures table { (table : TableValue) → HasText table → table_in (table_text table) ≡ table }
{}

/// The table at the head of an app block is written as the bytes that it was read from, but for the last one, which is not
/// looked at. What stands behind the end of a label is to be zero bytes.
pub fn a_table_is_written_again()
    ensures { (bytes : List ℕ) → All (λ byte. byte < 256) bytes → HoldsTable bytes → AreFilled bytes
        → take 275 (table_text (table_in bytes)) ≡ take 275 bytes }
{}

/// A label that the other table has goes to the least number that has it there.
pub fn labels_keep_their_numbers()
    ensures { (other made : TableValue) (number place : ℕ) → IsTable other → UsesNumber made number
        → of_label other.entries (entry_at made.entries number).label ≡ Some place
        → slice_index (liking other made).places number ≡ place }
{}

/// Where no label is new in the table of another file, its block stays as it is, byte for byte.
pub fn a_block_without_new_labels_stays()
    ensures { (made : TableValue) (block : List ℕ) → HoldsTable block → AreKnown (table_in block) made
        → block_like (table_in block).entries (liking (table_in block) made).entries block ≡ block }
{}
