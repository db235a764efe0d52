// What holds of exported tables.
ghost use Rattle.std.specs.Prelude.{◌≡◌, All, List, length, map, ℕ};
ghost use Rattle.pdb_values.specs.Databases.{DatabaseValue};
ghost use Rattle.palm_records.specs.declared.choice.Privacy.{Privacy};
ghost use Rattle.card_export.specs.Exports.{text_of};
ghost use Rattle.table_export.specs.Exports.{exported_rows, head_row};
ghost use Rattle.table_export.specs.Tables.{IsRow, rows_in, shown_row, table_text};
ghost use Rattle.table_export.specs.declared.kind.Kind.{Kind};
ghost use Rattle.table_export.specs.declared.kind.Marks.{Marks};

/// Reading the text of rows by the usual rules gives these rows, with marks where they are wanted.
pub fn rows_are_read_again()
    ensures { (marks : Marks) (rows : List (List (List ℕ))) → All IsRow rows
        → rows_in (table_text marks rows) ≡ map (shown_row marks) rows }
{}

/// One text is that of one list of rows, with marks or without.
pub fn a_text_is_that_of_one_list_of_rows()
    ensures { (marks : Marks) (a b : List (List (List ℕ))) → All IsRow a → All IsRow b
        → table_text marks a ≡ table_text marks b → a ≡ b }
{}

/// Each row of a table has as many columns as its head row.
pub fn each_row_has_a_field_for_each_name()
    ensures { (kind : Kind) (wanted : Privacy) (database : DatabaseValue)
        → All (λ row. length row ≡ length (head_row kind (text_of database.app)))
        (exported_rows kind wanted database) }
{}
