// What holds of layouts.
ghost use Rattle.std.specs.Prelude.{◌≡◌, ◌<◌, ◌^◌, ℕ, List, Some, true, get_or};
ghost use Rattle.dlp_args.specs.Cells.{CellKind};
ghost use Rattle.dlp_args.specs.Fields.{Fields, fields_in, AreFields, fields_text, FieldsFit, ends_well};

/// The laws of layouts: the cells that are found are those of the bytes, the cells of bytes are found, and what is written
/// of cells has these cells where only the last one stands up to the end.
pub fn layouts_are_exact()
    ensures found { (ks : List CellKind) (bytes : List ℕ) (fields : Fields ks)
        → ((i : ℕ) → get_or bytes i 0 < 2 ^ 8) → fields_in ks bytes ≡ Some fields
        → AreFields ks fields bytes }
    ensures only { (ks : List CellKind) (fields : Fields ks) (bytes : List ℕ)
        → AreFields ks fields bytes
        → fields_in ks bytes ≡ Some fields }
    ensures written { (ks : List CellKind) (fields : Fields ks) → ends_well ks ≡ true
        → FieldsFit ks fields
        → AreFields ks fields (fields_text ks fields) }
{}
