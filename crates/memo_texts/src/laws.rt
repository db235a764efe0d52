// What holds of texts and databases of memos.
ghost use Rattle.std.specs.Prelude.{◌≡◌, ◌≤◌, All, List, Ok, length};
ghost use Rattle.palm_records.specs.declared.choice.Privacy.TheVariants as privacy;
ghost use Rattle.memo_texts.specs.Exports.{exported_memos};
ghost use Rattle.memo_texts.specs.Memos.{MemoValue, memos_text};
ghost use Rattle.memo_texts.specs.Databases.{import_in, labels_of, memo_database};
ghost use Rattle.memo_texts.specs.KeptMemos.{IsKept};
ghost use Rattle.memo_texts.specs.Readings.{memos_in};

/// The text of memos is read as these memos: their ids, which of them are private, their labels and texts, in order.
pub fn memos_are_read_again()
    ensures { (memos : List MemoValue) → All IsKept memos → memos_in (memos_text memos) ≡ Ok memos }
{}

/// Memos that are exported and imported come back: the database of their text, which there is where they have at most 15
/// labels and are at most 65,535, has these memos and no others.
pub fn memos_come_back()
    ensures imported { (memos : List MemoValue) → All IsKept memos
        → length (labels_of memos) ≤ 15 → length memos ≤ 65535
        → import_in (memos_text memos) ≡ Ok (memo_database (labels_of memos) memos) }
    ensures exported { (memos : List MemoValue) → All IsKept memos → length (labels_of memos) ≤ 15
        → exported_memos privacy.All (memo_database (labels_of memos) memos) ≡ memos }
{}
