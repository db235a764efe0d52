// What holds of exported texts.
ghost use Rattle.std.specs.Prelude.{◌≡◌, All, List};
ghost use Rattle.memo_texts.specs.Memos.{IsMemo, MemoValue, memos_text};

/// One text is that of one list of memos: their ids, which of them are private, their labels and texts, in order.
pub fn a_text_is_that_of_one_list_of_memos()
    ensures { (a b : List MemoValue) → All IsMemo a → All IsMemo b
        → memos_text a ≡ memos_text b → a ≡ b }
{}
