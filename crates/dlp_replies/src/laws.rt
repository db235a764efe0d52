// What holds of the texts of replies.
ghost use Rattle.std.specs.Prelude.{◌≡◌, ◌*◌, ◌<◌, ◌^◌, ℕ, List, length, get_or, Some, Ok};
ghost use Rattle.std.specs.List.{AllByRecursion};
ghost use Rattle.dlp_replies.specs.EntryLists.{Row};
ghost use Rattle.dlp_replies.specs.EntryReading.{AreRows, rows_in};
ghost use Rattle.dlp_replies.specs.Frames.{IsReply, frame, function_byte, reply_text};
ghost use Rattle.dlp_replies.specs.IdLists.{IsId, ids_text, words};
ghost use Rattle.dlp_replies.specs.ReplyReading.{reply_at};
ghost use Rattle.dlp_replies.specs.ReplyTexts.{ReplyText};
ghost use Rattle.dlp_replies.specs.ReplyValues.{ReplyValue};

/// The law of writing and reading: what is written of a reply is one of its texts, and is read as this reply to its
/// function.
pub fn reply_round_trip()
    ensures text { (value : ReplyValue) → IsReply value
        → ReplyText (function_byte (frame value)) value (reply_text value) }
    ensures again { (value : ReplyValue) → IsReply value
        → reply_at (function_byte (frame value)) (reply_text value) ≡ Ok value }
{}

/// The laws of lists: so many entries are found exactly where the bytes are their texts, and the numbers of each four
/// bytes are those of the text of ids.
pub fn lists_are_exact()
    ensures found { (count : ℕ) (bytes : List ℕ) (rows : List Row)
        → ((i : ℕ) → get_or bytes i 0 < 2 ^ 8)
        → rows_in count bytes ≡ Some rows → (length rows ≡ count) × AreRows rows bytes }
    ensures only { (rows : List Row) (bytes : List ℕ) → AreRows rows bytes
        → rows_in (length rows) bytes ≡ Some rows }
    ensures numbers { (count : ℕ) (bytes : List ℕ) → ((i : ℕ) → get_or bytes i 0 < 2 ^ 8)
        → 4 * count ≡ length bytes
        → (length (words bytes) ≡ count) × (ids_text (words bytes) ≡ bytes) }
    ensures ids { (ids : List ℕ) → AllByRecursion IsId ids → words (ids_text ids) ≡ ids }
{}
