// What holds of the characters of a Palm.
ghost use Rattle.std.specs.Prelude.{◌≡◌, ◌≢◌, ◌<◌, ◌++◌, ℕ, List};
ghost use Rattle.palm_records.specs.Characters.{char_of, char_text};

/// No two bytes stand for one character.
pub fn characters_are_one_to_one()
    ensures { (a b : ℕ) → a < 256 → b < 256 → char_of a ≡ char_of b → a ≡ b }
{}

/// Nor do the characters of two bytes, in UTF-8, begin one text.
pub fn characters_are_told_by_the_front()
    ensures { (a b : ℕ) (s t : List ℕ) → a < 256 → b < 256 → char_text a ++ s ≡ char_text b ++ t
        → (a ≡ b) × (s ≡ t) }
{}

/// A line feed stands for itself, and no byte for a carriage return.
pub fn lines_end_where_they_did()
    ensures feed { (byte : ℕ) → byte < 256 → char_of byte ≡ 10 → byte ≡ 10 }
    ensures itself { char_of 10 ≡ 10 }
    ensures return_not { (byte : ℕ) → byte < 256 → char_of byte ≢ 13 }
{}
