// What holds of lines.
ghost use Rattle.std.specs.Prelude.{◌≡◌, ◌≤◌, All, ℕ, List, true};
ghost use Rattle.content_lines.specs.Lines.{IsLine, escaped, fits, folded, has_no_break, lines_text, unescaped, unfolded};
ghost use Rattle.content_lines.specs.Properties.{PropertyValue, are_properties, properties_text};

/// A value is read again as it was written.
pub fn values_are_read_again()
    ensures { (text : List ℕ) → unescaped (escaped text) ≡ text }
{}

/// So is a line without line breaks.
pub fn lines_are_read_again()
    ensures { (used : ℕ) (line : List ℕ) → has_no_break line ≡ true → unfolded (folded used line) ≡ line }
{}

/// No physical line has more than 75 octets.
pub fn physical_lines_are_short()
    ensures { (used : ℕ) (line : List ℕ) → used ≤ 75 → has_no_break line ≡ true → fits used (folded used line) ≡ true }
{}

/// One text is that of one list of lines.
pub fn texts_are_of_one_list_of_lines()
    ensures { (a b : List (List ℕ)) → All IsLine a → All IsLine b → lines_text a ≡ lines_text b → a ≡ b }
{}

/// One text is that of one list of properties, of names without spaces and colons, and values without line breaks.
pub fn texts_are_of_one_list_of_properties()
    ensures { (a b : List PropertyValue) → are_properties a ≡ true → are_properties b ≡ true
        → properties_text a ≡ properties_text b → a ≡ b }
{}
