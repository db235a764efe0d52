// What holds of exported cards.
ghost use Rattle.std.specs.Prelude.{◌≡◌, All, List};
ghost use Rattle.card_export.specs.Cards.{CardValue, IsCard};
ghost use Rattle.card_export.specs.Properties.{cards_text};

/// One text is that of one list of cards: their ids, what their records say, their labels, and which of them are private,
/// in order.
pub fn a_text_is_that_of_one_list_of_cards()
    ensures { (a b : List CardValue) → All IsCard a → All IsCard b
        → cards_text a ≡ cards_text b → a ≡ b }
{}
