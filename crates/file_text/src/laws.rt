// What holds of the bytes of entries as text.
ghost use Rattle.std.specs.Prelude.{◌≡◌, ◌<◌, ℕ, List, true};
ghost use Rattle.std.specs.List.{AllByRecursion};
ghost use Rattle.file_text.specs.Escapes.{escaped, is_printable};

/// The text of an entry's bytes determines them, and is ASCII from the space to `~`.
pub fn contents_are_shown_one_to_one()
    ensures apart { (bytes other : List ℕ) → AllByRecursion (λ byte. byte < 256) bytes
        → AllByRecursion (λ byte. byte < 256) other → escaped bytes ≡ escaped other
        → bytes ≡ other }
    ensures printable { (bytes : List ℕ) → AllByRecursion (λ byte. byte < 256) bytes
        → AllByRecursion (λ byte. is_printable byte ≡ true) (escaped bytes) }
{}
