// One word behind a command.
ghost use Rattle.std.specs.Prelude.{◌≡◌, option_copied};
ghost use Rattle.run_words.specs.Forms as spec;
ghost use Rattle.run_words.specs.Words.{after, is_plain as is_plain_word};

/// What follows a first part of a word.
pub fn behind<'a>(word: &'a str, part: &str) -> Option<&'a str>
    ensures { option_copied result ≡ after part.now word.now }
{
    word.strip_prefix(part)
}

/// What follows `--NAME=` in a word that begins so.
pub fn value_in<'a>(word: &'a str, name: &str) -> Option<&'a str>
    ensures { option_copied result ≡ spec.value_in name.now word.entry.now }
{
    behind(behind(behind(word, "--")?, name)?, "=")
}

/// Whether a word is `--NAME`.
pub fn is_flag(word: &str, name: &str) -> bool
    ensures { result ≡ spec.is_flag name.now word.now }
{
    match behind(word, "--") {
        Some(rest) => rest == name,
        None => false,
    }
}

/// A plain word is not empty and does not begin with `-`.
pub fn is_plain(word: &[u8]) -> bool
    ensures { result ≡ is_plain_word word.now }
{
    match word.first() {
        Some(first) => *first != b'-',
        None => false,
    }
}
