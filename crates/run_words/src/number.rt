// Numbers as words: decimal digits without a sign or a leading zero.
ghost use Rattle.std.specs.Prelude.{◌≡◌};
ghost use Rattle.std.specs.Char.{is_ascii_digit};
ghost use Rattle.std.specs.List.{list_all};
ghost use Rattle.run_words.specs.Numbers.{count_of, is_number as is_number_word, number_of};

fn are_digits(bytes: &[u8]) -> bool
    ensures { result ≡ list_all is_ascii_digit bytes.now }
{
    bytes.iter().all(|byte| byte.is_ascii_digit())
}

// One digit or more, the first of them a zero only where it is the only one.
fn is_number(word: &[u8]) -> bool
    ensures { result ≡ is_number_word word.now }
{
    match word.first() {
        Some(first) => are_digits(word) && (*first != b'0' || word.len() == 1),
        None => false,
    }
}

/// The number of a word, up to 18,446,744,073,709,551,615.
pub fn number_in(word: &str) -> Option<u64>
    ensures { result ≡ number_of word.now }
{
    if !is_number(word.as_bytes()) {
        return None;
    }
    match word.parse() {
        Ok(number) => Some(number),
        Err(_) => None,
    }
}

/// The number of a word, from 1 to 5,000.
pub fn count_in(word: &str) -> Option<u32>
    ensures { result ≡ count_of word.now }
{
    let number = number_in(word)?;
    if 1 <= number && number <= 5000 {
        Some(number as u32)
    } else {
        None
    }
}
